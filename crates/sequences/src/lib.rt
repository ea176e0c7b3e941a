// Lists and lent buffers: laws only, in specs/. No code stands here.

#![tactic(auto)]

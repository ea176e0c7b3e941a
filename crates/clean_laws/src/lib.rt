// Clean at the start, nothing touched: clean at the end. Laws on the way there, in specs/. No code stands here.

#![tactic(auto)]

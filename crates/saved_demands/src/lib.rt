// Document 02, §7 as theorems, in specs/. No code stands here.

#![tactic(auto)]

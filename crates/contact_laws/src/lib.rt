// What follows from the meaning: theorems only, in specs/. No code stands here.

#![tactic(auto)]

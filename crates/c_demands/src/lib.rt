// What a caller in C hears, as theorems, in specs/. No code stands here.

#![tactic(auto)]

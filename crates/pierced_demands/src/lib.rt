// What the demands say of an edge through a triangle at one time: theorems only, in specs/. No code stands here.

#![tactic(auto)]

// What was asked of two OBJ files, as theorems, in specs/ and proofs/. No code stands here.

#![tactic(auto)]

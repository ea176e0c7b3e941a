// What was asked of meshes by rows, as theorems over the promises, in specs/ and proofs/. No code stands here.

#![tactic(auto)]

// Clean at the start and nothing touched, so clean at the end: for an edge and a triangle, a mesh and a series. Theorems only, in specs/ and proofs/. No code stands here.

#![tactic(auto)]

// A part of a mesh says of its pairs what the mesh says: the theorems stand in specs/ and proofs/. No code stands here.

#![tactic(auto)]

// Weights of a piece where corners are left out: theorems only, in specs/ and proofs/. No code stands here.

#![tactic(auto)]

// What follows from the meaning: theorems only, in specs/ and proofs/. No code stands here.

#![tactic(auto)]

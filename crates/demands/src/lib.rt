// The demands as theorems about the meaning, in specs/ and proofs/. No code stands here.

#![tactic(auto)]

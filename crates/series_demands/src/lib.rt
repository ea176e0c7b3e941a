// What was asked of a series, as theorems, in specs/ and proofs/. No code stands here.

#![tactic(auto)]

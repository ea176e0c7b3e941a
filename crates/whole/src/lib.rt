// Whole numbers: laws only, in specs/ and proofs/. No code stands here.

#![tactic(auto)]

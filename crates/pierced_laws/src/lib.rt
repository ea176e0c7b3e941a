// An edge through a triangle at one time: what follows from the definition, in specs/ and proofs/. No code stands here.

#![tactic(auto)]

// What was asked of dragging, as theorems: they stand in specs/ and proofs/. No code stands here.

#![tactic(auto)]

// What was asked of a list of one's own: theorems only, in specs/. No code stands here.

#![tactic(auto)]

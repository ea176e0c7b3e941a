// What was asked of contacts: theorems only, in specs/. No code stands here.

#![tactic(auto)]

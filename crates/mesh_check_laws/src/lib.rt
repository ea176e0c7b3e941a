// What holds in an accepted mesh, in specs/. No code stands here.

#![tactic(auto)]

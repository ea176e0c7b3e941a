// Far pairs: they touch in no piece and at no time, so near pairs have every hit and every touch, in specs/. No code stands here.

#![tactic(auto)]

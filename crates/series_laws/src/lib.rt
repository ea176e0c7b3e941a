// A series of steps: what it is, what its text says and what follows, in specs/. No code stands here.

#![tactic(auto)]

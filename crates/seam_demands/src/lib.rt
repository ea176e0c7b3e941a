// Scenes with seams, shown: the theorems stand in specs/. No code stands here.

#![tactic(auto)]

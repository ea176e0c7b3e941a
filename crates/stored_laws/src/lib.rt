// Scenes that keep their boxes: the checks of their calls, and what a move does to them. Theorems alone, in specs/.

#![tactic(auto)]

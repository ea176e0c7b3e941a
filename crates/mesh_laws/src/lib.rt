// Meshes of any size: the rows of the list and the numbers of its entries, in specs/. No code stands here.

#![tactic(auto)]

// Edges through triangles, row by row: theorems alone.

#![tactic(auto)]

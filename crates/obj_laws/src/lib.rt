// The lines of an OBJ file and the scene that they make: theorems only, in specs/. No code stands here.

#![tactic(auto)]

// Texts made of lines, over any grammar: theorems only, in specs/. No code stands here.

#![tactic(auto)]

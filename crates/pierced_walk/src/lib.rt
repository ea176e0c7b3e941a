// Rows of edges against triangles at one time: the triangles whose boxes then meet the edge's are found by the walk over a tree, those with a shared
// vertex are left out, the others are asked, and the pierced ones are counted and entered. One walk does both, up to a bound.

#![tactic(auto)]

mod asked; // asked.rt: one edge and one triangle
mod rows; // rows.rt: rows walked over the tree
pub mod stretch; // stretch.rt: a stretch of rows in scratch of its own, written where all of it has room

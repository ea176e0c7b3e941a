// Swept boxes, each worked out once and kept as six numbers of a list, and the one test of two of them.

#![tactic(auto)]

mod spans; // spans.rt: the low and the high on one axis
pub mod kept; // kept.rt: whole boxes, stored and tested
pub mod filling; // filling.rt: the boxes of all vertices, edges and triangles of a scene

// Counts, the ends of an edge, the corners of a triangle, and what they share. Each function takes the one list that it reads, and the table of
// seams where vertices are compared; what it promises of a scene with these alone is, by computation, what it promises of the whole scene.
// A scene without seams has a table without entries: there every vertex counts as itself, and none is looked up.

#![tactic(auto)]

pub mod asked; // asked.rt: what is asked of a pair before it is judged
pub mod written; // written.rt: ends and corners as the scene writes them, and in rising number

ghost use Rattle.std.specs.Prelude.{ℕ, ◌<◌, List, ◌≡◌, ℤ};
ghost use Rattle.meaning.specs.Scene.{vertex_count, edge_count, triangle_count, edge_end, corner, counts_as, ends_of, corners_of};
ghost use Rattle.meaning.specs.Refusals.{shares};
ghost use Rattle.meaning.specs.declared.Kind.TheVariants.{PointTriangle, EdgeEdge};
ghost use Rattle.scene_seams.specs.Alone.{only_positions, only_edges, only_triangles, only_table, edges_sewn, triangles_sewn, tabled};
ghost use Rattle.scene_parts.specs.Ordering.{one_of_three, one_in_common};

use meaning::{Corners, Ends};
use scene_seams::counts_as;
use written::{among, corner, edge_end, in_order, rising};

// How many vertices there are: six coordinates each.
pub fn vertex_count(positions: &[i32]) -> usize
    ensures { result ≡ vertex_count (only_positions positions.now) }
{
    positions.len() / 6
}

// How many edges there are: two vertex numbers each.
pub fn edge_count(edges: &[u16]) -> usize
    ensures { result ≡ edge_count (only_edges edges.now) }
{
    edges.len() / 2
}

// How many triangles there are: three vertex numbers each.
pub fn triangle_count(triangles: &[u16]) -> usize
    ensures { result ≡ triangle_count (only_triangles triangles.now) }
{
    triangles.len() / 3
}

// The ends of an edge in the order by which it is cut: by the vertices that they stand for, so that sewn edges are cut alike.
pub fn ends_of(edges: &[u16], stands: &[u16], j: usize) -> Ends
    requires { j < edge_count (only_edges edges.now) }
    ensures { result ≡ ends_of (edges_sewn edges.now stands.now) j }
{
    let a = edge_end(edges, j, 0);
    let b = edge_end(edges, j, 1);
    if stands.len() == 0 {
        rising(a, a, b, b)
    } else {
        rising(a, counts_as(stands, a), b, counts_as(stands, b))
    }
}

// The corners of a triangle in the same order, so that faces on both sides of a seam are cut along one diagonal.
pub fn corners_of(triangles: &[u16], stands: &[u16], j: usize) -> Corners
    requires { j < triangle_count (only_triangles triangles.now) }
    ensures { result ≡ corners_of (triangles_sewn triangles.now stands.now) j }
{
    let a = corner(triangles, j, 0);
    let b = corner(triangles, j, 1);
    let c = corner(triangles, j, 2);
    if stands.len() == 0 {
        let e = rising(a, a, b, b);
        among(e.low, e.low, e.high, e.high, c, c)
    } else {
        in_order(
            a,
            counts_as(stands, a),
            b,
            counts_as(stands, b),
            c,
            counts_as(stands, c),
        )
    }
}

// End k of edge j and corner k of triangle j, as the vertex stood for.
pub fn end_counts_as(edges: &[u16], stands: &[u16], j: usize, k: usize) -> usize
    requires { (j < edge_count (only_edges edges.now)) × (k < 2) }
    ensures { result ≡ counts_as (only_table stands.now) (edge_end (only_edges edges.now) j k) }
{
    counts_as(stands, edge_end(edges, j, k))
}

// The vertex that a corner stands for, by which it is asked whether two parts share one.
pub fn corner_counts_as(triangles: &[u16], stands: &[u16], j: usize, k: usize) -> usize
    requires { (j < triangle_count (only_triangles triangles.now)) × (k < 3) }
    ensures { result ≡ counts_as (only_table stands.now) (corner (only_triangles triangles.now) j k) }
{
    counts_as(stands, corner(triangles, j, k))
}

// Whether v is one of three vertices.
pub fn one_of_three(v: usize, a: usize, b: usize, c: usize) -> bool
    ensures { result ≡ one_of_three v a b c }
{
    (v == a) | (v == b) | (v == c)
}

// Whether vertex v is a corner of triangle j.
pub fn shares_pt(triangles: &[u16], stands: &[u16], v: usize, j: usize) -> bool
    requires { j < triangle_count (only_triangles triangles.now) }
    ensures { (p : List ℤ) (e : List ℕ)
        → result ≡ shares (tabled p e triangles.now stands.now) PointTriangle v j }
{
    let a = corner(triangles, j, 0);
    let b = corner(triangles, j, 1);
    let c = corner(triangles, j, 2);
    if stands.len() == 0 {
        one_of_three(v, a, b, c)
    } else {
        one_of_three(
            counts_as(stands, v),
            counts_as(stands, a),
            counts_as(stands, b),
            counts_as(stands, c),
        )
    }
}

// Whether two vertices and two others have one in common.
pub fn one_in_common(a: usize, b: usize, c: usize, d: usize) -> bool
    ensures { result ≡ one_in_common a b c d }
{
    (a == c) | (a == d) | (b == c) | (b == d)
}

// Whether an end of edge i is an end of edge j.
pub fn shares_ee(edges: &[u16], stands: &[u16], i: usize, j: usize) -> bool
    requires { (i < edge_count (only_edges edges.now)) × (j < edge_count (only_edges edges.now)) }
    ensures { (p : List ℤ) (t : List ℕ)
        → result ≡ shares (tabled p edges.now t stands.now) EdgeEdge i j }
{
    let a = edge_end(edges, i, 0);
    let b = edge_end(edges, i, 1);
    let c = edge_end(edges, j, 0);
    let d = edge_end(edges, j, 1);
    if stands.len() == 0 {
        one_in_common(a, b, c, d)
    } else {
        one_in_common(
            counts_as(stands, a),
            counts_as(stands, b),
            counts_as(stands, c),
            counts_as(stands, d),
        )
    }
}

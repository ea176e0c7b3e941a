// The counts, the ends of an edge and the corners of a triangle of a mesh, in lists of u32, and what they share: scene_parts at another width. Each
// function takes the one list that it reads, and the table of seams where vertices are compared. A mesh without seams has a table without entries:
// there every vertex counts as itself, and none is looked up. How vertices are put in rising order is scene_parts' own, which knows no width.

#![tactic(auto)]

pub mod asked; // asked.rt: what is asked of a pair before it is judged

ghost use Rattle.std.specs.Prelude.{ℕ, ◌<◌, List, ◌≡◌, ℤ};
ghost use Rattle.meaning.specs.Scene.{edge_count, triangle_count, edge_end, corner, counts_as, ends_of, corners_of};
ghost use Rattle.meaning.specs.Refusals.{shares};
ghost use Rattle.meaning.specs.declared.Kind.TheVariants.{PointTriangle, EdgeEdge};
ghost use Rattle.scene_seams.specs.Alone.{only_edges, only_triangles, only_table, edges_sewn, triangles_sewn, tabled};

use meaning::{Corners, Ends};
use mesh_seams::{counts_as, wide};
use scene_parts::written::{among, in_order, rising};
use scene_parts::{one_in_common, one_of_three};

// How many edges there are, two numbers to each.
pub fn edge_count(edges: &[u32]) -> usize
    ensures { result ≡ edge_count (only_edges edges.now) }
{
    edges.len() / 2
}

// How many triangles there are, three numbers to each.
pub fn triangle_count(triangles: &[u32]) -> usize
    ensures { result ≡ triangle_count (only_triangles triangles.now) }
{
    triangles.len() / 3
}

// End k, 0 or 1, of edge j, as the mesh writes it.
pub fn edge_end(edges: &[u32], j: usize, k: usize) -> usize
    requires { (j < edge_count (only_edges edges.now)) × (k < 2) }
    ensures { result ≡ edge_end (only_edges edges.now) j k }
{
    wide(edges[2 * j + k])
}

// Corner k, 0 to 2, of triangle j, as the mesh writes it.
pub fn corner(triangles: &[u32], j: usize, k: usize) -> usize
    requires { (j < triangle_count (only_triangles triangles.now)) × (k < 3) }
    ensures { result ≡ corner (only_triangles triangles.now) j k }
{
    wide(triangles[3 * j + k])
}

// The ends of edge j, the lower first, by the vertices stood for.
pub fn ends_of(edges: &[u32], stands: &[u32], j: usize) -> Ends
    requires { j < edge_count (only_edges edges.now) }
    ensures { result ≡ ends_of (edges_sewn edges.now stands.now) j }
{
    let a = edge_end(edges, j, 0);
    let b = edge_end(edges, j, 1);
    if stands.len() == 0 {
        rising(a, a, b, b)
    } else {
        rising(a, counts_as(stands, a), b, counts_as(stands, b))
    }
}

// The corners of triangle j in rising number, by the vertices stood for.
pub fn corners_of(triangles: &[u32], stands: &[u32], j: usize) -> Corners
    requires { j < triangle_count (only_triangles triangles.now) }
    ensures { result ≡ corners_of (triangles_sewn triangles.now stands.now) j }
{
    let a = corner(triangles, j, 0);
    let b = corner(triangles, j, 1);
    let c = corner(triangles, j, 2);
    if stands.len() == 0 {
        let e = rising(a, a, b, b);
        among(e.low, e.low, e.high, e.high, c, c)
    } else {
        in_order(
            a,
            counts_as(stands, a),
            b,
            counts_as(stands, b),
            c,
            counts_as(stands, c),
        )
    }
}

// End k of edge j, as the vertex stood for.
pub fn end_counts_as(edges: &[u32], stands: &[u32], j: usize, k: usize) -> usize
    requires { (j < edge_count (only_edges edges.now)) × (k < 2) }
    ensures { result ≡ counts_as (only_table stands.now) (edge_end (only_edges edges.now) j k) }
{
    counts_as(stands, edge_end(edges, j, k))
}

// Corner k of triangle j, as the vertex stood for.
pub fn corner_counts_as(triangles: &[u32], stands: &[u32], j: usize, k: usize) -> usize
    requires { (j < triangle_count (only_triangles triangles.now)) × (k < 3) }
    ensures { result ≡ counts_as (only_table stands.now) (corner (only_triangles triangles.now) j k) }
{
    counts_as(stands, corner(triangles, j, k))
}

// Whether vertex v is a corner of triangle j.
pub fn shares_pt(triangles: &[u32], stands: &[u32], v: usize, j: usize) -> bool
    requires { j < triangle_count (only_triangles triangles.now) }
    ensures { (p : List ℤ) (e : List ℕ)
        → result ≡ shares (tabled p e triangles.now stands.now) PointTriangle v j }
{
    let a = corner(triangles, j, 0);
    let b = corner(triangles, j, 1);
    let c = corner(triangles, j, 2);
    if stands.len() == 0 {
        one_of_three(v, a, b, c)
    } else {
        one_of_three(
            counts_as(stands, v),
            counts_as(stands, a),
            counts_as(stands, b),
            counts_as(stands, c),
        )
    }
}

// Whether an end of edge i is an end of edge j.
pub fn shares_ee(edges: &[u32], stands: &[u32], i: usize, j: usize) -> bool
    requires { (i < edge_count (only_edges edges.now)) × (j < edge_count (only_edges edges.now)) }
    ensures { (p : List ℤ) (t : List ℕ)
        → result ≡ shares (tabled p edges.now t stands.now) EdgeEdge i j }
{
    let a = edge_end(edges, i, 0);
    let b = edge_end(edges, i, 1);
    let c = edge_end(edges, j, 0);
    let d = edge_end(edges, j, 1);
    if stands.len() == 0 {
        one_in_common(a, b, c, d)
    } else {
        one_in_common(
            counts_as(stands, a),
            counts_as(stands, b),
            counts_as(stands, c),
            counts_as(stands, d),
        )
    }
}

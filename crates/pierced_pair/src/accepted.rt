// An edge and a triangle of a scene that was checked already.

ghost use Rattle.std.specs.Prelude.{ℕ, ◌<◌, List, ◌≡◌, ℤ};
ghost use Rattle.meaning.specs.Scene.{scene_of, Accepted, edge_count, triangle_count};
ghost use Rattle.meaning.specs.Refusals.{Answers, outcome_alone};
ghost use Rattle.meaning.specs.Pierced.{end_is_corner, pierced_asked, PiercedIs};
ghost use Rattle.scene_seams.specs.Alone.{only_edges, only_triangles, tabled};
ghost use Rattle.pierced_pair.specs.Parts.{PartsIn};

use super::places::vertices_in_common;
use meaning::{Frame, Refusal};
use scene_parts::shares_pt;
use scene_parts::written::{corner, edge_end};

// Is edge i through triangle j at that time? Ends and corners are taken as they are written: no seam and no order changes the answer.
pub fn pierced(
    positions: &[i32],
    edges: &[u16],
    triangles: &[u16],
    frame: Frame,
    i: usize,
    j: usize,
) -> bool
    requires { PartsIn positions.now edges.now triangles.now i j }
    ensures { (w : List ℕ)
        → PiercedIs (scene_of positions.now edges.now triangles.now w) frame i j result }
{
    let p = edge_end(edges, i, 0);
    let q = edge_end(edges, i, 1);
    let a = corner(triangles, j, 0);
    let b = corner(triangles, j, 1);
    let c = corner(triangles, j, 2);
    vertices_in_common(positions, frame, p, q, a, b, c)
}

// 6: an end of edge i is a corner of triangle j, by the vertices stood for.
fn end_is_corner(edges: &[u16], triangles: &[u16], stands: &[u16], i: usize, j: usize) -> bool
    requires { (i < edge_count (only_edges edges.now)) × (j < triangle_count (only_triangles triangles.now)) }
    ensures { (p : List ℤ)
        → result ≡ end_is_corner (tabled p edges.now triangles.now stands.now) i j }
{
    let first = shares_pt(triangles, stands, edge_end(edges, i, 0), j);
    let second = shares_pt(triangles, stands, edge_end(edges, i, 1), j);
    first | second
}

// 5, then 6, else whether the edge is through the triangle.
pub fn answer(
    positions: &[i32],
    edges: &[u16],
    triangles: &[u16],
    stands: &[u16],
    frame: Frame,
    edge: usize,
    triangle: usize,
) -> Result<bool, Refusal>
    requires { Accepted (tabled positions.now edges.now triangles.now stands.now) }
    ensures { Answers (pierced_asked (tabled positions.now edges.now triangles.now stands.now) edge triangle)
        (PiercedIs (tabled positions.now edges.now triangles.now stands.now) frame edge triangle) (outcome_alone result) }
{
    if (edges.len() / 2 <= edge) | (triangles.len() / 3 <= triangle) {
        return Err(Refusal::NotThere);
    }
    if end_is_corner(edges, triangles, stands, edge, triangle) {
        return Err(Refusal::SharedVertex);
    }
    Ok(pierced(positions, edges, triangles, frame, edge, triangle))
}

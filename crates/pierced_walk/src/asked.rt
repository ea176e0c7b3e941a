// An edge and a triangle of a mesh whose seams stand in a table: whether they share a vertex, and whether the one is through the other.

ghost use Rattle.std.specs.Prelude.{ℕ, ◌<◌, true, ◌&&◌, List, ◌≡◌, ℤ};
ghost use Rattle.meaning.specs.Scene.{scene_of, edge_count, triangle_count};
ghost use Rattle.meaning.specs.Pierced.{end_is_corner, PiercedIs};
ghost use Rattle.scene_seams.specs.Alone.{only_edges, only_triangles, tabled};
ghost use Rattle.scene_checks.specs.Facts.{Sound};
ghost use Rattle.pierced_pair.specs.Parts.{PartsIn};
ghost use Rattle.pierced_walk.specs.Rows.{passes};

use meaning::Frame;
use mesh_parts::{corner, edge_end, shares_pt};
use pierced_pair::places::vertices_in_common;

// Is edge i through triangle j at that time? As pierced_pair asks it of a scene.
fn pierced(
    positions: &[i32],
    edges: &[u32],
    triangles: &[u32],
    frame: Frame,
    i: usize,
    j: usize,
) -> bool
    requires { PartsIn positions.now edges.now triangles.now i j }
    ensures { (w : List ℕ)
        → PiercedIs (scene_of positions.now edges.now triangles.now w) frame i j result }
{
    let p = edge_end(edges, i, 0);
    let q = edge_end(edges, i, 1);
    let a = corner(triangles, j, 0);
    let b = corner(triangles, j, 1);
    let c = corner(triangles, j, 2);
    vertices_in_common(positions, frame, p, q, a, b, c)
}

// Whether an end of edge i is a corner of triangle j, by the vertices stood for.
fn end_is_corner(edges: &[u32], triangles: &[u32], stands: &[u32], i: usize, j: usize) -> bool
    requires { (i < edge_count (only_edges edges.now)) × (j < triangle_count (only_triangles triangles.now)) }
    ensures { (p : List ℤ)
        → result ≡ end_is_corner (tabled p edges.now triangles.now stands.now) i j }
{
    let first = shares_pt(triangles, stands, edge_end(edges, i, 0), j);
    let second = shares_pt(triangles, stands, edge_end(edges, i, 1), j);
    first | second
}

// Whether they share no vertex, and the edge is through the triangle.
fn is_pierced(
    positions: &[i32],
    edges: &[u32],
    triangles: &[u32],
    stands: &[u32],
    frame: Frame,
    i: usize,
    j: usize,
) -> bool
    requires { Sound (tabled positions.now edges.now triangles.now stands.now) × (i < edge_count (tabled positions.now edges.now triangles.now stands.now))
        × (j < triangle_count (tabled positions.now edges.now triangles.now stands.now)) }
    ensures { result ≡ passes frame (tabled positions.now edges.now triangles.now stands.now) i j }
{
    if end_is_corner(edges, triangles, stands, i, j) {
        return false;
    }
    pierced(positions, edges, triangles, frame, i, j)
}

// The same of a triangle, if one was found.
pub fn is_through(
    positions: &[i32],
    edges: &[u32],
    triangles: &[u32],
    stands: &[u32],
    frame: Frame,
    i: usize,
    j: usize,
    found: bool,
) -> bool
    requires { Sound (tabled positions.now edges.now triangles.now stands.now) × (i < edge_count (tabled positions.now edges.now triangles.now stands.now))
        × (found ≡ true → j < triangle_count (tabled positions.now edges.now triangles.now stands.now)) }
    ensures { result ≡ found && passes frame (tabled positions.now edges.now triangles.now stands.now) i j }
{
    if found {
        is_pierced(positions, edges, triangles, stands, frame, i, j)
    } else {
        false
    }
}

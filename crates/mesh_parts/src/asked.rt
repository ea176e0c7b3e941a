// What is asked of a pair of a mesh before it is judged: whether it is there, and whether its parts share a vertex.

ghost use Rattle.scene_seams.specs.Alone.{tabled};
ghost use Rattle.std.specs.Prelude.{ℕ, false, List, ◌≡◌};
ghost use Rattle.meaning.specs.Refusals.{not_there, shares};
ghost use Rattle.meaning.specs.Scene.{scene_of};

use super::{shares_ee, shares_pt};
use meaning::Kind;

// 5: a place that isn't there.
pub fn not_there(
    positions: &[i32],
    edges: &[u32],
    triangles: &[u32],
    kind: Kind,
    i: usize,
    j: usize,
) -> bool
    ensures { (w : List ℕ) → result ≡ not_there (scene_of positions.now edges.now triangles.now w)
        kind i j }
{
    match kind {
        Kind::PointTriangle => (positions.len() / 6 <= i) | (triangles.len() / 3 <= j),
        Kind::EdgeEdge => (edges.len() / 2 <= i) | (edges.len() / 2 <= j),
    }
}

// 6: the two parts share a vertex.
pub fn shares_vertex(
    positions: &[i32],
    edges: &[u32],
    triangles: &[u32],
    stands: &[u32],
    kind: Kind,
    i: usize,
    j: usize,
) -> bool
    requires { not_there (tabled positions.now edges.now triangles.now stands.now) kind i j ≡ false }
    ensures { result ≡ shares (tabled positions.now edges.now triangles.now stands.now) kind i j }
{
    match kind {
        Kind::PointTriangle => shares_pt(triangles, stands, i, j),
        Kind::EdgeEdge => shares_ee(edges, stands, i, j),
    }
}

// What the word of a pair of a mesh is made of, by kind: its verdict, whether all its vertices rest, and the six points of a piece. The corners and
// ends are those of a mesh's lists of u32; what is asked of them goes by vertices, over positions of any number.

ghost use Rattle.scene_seams.specs.Alone.{tabled};
ghost use Rattle.std.specs.Prelude.{false, ◌≡◌};
ghost use Rattle.meaning.specs.Refusals.{not_there};
ghost use Rattle.meaning.specs.Verdicts.{PairIs};
ghost use Rattle.scene_checks.specs.Facts.{Sound};
ghost use Rattle.corner_search.specs.Sixes.{six_of};
ghost use Rattle.corner_rest.specs.Rests.{pair_rests};

use corner_leaf::SixPoints;
use corner_rest::{edges_rest, point_rests};
use four_words::six::{edges_six, point_six};
use meaning::{Kind, Verdict};
use mesh_parts::{corners_of, ends_of};
use three_words::accepted::{edges_pair, point_pair};

// Hit, miss or degenerate.
pub fn verdict(
    positions: &[i32],
    edges: &[u32],
    triangles: &[u32],
    stands: &[u32],
    kind: Kind,
    i: usize,
    j: usize,
) -> Verdict
    requires { Sound (tabled positions.now edges.now triangles.now stands.now)
        × (not_there (tabled positions.now edges.now triangles.now stands.now) kind i j ≡ false) }
    ensures { PairIs (tabled positions.now edges.now triangles.now stands.now) kind i j result }
{
    match kind {
        Kind::PointTriangle => point_pair(positions, i, corners_of(triangles, stands, j)),
        Kind::EdgeEdge => {
            let first = ends_of(edges, stands, i.min(j));
            let second = ends_of(edges, stands, i.max(j));
            edges_pair(positions, first, second)
        }
    }
}

// Do all vertices of a pair rest?
pub fn rests(
    positions: &[i32],
    edges: &[u32],
    triangles: &[u32],
    stands: &[u32],
    kind: Kind,
    i: usize,
    j: usize,
) -> bool
    requires { Sound (tabled positions.now edges.now triangles.now stands.now)
        × (not_there (tabled positions.now edges.now triangles.now stands.now) kind i j ≡ false) }
    ensures { result ≡ pair_rests (tabled positions.now edges.now triangles.now stands.now) kind i j }
{
    match kind {
        Kind::PointTriangle => point_rests(positions, i, corners_of(triangles, stands, j)),
        Kind::EdgeEdge => {
            let first = ends_of(edges, stands, i.min(j));
            let second = ends_of(edges, stands, i.max(j));
            edges_rest(positions, first, second)
        }
    }
}

// The six points of a piece, the edge with the lower place first.
pub fn six_of(
    positions: &[i32],
    edges: &[u32],
    triangles: &[u32],
    stands: &[u32],
    kind: Kind,
    i: usize,
    j: usize,
    k: usize,
) -> SixPoints
    requires { Sound (tabled positions.now edges.now triangles.now stands.now)
        × (not_there (tabled positions.now edges.now triangles.now stands.now) kind i j ≡ false) }
    ensures { result ≡ six_of (tabled positions.now edges.now triangles.now stands.now) kind i j k }
{
    match kind {
        Kind::PointTriangle => point_six(i, corners_of(triangles, stands, j), k),
        Kind::EdgeEdge => {
            let first = ends_of(edges, stands, i.min(j));
            let second = ends_of(edges, stands, i.max(j));
            edges_six(first, k / 2, second, k % 2)
        }
    }
}

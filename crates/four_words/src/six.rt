// The six points of a piece, first simplex first, each as the place of its first coordinate in the positions: 6 v at the start, 6 v + 3
// at the end. Every piece goes from a start to an end; between them it steps from start to end at one vertex, and which one that is
// makes the pieces differ.

ghost use Rattle.scene_seams.specs.Alone.{tabled};
ghost use Rattle.std.specs.Prelude.{◌≡◌, false, ◌<◌};
ghost use Rattle.meaning.specs.Scene.{Accepted};
ghost use Rattle.meaning.specs.Refusals.{not_there};
ghost use Rattle.corner_search.specs.Sixes.{point_six, edges_six, six_of};
ghost use Rattle.scene_checks.specs.Facts.{sound_limit};
ghost use Rattle.four_words.specs.Six.{between, PointFew, EdgesFew};

use corner_leaf::SixPoints;
use meaning::{Corners, Ends, Kind};

// The point between the lower vertex at the start and the higher at the end.
fn between(low: usize, high: usize, end: bool) -> usize
    requires { (low < sound_limit) × (high < sound_limit) }
    ensures { result ≡ between low high end }
{
    if end { 6 * low + 3 } else { 6 * high }
}

// p p' and 1 2 3 3', or 1 2 2' 3', or 1 1' 2' 3'.
pub fn point_six(p: usize, c: Corners, k: usize) -> SixPoints
    requires { PointFew p c }
    ensures { result ≡ point_six p c k }
{
    let lower = 1 < k;
    let upper = 0 < k;
    let second = between(c.low, c.middle, lower);
    let third = between(c.middle, c.high, upper);
    SixPoints {
        at: [6 * p, 6 * p + 3, 6 * c.low, second, third, 6 * c.high + 3],
        ends: [false, true, false, lower, upper, true],
        first: 2,
    }
}

// 1 2 2' in piece A (0), 1 1' 2' in piece B, of either edge.
pub fn edges_six(e: Ends, i: usize, f: Ends, j: usize) -> SixPoints
    requires { EdgesFew e f }
    ensures { result ≡ edges_six e i f j }
{
    let first = 0 < i;
    let second = 0 < j;
    let a = between(e.low, e.high, first);
    let b = between(f.low, f.high, second);
    SixPoints {
        at: [6 * e.low, a, 6 * e.high + 3, 6 * f.low, b, 6 * f.high + 3],
        ends: [false, first, true, false, second, true],
        first: 3,
    }
}

// The six points of a piece of a pair, the edge with the lower place first.
pub fn six_of(
    positions: &[i32],
    edges: &[u16],
    triangles: &[u16],
    stands: &[u16],
    kind: Kind,
    i: usize,
    j: usize,
    k: usize,
) -> SixPoints
    requires { Accepted (tabled positions.now edges.now triangles.now stands.now)
        × (not_there (tabled positions.now edges.now triangles.now stands.now) kind i j ≡ false) }
    ensures { result ≡ six_of (tabled positions.now edges.now triangles.now stands.now) kind i j k }
{
    match kind {
        Kind::PointTriangle => point_six(i, scene_parts::corners_of(triangles, stands, j), k),
        Kind::EdgeEdge => {
            let first = scene_parts::ends_of(edges, stands, i.min(j));
            let second = scene_parts::ends_of(edges, stands, i.max(j));
            edges_six(first, k / 2, second, k % 2)
        }
    }
}

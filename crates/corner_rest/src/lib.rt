// Whether all vertices of a pair rest.

#![tactic(auto)]

ghost use Rattle.scene_seams.specs.Alone.{tabled};
ghost use Rattle.std.specs.Prelude.{◌≡◌, false, ◌+◌, ◌/◌, ◌<◌, length};
ghost use Rattle.meaning.specs.Scene.{Accepted};
ghost use Rattle.meaning.specs.Refusals.{not_there};
ghost use Rattle.three_words.specs.Ready.{PointReady, EdgesReady};
ghost use Rattle.corner_rest.specs.Rests.{same_at, rests, point_rests, edges_rest, pair_rests};

use meaning::{Corners, Ends, Kind};

// A start's coordinate, and the end's three places behind it.
fn same(positions: &[i32], at: usize) -> bool
    requires { at + 3 < length positions.now }
    ensures { result ≡ same_at positions.now at }
{
    (positions[at] <= positions[at + 3]) & (positions[at + 3] <= positions[at])
}

fn rests(positions: &[i32], v: usize) -> bool
    requires { v < length positions.now / 6 }
    ensures { result ≡ rests positions.now v }
{
    let at = 6 * v;
    same(positions, at) & same(positions, at + 1) & same(positions, at + 2)
}

// Do a vertex and the corners of a triangle all rest?
pub fn point_rests(positions: &[i32], p: usize, c: Corners) -> bool
    requires { PointReady positions.now p c }
    ensures { result ≡ point_rests positions.now p c }
{
    rests(positions, p)
        & rests(positions, c.low)
        & rests(positions, c.middle)
        & rests(positions, c.high)
}

// Do the ends of two edges all rest?
pub fn edges_rest(positions: &[i32], e: Ends, f: Ends) -> bool
    requires { EdgesReady positions.now e f }
    ensures { result ≡ edges_rest positions.now e f }
{
    rests(positions, e.low)
        & rests(positions, e.high)
        & rests(positions, f.low)
        & rests(positions, f.high)
}

// Do all vertices of a pair rest?
pub fn pair_rests(
    positions: &[i32],
    edges: &[u16],
    triangles: &[u16],
    stands: &[u16],
    kind: Kind,
    i: usize,
    j: usize,
) -> bool
    requires { Accepted (tabled positions.now edges.now triangles.now stands.now)
        × (not_there (tabled positions.now edges.now triangles.now stands.now) kind i j ≡ false) }
    ensures { result ≡ pair_rests (tabled positions.now edges.now triangles.now stands.now) kind i j }
{
    match kind {
        Kind::PointTriangle => {
            point_rests(positions, i, scene_parts::corners_of(triangles, stands, j))
        }
        Kind::EdgeEdge => {
            let first = scene_parts::ends_of(edges, stands, i.min(j));
            let second = scene_parts::ends_of(edges, stands, i.max(j));
            edges_rest(positions, first, second)
        }
    }
}

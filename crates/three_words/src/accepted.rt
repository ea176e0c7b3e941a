// Pieces and pairs of a scene that was checked already: what the list and the report call for each pair, without checking again.

ghost use Rattle.scene_seams.specs.Alone.{tabled};
ghost use Rattle.std.specs.Prelude.{◌≡◌, false, List, ℕ, ◌<◌, min, max};
ghost use Rattle.meaning.specs.Scene.{scene_of, Accepted, ends_of, corners_of};
ghost use Rattle.meaning.specs.Pieces.{piece_of, piece_count};
ghost use Rattle.meaning.specs.Refusals.{not_there, shares};
ghost use Rattle.meaning.specs.Verdicts.{PieceIs, PairIs};
ghost use Rattle.meaning.specs.declared.Kind.TheVariants.{PointTriangle, EdgeEdge};
ghost use Rattle.exact_signs.specs.BySigns.{either_of};
ghost use Rattle.three_words.specs.Ready.{PointReady, EdgesReady};

use exact::shared::{edge_volumes, point_volumes};
use exact_signs::{Signs, edge_signs, point_signs, verdict_of};
use meaning::{Corners, Ends, Kind, Verdict};

// One piece of a pair.
pub fn piece(
    positions: &[i32],
    edges: &[u16],
    triangles: &[u16],
    stands: &[u16],
    kind: Kind,
    i: usize,
    j: usize,
    k: usize,
) -> Verdict
    requires { Accepted (tabled positions.now edges.now triangles.now stands.now)
        × (not_there (tabled positions.now edges.now triangles.now stands.now) kind i j ≡ false) }
    ensures { PieceIs (piece_of (tabled positions.now edges.now triangles.now stands.now) kind i j k) result }
{
    match kind {
        Kind::PointTriangle => {
            crate::pieces::point_piece(
                positions,
                i,
                scene_parts::corners_of(triangles, stands, j),
                k,
            )
        }
        Kind::EdgeEdge => {
            let first = scene_parts::ends_of(edges, stands, i.min(j));
            let second = scene_parts::ends_of(edges, stands, i.max(j));
            crate::pieces::edges_piece(positions, first, k / 2, second, k % 2)
        }
    }
}

// Two pieces, or more, taken together: a hit comes before a degenerate, and that before a miss.
pub fn either(a: Signs, b: Signs) -> Signs
    ensures { result ≡ either_of a b }
{
    let hit = a.hit | b.hit;
    let flat = a.flat | b.flat;
    Signs { hit, flat }
}

// The pieces of a pair share their determinants, so a pair takes the volumes of all its pieces at once.
pub fn point_pair(positions: &[i32], p: usize, c: Corners) -> Verdict
    requires { PointReady positions.now p c }
    ensures { (e t w : List ℕ) (j : ℕ) → corners_of (scene_of positions.now e t w) j ≡ c
        → PairIs (scene_of positions.now e t w) PointTriangle p j result }
{
    let v = point_volumes(positions, 6 * p, 6 * c.low, 6 * c.middle, 6 * c.high);
    let first = v.first;
    let second = v.second;
    let third = v.third;
    let a = point_signs(first);
    let b = point_signs(second);
    let d = point_signs(third);
    verdict_of(either(a, either(b, d)))
}

// The same for two edges, the lower one's ends first.
pub fn edges_pair(positions: &[i32], first: Ends, second: Ends) -> Verdict
    requires { EdgesReady positions.now first second }
    ensures { (e t w : List ℕ) (i j : ℕ) → ends_of (scene_of positions.now e t w) (min i j) ≡ first
        → ends_of (scene_of positions.now e t w) (max i j) ≡ second
        → PairIs (scene_of positions.now e t w) EdgeEdge i j result }
{
    let v = edge_volumes(
        positions,
        6 * first.low,
        6 * first.high,
        6 * second.low,
        6 * second.high,
    );
    let aa = v.aa;
    let ab = v.ab;
    let ba = v.ba;
    let bb = v.bb;
    let a = edge_signs(aa, false, false, false, true);
    let b = edge_signs(ab, false, false, true, true);
    let c = edge_signs(ba, true, false, false, true);
    let d = edge_signs(bb, true, false, true, true);
    verdict_of(either(a, either(b, either(c, d))))
}

// A pair: its corners are found once for all its pieces.
pub fn pair(
    positions: &[i32],
    edges: &[u16],
    triangles: &[u16],
    stands: &[u16],
    kind: Kind,
    i: usize,
    j: usize,
) -> Verdict
    requires { Accepted (tabled positions.now edges.now triangles.now stands.now)
        × (not_there (tabled positions.now edges.now triangles.now stands.now) kind i j ≡ false) }
    ensures { PairIs (tabled positions.now edges.now triangles.now stands.now) kind i j result }
{
    match kind {
        Kind::PointTriangle => {
            point_pair(positions, i, scene_parts::corners_of(triangles, stands, j))
        }
        Kind::EdgeEdge => {
            let first = scene_parts::ends_of(edges, stands, i.min(j));
            let second = scene_parts::ends_of(edges, stands, i.max(j));
            edges_pair(positions, first, second)
        }
    }
}

// The volumes of all pieces of a pair, piece by piece: minors that pieces have in common are worked out once, and a determinant that they have in
// common as often as a piece has one, 60 multiplications for a point and a triangle and 72 for two edges. It is for a pair that is known to be
// hit. What `shared` has is taken whole into the verdict of a pair as long as nothing else calls it (docs/DECISIONS.md, D105).

ghost use Rattle.meaning.specs.Limits.{coordinate_limit};
ghost use Rattle.exact.specs.Places.{Bounded};
ghost use Rattle.exact.specs.Shared.{Moving, PointVolumesAt, EdgeVolumesAt};

use super::shared::{EdgeVolumes, PointVolumes};
use super::{minors_at, volumes_with};

// The point p and the corners a, b, c at the start are q and d, e, f at the end.
pub fn point_pieces(positions: &[i32], p: usize, a: usize, b: usize, c: usize) -> PointVolumes
    requires { Moving positions.now p × Moving positions.now a × Moving positions.now b
        × Moving positions.now c × Bounded coordinate_limit positions.now }
    ensures { PointVolumesAt positions.now p a b c result }
{
    let q = p + 3;
    let d = a + 3;
    let e = b + 3;
    let f = c + 3;
    let ab = minors_at(positions, a, p, b, p);
    let ad = minors_at(positions, a, p, d, q);
    let cf = minors_at(positions, c, p, f, q);
    let ef = minors_at(positions, e, q, f, q);
    let first = volumes_with(positions, a, p, b, p, c, p, f, q, ab, cf);
    let second = volumes_with(positions, a, p, b, p, e, q, f, q, ab, ef);
    let third = volumes_with(positions, a, p, d, q, e, q, f, q, ad, ef);
    PointVolumes {
        first,
        second,
        third,
    }
}

// As in `shared`: starts are seen from i and ends from o.
pub fn edge_pieces(positions: &[i32], i: usize, r: usize, g: usize, h: usize) -> EdgeVolumes
    requires { Moving positions.now i × Moving positions.now r × Moving positions.now g
        × Moving positions.now h × Bounded coordinate_limit positions.now }
    ensures { EdgeVolumesAt positions.now i r g h result }
{
    let o = r + 3;
    let s = i + 3;
    let k = g + 3;
    let l = h + 3;
    let rg = minors_at(positions, r, i, g, i);
    let sg = minors_at(positions, s, o, g, i);
    let hl = minors_at(positions, h, i, l, o);
    let kl = minors_at(positions, k, o, l, o);
    let aa = volumes_with(positions, r, i, g, i, h, i, l, o, rg, hl);
    let ab = volumes_with(positions, r, i, g, i, k, o, l, o, rg, kl);
    let ba = volumes_with(positions, s, o, g, i, h, i, l, o, sg, hl);
    let bb = volumes_with(positions, s, o, g, i, k, o, l, o, sg, kl);
    EdgeVolumes { aa, ab, ba, bb }
}

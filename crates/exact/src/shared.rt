// The volumes of all pieces of a pair. The pieces have points in common, so each determinant of a pair is worked out once, and all of them from
// four sets of minors: 54 multiplications for a point and a triangle, 60 for two edges. A vertex is named by the offset of its start, and its
// end is three further on.

ghost use Rattle.meaning.specs.Limits.{coordinate_limit};
ghost use Rattle.exact.specs.Places.{Bounded};
ghost use Rattle.exact.specs.Shared.{Moving, PointVolumesAt, EdgeVolumesAt};

use super::{Volumes, in_turn, minors_at, volume_with};

// Of a moving point against the three pieces of a triangle.
#[derive(Clone, Copy, Debug, PartialEq, Eq)]
pub struct PointVolumes {
    pub first: Volumes,
    pub second: Volumes,
    pub third: Volumes,
}

// The point p and the corners a, b, c at the start are q and d, e, f at the end.
pub fn point_volumes(positions: &[i32], p: usize, a: usize, b: usize, c: usize) -> PointVolumes
    requires { Moving positions.now p × Moving positions.now a × Moving positions.now b
        × Moving positions.now c × Bounded coordinate_limit positions.now }
    ensures { PointVolumesAt positions.now p a b c result }
{
    let q = p + 3;
    let d = a + 3;
    let e = b + 3;
    let f = c + 3;
    let ab = minors_at(positions, a, p, b, p);
    let ad = minors_at(positions, a, p, d, q);
    let cf = minors_at(positions, c, p, f, q);
    let ef = minors_at(positions, e, q, f, q);
    let bcf = volume_with(positions, b, p, cf);
    let acf = volume_with(positions, a, p, cf);
    let abf = volume_with(positions, f, q, ab);
    let abc = volume_with(positions, c, p, ab);
    let bef = volume_with(positions, b, p, ef);
    let aef = volume_with(positions, a, p, ef);
    let abe = volume_with(positions, e, q, ab);
    let def = volume_with(positions, d, q, ef);
    let adf = volume_with(positions, f, q, ad);
    let ade = volume_with(positions, e, q, ad);
    let first = in_turn(bcf, acf, abf, abc);
    let second = in_turn(bef, aef, abf, abe);
    let third = in_turn(def, aef, adf, ade);
    PointVolumes {
        first,
        second,
        third,
    }
}

// Of two moving edges: piece A or B of the one against that of the other.
#[derive(Clone, Copy, Debug, PartialEq, Eq)]
pub struct EdgeVolumes {
    pub aa: Volumes,
    pub ab: Volumes,
    pub ba: Volumes,
    pub bb: Volumes,
}

// Starts are seen from i, the start of the first edge's lower end, and ends from o, the end of its higher one, which both its pieces hold. So
// seen, r and s are the two points that piece A alone and piece B alone hold; g, h and k, l are the other edge's ends at the start and at the end.
pub fn edge_volumes(positions: &[i32], i: usize, r: usize, g: usize, h: usize) -> EdgeVolumes
    requires { Moving positions.now i × Moving positions.now r × Moving positions.now g
        × Moving positions.now h × Bounded coordinate_limit positions.now }
    ensures { EdgeVolumesAt positions.now i r g h result }
{
    let o = r + 3;
    let s = i + 3;
    let k = g + 3;
    let l = h + 3;
    let rg = minors_at(positions, r, i, g, i);
    let sg = minors_at(positions, s, o, g, i);
    let hl = minors_at(positions, h, i, l, o);
    let kl = minors_at(positions, k, o, l, o);
    let ghl = volume_with(positions, g, i, hl);
    let rhl = volume_with(positions, r, i, hl);
    let rgl = volume_with(positions, l, o, rg);
    let rgh = volume_with(positions, h, i, rg);
    let gkl = volume_with(positions, g, i, kl);
    let rkl = volume_with(positions, r, i, kl);
    let rgk = volume_with(positions, k, o, rg);
    let shl = volume_with(positions, s, o, hl);
    let sgl = volume_with(positions, l, o, sg);
    let sgh = volume_with(positions, h, i, sg);
    let skl = volume_with(positions, s, o, kl);
    let sgk = volume_with(positions, k, o, sg);
    let aa = in_turn(ghl, rhl, rgl, rgh);
    let ab = in_turn(gkl, rkl, rgl, rgk);
    let ba = in_turn(ghl, shl, sgl, sgh);
    let bb = in_turn(gkl, skl, sgl, sgk);
    EdgeVolumes { aa, ab, ba, bb }
}

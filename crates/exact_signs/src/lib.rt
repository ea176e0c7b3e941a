// What the signs of exact volumes, and of their sums, say of a piece. But for exact_shares this is the one place that adds determinants, never more
// than two, and no sum leaves it as a number.

#![tactic(auto)]

pub mod ways; // ways.rt: numbers of one sign, for cloth at rest

ghost use Rattle.std.specs.Prelude.{◌≡◌, [], ◌∷◌, pos};
ghost use Rattle.std.specs.Int.Signed.{le_z};
ghost use Rattle.meaning.specs.Limits.{coordinate_limit};
ghost use Rattle.exact.specs.Places.{Bounded};
ghost use Rattle.exact.specs.Volumes.{four, Rooms, volumes_at, four_of, Holds, Small, SmallFour};
ghost use Rattle.exact_signs.specs.BySigns.{told, signs_of, point_verdict, edge_verdict, sum, keep, kept};
ghost use Rattle.exact_signs.specs.OneSign.{one_sign, alike};
ghost use Rattle.exact_signs.specs.Sums.{worth};

use exact::{Volumes, volumes_at};
use meaning::Verdict;

// A sum of determinants that need not fit 64 bits: the first number less the second. The two are compared, and neither is taken from the other.
#[derive(Clone, Copy, Debug, PartialEq, Eq)]
pub(crate) struct Sum {
    two: i64,
    against: i64,
}

const NOTHING: Sum = Sum { two: 0, against: 0 };

pub(crate) fn at_least_zero(s: Sum) -> bool
    ensures { result ≡ le_z (pos 0) (worth s) }
{
    s.two >= s.against
}

pub(crate) fn at_most_zero(s: Sum) -> bool
    ensures { result ≡ le_z (worth s) (pos 0) }
{
    s.two <= s.against
}

// What the signs of a piece's numbers say: whether it is hit, and whether it is singular; and of several pieces, whether one of them is. The
// pieces of a pair are put together by these two, since a branch on each piece's verdict cannot be foretold.
#[derive(Clone, Copy, Debug, PartialEq, Eq)]
pub struct Signs {
    pub hit: bool,
    pub flat: bool,
}

// The verdict that they tell.
pub fn verdict_of(s: Signs) -> Verdict
    ensures { result ≡ told s }
{
    if s.hit {
        return Verdict::Hit;
    }
    if s.flat {
        return Verdict::Degenerate;
    }
    Verdict::Miss
}

// A piece is hit where its numbers are of one sign, none negative or none positive. d is a sum of some of them, so it has their sign; whether it
// is 0 is asked. That a number is not positive is asked of minus it, so that four questions become one.
fn by_signs(d: Sum, a: i64, b: i64, c: i64, e: i64, f: Sum) -> Signs
    requires { SmallFour (four a b c e) }
    ensures { result ≡ signs_of (one_sign (worth d) (a ∷ b ∷ c ∷ e ∷ worth f ∷ [])) }
{
    let less_a = 0 - a;
    let less_b = 0 - b;
    let less_c = 0 - c;
    let less_e = 0 - e;
    let up = (a >= 0) & (b >= 0) & (c >= 0) & (e >= 0) & at_least_zero(f);
    let down = (less_a >= 0) & (less_b >= 0) & (less_c >= 0) & (less_e >= 0) & at_most_zero(f);
    let flat = at_most_zero(d) & at_least_zero(d);
    let hit = !flat & (up | down);
    Signs { hit, flat }
}

// Four determinants' sum. Two of them fit 64 bits together and three need not: two stand against minus the others.
fn sum_of(v: Volumes) -> Sum
    requires { Small v }
    ensures { worth result ≡ sum (four_of v) }
{
    let two = v.e0 + v.e1;
    let against = 0 - (v.e2 + v.e3);
    Sum { two, against }
}

fn keep_if(counts: bool, e: i64) -> i64
    ensures { result ≡ keep counts e }
{
    if counts { e } else { 0 }
}

// The volumes that count, and 0 for the others.
pub fn keep_where(v: Volumes, t0: bool, t1: bool, t2: bool, t3: bool) -> Volumes
    requires { Small v }
    ensures { Holds result (kept (four t0 t1 t2 t3) (four_of v)) }
{
    let e0 = keep_if(t0, v.e0);
    let e1 = keep_if(t1, v.e1);
    let e2 = keep_if(t2, v.e2);
    let e3 = keep_if(t3, v.e3);
    Volumes { e0, e1, e2, e3 }
}

// The sum of those that count.
pub(crate) fn sum_where(v: Volumes, t0: bool, t1: bool, t2: bool, t3: bool) -> Sum
    requires { Small v }
    ensures { worth result ≡ sum (kept (four t0 t1 t2 t3) (four_of v)) }
{
    sum_of(keep_where(v, t0, t1, t2, t3))
}

// The signs of a moving point's segment against a tetrahedron: the volumes are of the tetrahedron's four points.
pub fn point_signs(v: Volumes) -> Signs
    requires { Small v }
    ensures { result ≡ signs_of (point_verdict (four_of v)) }
{
    by_signs(sum_of(v), v.e0, v.e1, v.e2, v.e3, NOTHING)
}

// Both at the start, or both at the end.
fn alike(t: bool, u: bool) -> bool
    ensures { result ≡ alike t u }
{
    if t { u } else { !u }
}

// The signs of two moving edges' triangles: the first volume is of the point of the first edge that is no base, the others are
// of the second edge's points. The flags say which of the four points are at the end. The base at the first point's time has the sum of all at
// that time; that of the other base is a sum of the last three alone, and has their sign.
pub fn edge_signs(v: Volumes, t0: bool, t1: bool, t2: bool, t3: bool) -> Signs
    requires { Small v }
    ensures { result ≡ signs_of (edge_verdict (four t0 t1 t2 t3) (four_of v)) }
{
    let d = sum_where(v, false, true, true, true);
    let own = sum_where(v, true, alike(t0, t1), alike(t0, t2), alike(t0, t3));
    by_signs(d, 0 - v.e0, v.e1, v.e2, v.e3, own)
}

// The verdicts that these signs tell.
pub fn point_verdict(v: Volumes) -> Verdict
    requires { Small v }
    ensures { result ≡ point_verdict (four_of v) }
{
    verdict_of(point_signs(v))
}

// The same for two edges, whose signs depend on which of the four points are at the end.
pub fn edge_verdict(v: Volumes, t0: bool, t1: bool, t2: bool, t3: bool) -> Verdict
    requires { Small v }
    ensures { result ≡ edge_verdict (four t0 t1 t2 t3) (four_of v) }
{
    verdict_of(edge_signs(v, t0, t1, t2, t3))
}

// The verdict of a piece from the places: the four points' offsets, each with the offset it is seen from.
pub fn judge_point(
    positions: &[i32],
    o0: usize,
    b0: usize,
    o1: usize,
    b1: usize,
    o2: usize,
    b2: usize,
    o3: usize,
    b3: usize,
) -> Verdict
    requires { Rooms positions.now (four o0 o1 o2 o3) (four b0 b1 b2 b3)
        × Bounded coordinate_limit positions.now }
    ensures { result ≡ point_verdict (volumes_at positions.now (four o0 o1 o2 o3) (four b0 b1 b2 b3)) }
{
    point_verdict(volumes_at(positions, o0, b0, o1, b1, o2, b2, o3, b3))
}

// The same for a piece of two edges, each of whose four points also says whether it is at the end.
pub fn judge_edges(
    positions: &[i32],
    o0: usize,
    b0: usize,
    t0: bool,
    o1: usize,
    b1: usize,
    t1: bool,
    o2: usize,
    b2: usize,
    t2: bool,
    o3: usize,
    b3: usize,
    t3: bool,
) -> Verdict
    requires { Rooms positions.now (four o0 o1 o2 o3) (four b0 b1 b2 b3)
        × Bounded coordinate_limit positions.now }
    ensures { result ≡ edge_verdict (four t0 t1 t2 t3)
        (volumes_at positions.now (four o0 o1 o2 o3) (four b0 b1 b2 b3)) }
{
    edge_verdict(
        volumes_at(positions, o0, b0, o1, b1, o2, b2, o3, b3),
        t0,
        t1,
        t2,
        t3,
    )
}

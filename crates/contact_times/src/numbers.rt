// Time and shares of one piece, each a sum of some of its four volumes as a share of the whole.

ghost use Rattle.std.specs.Prelude.{◌≡◌, true, false, not};
ghost use Rattle.exact.specs.Volumes.{four, four_of, Small, Holds};
ghost use Rattle.exact_signs.specs.BySigns.{point_verdict, edge_verdict};
ghost use Rattle.exact_shares.specs.InRange.{InRange};
ghost use Rattle.contact_laws.specs.Numbers.{all_four, last_three, turned_in};
ghost use Rattle.contact_times.specs.Sums.{PartIfHit, TimeOr, point_time, edge_time, PointParts, PointNumbers, EdgeParts, EdgeNumbers};

use exact::Volumes;
use exact_shares::share;
use exact_signs::{edge_verdict, point_verdict};
use meaning::{ContactNumbers, Verdict};

// A number that is no time, and larger than any: 2^20 and one more. No Option, because so the earliest time is the smallest number, whether each piece
// is hit or not.
const NO_TIME: u32 = 1048577;

// The time of a point's piece, if that is hit. The piece is 0 where it is early, and 2 where it is late.
pub fn point_time(v: Volumes, early: bool, late: bool) -> u32
    requires { Small v × InRange (four_of v)
        × PartIfHit (point_verdict (four_of v)) (point_time early late) all_four (four_of v) }
    ensures { TimeOr (point_verdict (four_of v)) (point_time early late) all_four (four_of v) result }
{
    match point_verdict(v) {
        Verdict::Hit => share(v, false, late, !early, true, true, true, true, true),
        Verdict::Miss => NO_TIME,
        Verdict::Degenerate => NO_TIME,
    }
}

// The shares of the corners: each is the sum of its start and end weights.
pub fn point_numbers(v: Volumes, early: bool, late: bool, piece: usize, k: u32) -> ContactNumbers
    requires { Small v × InRange (four_of v) × PointParts early late (four_of v) }
    ensures { PointNumbers early late (four_of v) piece k result }
{
    let first = share(v, true, late, false, false, true, true, true, true);
    let second = share(v, false, !late, !early, false, true, true, true, true);
    let third = share(v, false, false, early, true, true, true, true, true);
    ContactNumbers {
        piece,
        k,
        first,
        second,
        third,
    }
}

// The volumes with the first one turned round: so it counts in piece A of the first edge.
pub fn turn_first(v: Volumes) -> Volumes
    requires { Small v }
    ensures { Holds result (turned_in 0 (four_of v)) }
{
    Volumes { e0: 0 - v.e0, ..v }
}

// The time of two edges' piece, if that is hit: v are its volumes, and w the same as they count. `b` says whether the first edge's piece is B, and
// `later` whether the second's is.
pub fn edge_time(v: Volumes, w: Volumes, b: bool, later: bool) -> u32
    requires { Small v × Small w × InRange (four_of w)
        × PartIfHit (edge_verdict (four b false later true) (four_of v)) (edge_time later) last_three (four_of w) }
    ensures { TimeOr (edge_verdict (four b false later true) (four_of v)) (edge_time later) last_three (four_of w) result }
{
    match edge_verdict(v, b, false, later, true) {
        Verdict::Hit => share(w, false, false, later, true, false, true, true, true),
        Verdict::Miss => NO_TIME,
        Verdict::Degenerate => NO_TIME,
    }
}

// The share of each edge at its higher end.
pub fn edge_numbers(w: Volumes, later: bool, piece: usize, k: u32) -> ContactNumbers
    requires { Small w × InRange (four_of w) × EdgeParts later (four_of w) }
    ensures { EdgeNumbers later (four_of w) piece k result }
{
    let first = share(w, true, false, later, true, false, true, true, true);
    let second = share(w, false, false, !later, true, false, true, true, true);
    ContactNumbers {
        piece,
        k,
        first,
        second,
        third: 0,
    }
}

// When and where a pair is hit: of its hit pieces the one with the smallest k, its time and its shares. Only a hit pair comes here.

#![tactic(auto)]

mod numbers; // numbers.rt: time and shares of one piece, from its four volumes
mod earliest; // earliest.rt: the smallest of three or four numbers, on a tie the first

ghost use Rattle.std.specs.Prelude.{◌≡◌, ℕ, min, max};
ghost use Rattle.meaning.specs.Limits.{contact_limit};
ghost use Rattle.meaning.specs.Scene.{Scene, corners_of, ends_of};
ghost use Rattle.meaning.specs.WholeContacts.{ContactNumbersAre};
ghost use Rattle.meaning.specs.declared.Kind.TheVariants.{PointTriangle, EdgeEdge};
ghost use Rattle.exact.specs.Places.{Bounded};
ghost use Rattle.three_words.specs.Ready.{PointReady, EdgesReady};
ghost use Rattle.contact_times.specs.Hits.{PointHits, EdgesHit};

use earliest::{of_four, of_three};
use exact::pieces::{edge_pieces, point_pieces};
use meaning::{ContactNumbers, Corners, Ends};
use numbers::{edge_numbers, edge_time, point_numbers, point_time, turn_first};

// Of a point and a triangle.
pub fn point_contact_numbers(positions: &[i32], p: usize, c: Corners) -> ContactNumbers
    requires { PointReady positions.now p c × Bounded contact_limit positions.now
        × PointHits positions.now p c }
    ensures { (s : Scene) (j : ℕ) → s.positions ≡ positions.now → corners_of s j ≡ c
        → ContactNumbersAre s PointTriangle p j result }
{
    let v = point_pieces(positions, 6 * p, 6 * c.low, 6 * c.middle, 6 * c.high);
    let first = v.first;
    let second = v.second;
    let third = v.third;
    let a = point_time(first, true, false);
    let b = point_time(second, false, false);
    let d = point_time(third, false, true);
    let piece = of_three(a, b, d);
    if piece == 0 {
        return point_numbers(first, true, false, 0, a);
    }
    if piece == 1 {
        return point_numbers(second, false, false, 1, b);
    }
    point_numbers(third, false, true, 2, d)
}

// Of two edges.
pub fn edges_contact_numbers(positions: &[i32], first: Ends, second: Ends) -> ContactNumbers
    requires { EdgesReady positions.now first second × Bounded contact_limit positions.now
        × EdgesHit positions.now first second }
    ensures { (s : Scene) (i j : ℕ) → s.positions ≡ positions.now → ends_of s (min i j) ≡ first
        → ends_of s (max i j) ≡ second → ContactNumbersAre s EdgeEdge i j result }
{
    let v = edge_pieces(
        positions,
        6 * first.low,
        6 * first.high,
        6 * second.low,
        6 * second.high,
    );
    let aa = v.aa;
    let ab = v.ab;
    let ba = v.ba;
    let bb = v.bb;
    let aa_turned = turn_first(aa);
    let ab_turned = turn_first(ab);
    let a = edge_time(aa, aa_turned, false, false);
    let b = edge_time(ab, ab_turned, false, true);
    let c = edge_time(ba, ba, true, false);
    let d = edge_time(bb, bb, true, true);
    let piece = of_four(a, b, c, d);
    if piece == 0 {
        return edge_numbers(aa_turned, false, 0, a);
    }
    if piece == 1 {
        return edge_numbers(ab_turned, true, 1, b);
    }
    if piece == 2 {
        return edge_numbers(ba, false, 2, c);
    }
    edge_numbers(bb, true, 3, d)
}

// The verdict of one piece. The first simplex of every piece holds a point at the start and one at the end that all pieces of its pair hold. The
// four other points are seen from these, a start from the one and an end from the other.

ghost use Rattle.std.specs.Prelude.{cond, ◌≡◌};
ghost use Rattle.meaning.specs.Pieces.{moving_point, moving_triangle, moving_edge};
ghost use Rattle.meaning.specs.Verdicts.{PieceIs};
ghost use Rattle.three_words.specs.Ready.{PointReady, EdgesReady};

use exact_signs::{judge_edges, judge_point};
use meaning::{Corners, Ends, Verdict};

// Point p against piece k of a triangle: the base is p.
pub fn point_piece(positions: &[i32], p: usize, c: Corners, k: usize) -> Verdict
    requires { PointReady positions.now p c }
    ensures { PieceIs (record {
      first = moving_point positions.now p;
      second = moving_triangle
          positions.now c k;
    }) result }
{
    let from = 6 * p;
    let to = from + 3;
    let low = 6 * c.low;
    let mid = 6 * c.middle;
    let high = 6 * c.high;
    if k == 0 {
        return judge_point(positions, low, from, mid, from, high, from, high + 3, to);
    }
    if k == 1 {
        return judge_point(positions, low, from, mid, from, mid + 3, to, high + 3, to);
    }
    judge_point(positions, low, from, low + 3, to, mid + 3, to, high + 3, to)
}

fn one_of(test: bool, yes: usize, no: usize) -> usize
    ensures { result ≡ cond test yes no }
{
    if test { yes } else { no }
}

// Piece A (0) or B (1) of the first edge against that of the second. Both pieces of the first hold its lower end at the start and its higher end
// at the end: these are the base. Between them piece A holds the higher end at the start, and piece B the lower end at the end.
pub fn edges_piece(positions: &[i32], e: Ends, i: usize, f: Ends, j: usize) -> Verdict
    requires { EdgesReady positions.now e f }
    ensures { PieceIs (record {
      first = moving_edge positions.now e i;
      second = moving_edge
          positions.now f j;
    }) result }
{
    let from = 6 * e.low;
    let high = 6 * e.high;
    let low = 6 * f.low;
    let to = high + 3;
    let last = 6 * f.high;
    let first = 0 < i;
    let second = 0 < j;
    let other = one_of(first, from + 3, high);
    let seen = one_of(first, to, from);
    let between = one_of(second, low + 3, last);
    let base = one_of(second, to, from);
    judge_edges(
        positions,
        other,
        seen,
        first,
        low,
        from,
        false,
        between,
        base,
        second,
        last + 3,
        to,
        true,
    )
}

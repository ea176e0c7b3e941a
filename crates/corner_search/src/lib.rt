// Cloth at rest: a degenerate piece is decided by leaving corners out.

#![tactic(auto)]

mod search; // search.rt: two steps that leave corners out and hand over to each other

ghost use Rattle.std.specs.Prelude.{◌≡◌};
ghost use Rattle.meaning.specs.Verdicts.{PieceIs};
ghost use Rattle.meaning.specs.Resting.{PieceSettled};
ghost use Rattle.corner_leaf.specs.Points.{piece_at, SixIn};
ghost use Rattle.corner_search.specs.Says.{Tells};
ghost use Rattle.corner_search.specs.Settles.{kept, every_left};
ghost use Rattle.corner_search.specs.Starts.{starts_among};

use corner_leaf::{SixPoints, across};
use corner_sides::parted;
use meaning::{Settled, Verdict};
use search::first;

// Hit and miss stay as they are.
fn keep(verdict: Verdict) -> Settled
    ensures { result ≡ kept verdict }
{
    match verdict {
        Verdict::Hit => Settled::Hit,
        Verdict::Miss => Settled::Miss,
        Verdict::Degenerate => Settled::Apart,
    }
}

// Are there weights for the points of a piece? The quick look tells most pieces that have none, and the search decides the others.
pub fn piece_touches(positions: &[i32], six: SixPoints) -> bool
    requires { SixIn positions.now six }
    ensures { Tells positions.now six every_left result }
{
    let at = six.at;
    let ends = six.ends;
    let split = six.first;
    let plane = across(positions, &at);
    if parted(positions, &at, &ends, split, plane) {
        return false;
    }
    let every = [true; 6];
    first(positions, &at, &ends, split, &every, false, plane)
}

// The word of a piece, from its verdict: only a degenerate one goes on, to touch if weights exist, else to apart.
pub fn settle_piece(positions: &[i32], six: SixPoints, verdict: Verdict) -> Settled
    requires { SixIn positions.now six × PieceIs (piece_at positions.now six) verdict }
    ensures { PieceSettled (piece_at positions.now six) result }
{
    let Verdict::Degenerate = verdict else {
        return keep(verdict);
    };
    if piece_touches(positions, six) {
        Settled::Touch
    } else {
        Settled::Apart
    }
}

// Which of six points are at the start.
fn starts(ends: &[bool; 6]) -> [bool; 6]
    ensures { result ≡ starts_among ends.now }
{
    [!ends[0], !ends[1], !ends[2], !ends[3], !ends[4], !ends[5]]
}

// Are there weights for the starts of a piece alone? Where all vertices of a pair rest, those of its first piece decide.
pub fn starts_touch(positions: &[i32], six: SixPoints) -> bool
    requires { SixIn positions.now six }
    ensures { Tells positions.now six (starts_among six.ends) result }
{
    let at = six.at;
    let ends = six.ends;
    let split = six.first;
    let left = starts(&ends);
    let plane = across(positions, &at);
    first(positions, &at, &ends, split, &left, false, plane)
}

// Pieces and pairs of a scene that was checked already: what the list and the report call for each pair, without checking again.

ghost use Rattle.scene_seams.specs.Alone.{tabled};
ghost use Rattle.std.specs.Prelude.{◌≡◌, false};
ghost use Rattle.meaning.specs.Scene.{Accepted};
ghost use Rattle.meaning.specs.Pieces.{piece_of};
ghost use Rattle.meaning.specs.Refusals.{not_there};
ghost use Rattle.meaning.specs.Verdicts.{PieceIs, PairIs};
ghost use Rattle.meaning.specs.Resting.{PieceSettled, PairSettled};
ghost use Rattle.meaning.specs.declared.Verdict.TheVariants.{Degenerate};
ghost use Rattle.four_words.specs.Words.{TouchSaid, plain_word};

use super::six::six_of;
use corner_rest::pair_rests;
use meaning::{Kind, Settled, Verdict};
use scene_parts::asked::piece_count;

// The word of a piece, from its verdict.
pub(crate) fn piece_word(
    positions: &[i32],
    edges: &[u16],
    triangles: &[u16],
    stands: &[u16],
    kind: Kind,
    i: usize,
    j: usize,
    k: usize,
    verdict: Verdict,
) -> Settled
    requires { Accepted (tabled positions.now edges.now triangles.now stands.now)
        × (not_there (tabled positions.now edges.now triangles.now stands.now) kind i j ≡ false)
        × PieceIs (piece_of (tabled positions.now edges.now triangles.now stands.now) kind i j k) verdict }
    ensures { PieceSettled (piece_of (tabled positions.now edges.now triangles.now stands.now) kind i j k) result }
{
    let six = six_of(positions, edges, triangles, stands, kind, i, j, k);
    corner_search::settle_piece(positions, six, verdict)
}

// Does some piece of a degenerate pair touch? No piece is hit there, so one that has weights touches, and its own verdict is not asked for.
fn some_piece_touches(
    positions: &[i32],
    edges: &[u16],
    triangles: &[u16],
    stands: &[u16],
    kind: Kind,
    i: usize,
    j: usize,
) -> bool
    requires { Accepted (tabled positions.now edges.now triangles.now stands.now)
        × (not_there (tabled positions.now edges.now triangles.now stands.now) kind i j ≡ false)
        × PairIs (tabled positions.now edges.now triangles.now stands.now) kind i j Degenerate }
    ensures { TouchSaid (tabled positions.now edges.now triangles.now stands.now) kind i j result }
{
    for k in 0..piece_count(kind) {
        let six = six_of(positions, edges, triangles, stands, kind, i, j, k);
        if corner_search::piece_touches(positions, six) {
            return true;
        }
    }
    false
}

// The same of a degenerate pair: where all its vertices rest, the four starts of its first piece decide.
fn touches(
    positions: &[i32],
    edges: &[u16],
    triangles: &[u16],
    stands: &[u16],
    kind: Kind,
    i: usize,
    j: usize,
) -> bool
    requires { Accepted (tabled positions.now edges.now triangles.now stands.now)
        × (not_there (tabled positions.now edges.now triangles.now stands.now) kind i j ≡ false)
        × PairIs (tabled positions.now edges.now triangles.now stands.now) kind i j Degenerate }
    ensures { TouchSaid (tabled positions.now edges.now triangles.now stands.now) kind i j result }
{
    if pair_rests(positions, edges, triangles, stands, kind, i, j) {
        let six = six_of(positions, edges, triangles, stands, kind, i, j, 0);
        corner_search::starts_touch(positions, six)
    } else {
        some_piece_touches(positions, edges, triangles, stands, kind, i, j)
    }
}

// The word of a degenerate pair.
fn singular_word(
    positions: &[i32],
    edges: &[u16],
    triangles: &[u16],
    stands: &[u16],
    kind: Kind,
    i: usize,
    j: usize,
) -> Settled
    requires { Accepted (tabled positions.now edges.now triangles.now stands.now)
        × (not_there (tabled positions.now edges.now triangles.now stands.now) kind i j ≡ false)
        × PairIs (tabled positions.now edges.now triangles.now stands.now) kind i j Degenerate }
    ensures { PairSettled (tabled positions.now edges.now triangles.now stands.now) kind i j result }
{
    if touches(positions, edges, triangles, stands, kind, i, j) {
        Settled::Touch
    } else {
        Settled::Apart
    }
}

// The word of a pair that is not degenerate.
pub fn plain_word(verdict: Verdict) -> Settled
    ensures { result ≡ plain_word verdict }
{
    match verdict {
        Verdict::Hit => Settled::Hit,
        Verdict::Miss => Settled::Miss,
        Verdict::Degenerate => Settled::Miss,
    }
}

// The word of a pair that was asked for alone, from its verdict: only a degenerate one goes on.
pub(crate) fn pair_word(
    positions: &[i32],
    edges: &[u16],
    triangles: &[u16],
    stands: &[u16],
    kind: Kind,
    i: usize,
    j: usize,
    verdict: Verdict,
) -> Settled
    requires { Accepted (tabled positions.now edges.now triangles.now stands.now)
        × (not_there (tabled positions.now edges.now triangles.now stands.now) kind i j ≡ false)
        × PairIs (tabled positions.now edges.now triangles.now stands.now) kind i j verdict }
    ensures { PairSettled (tabled positions.now edges.now triangles.now stands.now) kind i j result }
{
    let Verdict::Degenerate = verdict else {
        return plain_word(verdict);
    };
    singular_word(positions, edges, triangles, stands, kind, i, j)
}

// A pair: only a degenerate one goes on. Hit and miss are one way: which of them it is cannot be foretold, and a branch on it costs more than the
// choice of the word. What `pair_word` says stands here once more, since a function with two callers is taken into neither, and a pair of a
// list then takes a tenth more time.
pub fn pair(
    positions: &[i32],
    edges: &[u16],
    triangles: &[u16],
    stands: &[u16],
    kind: Kind,
    i: usize,
    j: usize,
) -> Settled
    requires { Accepted (tabled positions.now edges.now triangles.now stands.now)
        × (not_there (tabled positions.now edges.now triangles.now stands.now) kind i j ≡ false) }
    ensures { PairSettled (tabled positions.now edges.now triangles.now stands.now) kind i j result }
{
    let verdict = three_words::accepted::pair(positions, edges, triangles, stands, kind, i, j);
    let Verdict::Degenerate = verdict else {
        return plain_word(verdict);
    };
    singular_word(positions, edges, triangles, stands, kind, i, j)
}

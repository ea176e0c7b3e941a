// The word of one pair of a mesh, where its vertices stand in the mesh's positions: nothing is gathered or packed.

ghost use Rattle.scene_seams.specs.Alone.{tabled};
ghost use Rattle.std.specs.Prelude.{false, ◌≡◌};
ghost use Rattle.meaning.specs.Refusals.{not_there};
ghost use Rattle.meaning.specs.Resting.{PairSettled};
ghost use Rattle.meaning.specs.Verdicts.{PairIs};
ghost use Rattle.meaning.specs.declared.Verdict.TheVariants.{Degenerate};
ghost use Rattle.scene_checks.specs.Facts.{Sound};
ghost use Rattle.four_words.specs.Words.{TouchSaid};

use super::verdicts::{rests, six_of, verdict};
use four_words::accepted::plain_word;
use meaning::{Kind, Settled, Verdict};

// Does some piece of a degenerate pair touch? No piece is hit there, so one that has weights touches.
fn some_piece_touches(
    positions: &[i32],
    edges: &[u32],
    triangles: &[u32],
    stands: &[u32],
    kind: Kind,
    i: usize,
    j: usize,
) -> bool
    requires { Sound (tabled positions.now edges.now triangles.now stands.now)
        × (not_there (tabled positions.now edges.now triangles.now stands.now) kind i j ≡ false)
        × PairIs (tabled positions.now edges.now triangles.now stands.now) kind i j Degenerate }
    ensures { TouchSaid (tabled positions.now edges.now triangles.now stands.now) kind i j result }
{
    for k in 0..scene_parts::asked::piece_count(kind) {
        let six = six_of(positions, edges, triangles, stands, kind, i, j, k);
        if corner_search::piece_touches(positions, six) {
            return true;
        }
    }
    false
}

// The same: where all vertices of the pair rest, the four starts of its first piece decide.
fn touches(
    positions: &[i32],
    edges: &[u32],
    triangles: &[u32],
    stands: &[u32],
    kind: Kind,
    i: usize,
    j: usize,
) -> bool
    requires { Sound (tabled positions.now edges.now triangles.now stands.now)
        × (not_there (tabled positions.now edges.now triangles.now stands.now) kind i j ≡ false)
        × PairIs (tabled positions.now edges.now triangles.now stands.now) kind i j Degenerate }
    ensures { TouchSaid (tabled positions.now edges.now triangles.now stands.now) kind i j result }
{
    if rests(positions, edges, triangles, stands, kind, i, j) {
        let six = six_of(positions, edges, triangles, stands, kind, i, j, 0);
        corner_search::starts_touch(positions, six)
    } else {
        some_piece_touches(positions, edges, triangles, stands, kind, i, j)
    }
}

// The word of a degenerate pair.
fn singular_word(
    positions: &[i32],
    edges: &[u32],
    triangles: &[u32],
    stands: &[u32],
    kind: Kind,
    i: usize,
    j: usize,
) -> Settled
    requires { Sound (tabled positions.now edges.now triangles.now stands.now)
        × (not_there (tabled positions.now edges.now triangles.now stands.now) kind i j ≡ false)
        × PairIs (tabled positions.now edges.now triangles.now stands.now) kind i j Degenerate }
    ensures { PairSettled (tabled positions.now edges.now triangles.now stands.now) kind i j result }
{
    if touches(positions, edges, triangles, stands, kind, i, j) {
        Settled::Touch
    } else {
        Settled::Apart
    }
}

// Only a degenerate pair goes on. Hit and miss are one way: which of them it is cannot be foretold.
pub fn word(
    positions: &[i32],
    edges: &[u32],
    triangles: &[u32],
    stands: &[u32],
    kind: Kind,
    i: usize,
    j: usize,
) -> Settled
    requires { Sound (tabled positions.now edges.now triangles.now stands.now)
        × (not_there (tabled positions.now edges.now triangles.now stands.now) kind i j ≡ false) }
    ensures { PairSettled (tabled positions.now edges.now triangles.now stands.now) kind i j result }
{
    let found = verdict(positions, edges, triangles, stands, kind, i, j);
    let Verdict::Degenerate = found else {
        return plain_word(found);
    };
    singular_word(positions, edges, triangles, stands, kind, i, j)
}

// Leaving corners out: one step tries every corner of the first simplex, the other every corner of the second, and each hands over to the
// other. A step whose own corners are tried also hands over the points as they are, since the corner to leave out may be the other's.

ghost use Rattle.std.specs.Prelude.{false, cond, ◌≡◌, ◌<◌, set};
ghost use Rattle.corner_leaf.specs.Points.{points_of, SixIn};
ghost use Rattle.corner_leaf.specs.Answer.{leaf_of, Across};
ghost use Rattle.corner_search.specs.Says.{is_yes, Says};

use corner_leaf::{Leaf, ask};

fn is_yes(answer: Leaf) -> bool
    ensures { result ≡ is_yes answer }
{
    match answer {
        Leaf::Yes => true,
        Leaf::No => false,
        Leaf::Open => false,
    }
}

// Points that were handed over unchanged were open: they are not asked again.
fn ask_once(
    positions: &[i32],
    at: &[usize; 6],
    ends: &[bool; 6],
    split: usize,
    left: &[bool; 6],
    tried: bool,
    plane: usize,
) -> Leaf
    requires { SixIn positions.now (points_of at.now ends.now split) × Across positions.now at.now plane }
    ensures { result ≡ cond tried Leaf.Open
        (leaf_of positions.now (points_of at.now ends.now split) left.now) }
{
    if tried {
        Leaf::Open
    } else {
        ask(positions, at, ends, split, left, plane)
    }
}

fn without(left: &[bool; 6], i: usize) -> [bool; 6]
    requires { i < 6 }
    ensures { result ≡ set left.now i false }
{
    let mut less = *left;
    less[i] = false;
    less
}

// Are there weights for the points left? Tries the corners of the first simplex. The plane that all six lie in is looked for once, and handed on.
#[cycle(first_second)]
pub(crate) fn first(
    positions: &[i32],
    at: &[usize; 6],
    ends: &[bool; 6],
    split: usize,
    left: &[bool; 6],
    tried: bool,
    plane: usize,
) -> bool
    requires { SixIn positions.now (points_of at.now ends.now split) × Across positions.now at.now plane }
    ensures { Says positions.now (points_of at.now ends.now split) left.now 0 split tried
        result }
{
    let answer = ask_once(positions, at, ends, split, left, tried, plane);
    let Leaf::Open = answer else {
        return is_yes(answer);
    };
    for i in 0..split {
        if left[i] {
            let less = without(left, i);
            if second(positions, at, ends, split, &less, false, plane) {
                return true;
            }
        }
    }
    if tried {
        return false;
    }
    second(positions, at, ends, split, left, true, plane)
}

// The same, trying the corners of the second simplex.
#[cycle(first_second)]
pub(crate) fn second(
    positions: &[i32],
    at: &[usize; 6],
    ends: &[bool; 6],
    split: usize,
    left: &[bool; 6],
    tried: bool,
    plane: usize,
) -> bool
    requires { SixIn positions.now (points_of at.now ends.now split) × Across positions.now at.now plane }
    ensures { Says positions.now (points_of at.now ends.now split) left.now split 6 tried
        result }
{
    let answer = ask_once(positions, at, ends, split, left, tried, plane);
    let Leaf::Open = answer else {
        return is_yes(answer);
    };
    for i in split..6 {
        if left[i] {
            let less = without(left, i);
            if first(positions, at, ends, split, &less, false, plane) {
                return true;
            }
        }
    }
    if tried {
        return false;
    }
    first(positions, at, ends, split, left, true, plane)
}

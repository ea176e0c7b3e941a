// A guess whether cloth falls, by which near rows are found in one of two ways: it says what is faster, and no answer depends on it.

#![tactic(auto)]

ghost use Rattle.std.specs.Prelude.{◌+◌, ◌*◌, ◌≤◌, ◌<◌, length};

use scene_parts::vertex_count;

// How many places are looked at, and how many of them have moved off where cloth falls.
const SAMPLES: usize = 128;

const FEW: usize = 16;

// Where the larger of two numbers stands, and where the smaller does.
fn larger_of(positions: &[i32], i: usize, j: usize) -> usize
    requires { (i < length positions.now) × (j < length positions.now) }
    ensures { result < length positions.now }
{
    if positions[i] < positions[j] { j } else { i }
}

fn smaller_of(positions: &[i32], i: usize, j: usize) -> usize
    requires { (i < length positions.now) × (j < length positions.now) }
    ensures { result < length positions.now }
{
    if positions[i] < positions[j] { i } else { j }
}

// Where the largest and the smallest of eight vertices on an axis at one time stand, from the place of the first one's number on.
fn largest_of(positions: &[i32], at: usize) -> usize
    requires { at + 42 < length positions.now }
    ensures { result < length positions.now }
{
    let a = larger_of(positions, at, at + 6);
    let b = larger_of(positions, at + 12, at + 18);
    let c = larger_of(positions, at + 24, at + 30);
    let d = larger_of(positions, at + 36, at + 42);
    let e = larger_of(positions, a, b);
    larger_of(positions, e, larger_of(positions, c, d))
}

fn smallest_of(positions: &[i32], at: usize) -> usize
    requires { at + 42 < length positions.now }
    ensures { result < length positions.now }
{
    let a = smaller_of(positions, at, at + 6);
    let b = smaller_of(positions, at + 12, at + 18);
    let c = smaller_of(positions, at + 24, at + 30);
    let d = smaller_of(positions, at + 36, at + 42);
    let e = smaller_of(positions, a, b);
    smaller_of(positions, e, smaller_of(positions, c, d))
}

fn is_below(positions: &[i32], i: usize, j: usize) -> bool
    requires { (i < length positions.now) × (j < length positions.now) }
{
    positions[i] < positions[j]
}

// Whether eight vertices that stand one behind the other have left the span where they were on an axis: all are above it at the end, or all below.
fn left_at(positions: &[i32], at: usize) -> bool
    requires { at + 45 < length positions.now }
{
    let high = largest_of(positions, at);
    let low = smallest_of(positions, at);
    let high_end = largest_of(positions, at + 3);
    let low_end = smallest_of(positions, at + 3);
    is_below(positions, high, low_end) | is_below(positions, high_end, low)
}

// Whether they have moved further than they are apart on an axis.
fn moves_off(positions: &[i32], v: usize) -> bool
    requires { 6 * v + 47 < length positions.now }
{
    let at = 6 * v;
    left_at(positions, at) | left_at(positions, at + 1) | left_at(positions, at + 2)
}

fn one_more(found: usize, more: bool) -> usize
    requires { found < 9223372036854775808 }
    ensures { result ≤ found + 1 }
{
    if more { found + 1 } else { found }
}

// Whether cloth falls: of some hundred places taken evenly an eighth has moved off. Near rows of cloth that hardly moves are found as fast by swept boxes,
// and what stands ready then is less. It is a guess at what is faster, and changes no answer.
pub fn falls(positions: &[i32]) -> bool {
    let vertices = vertex_count(positions);
    if vertices < SAMPLES {
        return false;
    }
    let last = vertices - 7;
    let stride = vertices / SAMPLES;
    let mut found = 0usize;
    for v in (0..last).step_by(stride) {
        found = one_more(found, moves_off(positions, v));
    }
    FEW <= found
}

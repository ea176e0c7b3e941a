// What the corners left say by themselves: weights, no weights, or nothing yet.

#![tactic(auto)]

ghost use Rattle.std.specs.Prelude.{cond, ◌&&◌, ◌≡◌, ◌+◌, ◌≤◌, ◌<◌, min, max, length};
ghost use Rattle.whole.specs.Cramer.{each, volumes};
ghost use Rattle.exact.specs.Volumes.{four, four_of, Small};
ghost use Rattle.exact.specs.Arrows.{Points};
ghost use Rattle.corner_laws.specs.Others.{skip, others_of};
ghost use Rattle.corner_laws.specs.Filled.{slot, next};
ghost use Rattle.corner_leaf.specs.Points.{is_left, points_of, Placed, SixIn};
ghost use Rattle.corner_leaf.specs.Answer.{same_bool, base_in, seen_in, judged_in, turn_of, alike_at, level_along, Across, one_turn, leaf_of};

use exact::Volumes;
use exact::arrows::{Arrow, arrow_along, arrow_between, arrow_volumes};
use exact_signs::ways::{one_way, zero_but};

// The six points of a piece, those of the first simplex first: their places in the positions, which are at the end, and how many
// are the first simplex's. The functions below take these one by one, and the lists by reference: a struct by value is copied at each call.
#[derive(Clone, Copy, Debug, PartialEq, Eq)]
pub struct SixPoints {
    pub at: [usize; 6],
    pub ends: [bool; 6],
    pub first: usize,
}

#[derive(Clone, Copy, Debug, PartialEq, Eq)]
pub enum Leaf {
    Yes,
    No,
    Open,
}

// The k-th of the places other than i.
fn skip(i: usize, k: usize) -> usize
    requires { k < 6 }
    ensures { result ≡ skip i k }
{
    if k < i { k } else { k + 1 }
}

// The k-th of the places other than s and e.
pub fn other(s: usize, e: usize, k: usize) -> usize
    requires { k < 4 }
    ensures { (result ≡ skip (max s e) (skip (min s e) k)) × (result < 6) }
{
    if s < e {
        skip(e, skip(s, k))
    } else {
        skip(s, skip(e, k))
    }
}

// The axis for the slot after this one.
fn next(left: bool, axis: usize) -> usize
    requires { axis < 8 }
    ensures { (result ≡ next left axis) × (result ≤ axis + 1) }
{
    if left { axis } else { axis + 1 }
}

// Is a corner left, and at the time that is asked for?
fn stands(left: bool, at_end: bool, end: bool) -> bool
    ensures { result ≡ left && same_bool at_end end }
{
    if at_end { left & end } else { left & !end }
}

// The first corner left at the start, or at the end; where none is left, one of that time.
fn base(ends: &[bool; 6], left: &[bool; 6], end: bool) -> usize
    ensures { result ≡ base_in ends.now left.now end }
{
    for i in 0..6 {
        if stands(left[i], ends[i], end) {
            return i;
        }
    }
    if end { 5 } else { 0 }
}

// The base of a corner's time.
pub fn base_of(end: bool, s: usize, e: usize) -> usize
    requires { (s < 6) × (e < 6) }
    ensures { (result ≡ cond end e s) × (result < 6) }
{
    if end { e } else { s }
}

// What stands in the slot of corner i: its place seen from the base of its time, or an axis where it is left out.
fn arrow(
    positions: &[i32],
    at: &[usize; 6],
    ends: &[bool; 6],
    left: &[bool; 6],
    s: usize,
    e: usize,
    i: usize,
    axis: usize,
) -> Arrow
    requires { Placed positions.now at.now × (s < 6) × (e < 6) × (i < 6) }
    ensures { Points result (slot (is_left left.now i)
        (seen_in positions.now at.now ends.now s e i) axis) }
{
    if left[i] {
        let from = base_of(ends[i], s, e);
        arrow_between(positions, at[i], at[from])
    } else {
        arrow_along(axis)
    }
}

// The corners other than the bases, and what the volumes say of them.
fn judge(
    ends: &[bool; 6],
    first: usize,
    left: &[bool; 6],
    s: usize,
    e: usize,
    q0: usize,
    q1: usize,
    q2: usize,
    q3: usize,
    v: Volumes,
) -> Leaf
    requires { Small v × (q0 < 6) × (q1 < 6) × (q2 < 6) × (q3 < 6) }
    ensures { result ≡ judged_in ends.now first left.now s e (four q0 q1 q2 q3) (four_of v) }
{
    if zero_but(v, false, false, false, false) {
        return Leaf::Open;
    }
    let out = zero_but(v, left[q0], left[q1], left[q2], left[q3]);
    let signs = one_way(
        v,
        ends[q0],
        ends[q1],
        ends[q2],
        ends[q3],
        q0 < first,
        q1 < first,
        q2 < first,
        q3 < first,
        s < first,
        e < first,
    );
    if out & signs { Leaf::Yes } else { Leaf::No }
}

// One turn of the axes.
fn turn(
    positions: &[i32],
    at: &[usize; 6],
    ends: &[bool; 6],
    first: usize,
    left: &[bool; 6],
    s: usize,
    e: usize,
    f: usize,
) -> Leaf
    requires { Placed positions.now at.now × (s < 6) × (e < 6) × (f < 6) }
    ensures { result ≡ turn_of positions.now (points_of at.now ends.now first) left.now s e f }
{
    let q0 = other(s, e, 0);
    let q1 = other(s, e, 1);
    let q2 = other(s, e, 2);
    let q3 = other(s, e, 3);
    let f1 = next(left[q0], f);
    let f2 = next(left[q1], f1);
    let f3 = next(left[q2], f2);
    let a0 = arrow(positions, at, ends, left, s, e, q0, f);
    let a1 = arrow(positions, at, ends, left, s, e, q1, f1);
    let a2 = arrow(positions, at, ends, left, s, e, q2, f2);
    let a3 = arrow(positions, at, ends, left, s, e, q3, f3);
    let v = arrow_volumes(a0, a1, a2, a3);
    judge(ends, first, left, s, e, q0, q1, q2, q3, v)
}

fn alike(positions: &[i32], i: usize, j: usize) -> bool
    requires { (i < length positions.now) × (j < length positions.now) }
    ensures { result ≡ alike_at positions.now i j }
{
    (positions[i] <= positions[j]) & (positions[j] <= positions[i])
}

// Have all six points the same coordinate along an axis?
fn level(positions: &[i32], at: &[usize; 6], axis: usize) -> bool
    requires { Placed positions.now at.now × (axis < 3) }
    ensures { result ≡ level_along positions.now at.now axis }
{
    let first = at[0] + axis;
    alike(positions, first, at[1] + axis)
        & alike(positions, first, at[2] + axis)
        & alike(positions, first, at[3] + axis)
        & alike(positions, first, at[4] + axis)
        & alike(positions, first, at[5] + axis)
}

// The axis that all six points lie across, or 3 where there is none: the turn to begin with. Cloth that lies flat across an axis has a volume only with
// that axis, so the turn that puts it into a slot decides.
pub fn across(positions: &[i32], at: &[usize; 6]) -> usize
    requires { Placed positions.now at.now }
    ensures { Across positions.now at.now result }
{
    if level(positions, at, 2) {
        return 2;
    }
    if level(positions, at, 1) {
        return 1;
    }
    if level(positions, at, 0) { 0 } else { 3 }
}

// Is the first turn all three? It is where none of the four others is left out, for then no axis stands in a slot; and where one is and all six
// points lie across an axis, for with another axis in its slot there is no volume.
fn one_turn(left: &[bool; 6], s: usize, e: usize, plane: usize) -> bool
    ensures { result ≡ one_turn (each (is_left left.now) (others_of s e)) plane }
{
    let a = left[other(s, e, 0)];
    let b = left[other(s, e, 1)];
    let c = left[other(s, e, 2)];
    let d = left[other(s, e, 3)];
    (a & b & c & d) | (((a & b & (c | d)) | ((a | b) & c & d)) & (plane < 3))
}

// Weights, no weights, or nothing yet: the first of three turns that says more than nothing, beginning with that of the plane. Where the points lie
// across an axis, the turn behind it says least, and comes last.
pub fn ask(
    positions: &[i32],
    at: &[usize; 6],
    ends: &[bool; 6],
    first: usize,
    left: &[bool; 6],
    plane: usize,
) -> Leaf
    requires { SixIn positions.now (points_of at.now ends.now first) × Across positions.now at.now plane }
    ensures { result ≡ leaf_of positions.now (points_of at.now ends.now first) left.now }
{
    let s = base(ends, left, false);
    let e = base(ends, left, true);
    let answer = turn(positions, at, ends, first, left, s, e, plane);
    let Leaf::Open = answer else {
        return answer;
    };
    if one_turn(left, s, e, plane) {
        return answer;
    }
    let second = turn(positions, at, ends, first, left, s, e, plane + 2);
    let Leaf::Open = second else {
        return second;
    };
    turn(positions, at, ends, first, left, s, e, plane + 1)
}

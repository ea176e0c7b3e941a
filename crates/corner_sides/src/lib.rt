// A quick look at a piece, which tells most of those that are apart without a search. Four of its corners are seen from two others, and all that
// is asked is on which side of one another their shadows along an axis lie. It says yes only where there are no weights; where it says no, the search decides.

#![tactic(auto)]

ghost use Rattle.std.specs.Prelude.{◌≡◌, true, false, ◌<◌};
ghost use Rattle.whole.specs.Sizes.{Is};
ghost use Rattle.meaning.specs.Equations.{Touches};
ghost use Rattle.exact.specs.Minors.{minor_limit};
ghost use Rattle.exact.specs.Arrows.{vector_of, ShortArrow};
ghost use Rattle.corner_leaf.specs.Points.{points_of, piece_at, Placed, SixIn};
ghost use Rattle.corner_sides.specs.Pivot.{cross_of, all_beyond};
ghost use Rattle.corner_sides.specs.Shadows.{Shades, ShortShadow, sides_in, CrossesOf};
ghost use Rattle.corner_sides.specs.Parted.{facing_in, parted_from};

use corner_leaf::{base_of, other};
use exact::arrows::{Arrow, arrow_between};

// A vector without its coordinate along an axis.
#[derive(Clone, Copy, Debug, PartialEq, Eq)]
pub struct Shadow {
    pub x: i64,
    pub y: i64,
}

// Which side of one shadow another lies on, for each two of four: above 0 to the left, below 0 to the right.
#[derive(Clone, Copy, Debug, PartialEq, Eq)]
pub struct Crosses {
    pub ab: i64,
    pub ac: i64,
    pub ad: i64,
    pub bc: i64,
    pub bd: i64,
    pub cd: i64,
}

fn shade(a: Arrow, axis: usize) -> Shadow
    requires { ShortArrow a }
    ensures { Shades result axis (vector_of a) }
{
    if axis == 0 {
        return Shadow { x: a.y, y: a.z };
    }
    if axis == 1 {
        Shadow { x: a.z, y: a.x }
    } else {
        Shadow { x: a.x, y: a.y }
    }
}

// The shadow of a corner seen from the base of its time; of one of the second simplex backwards, so that its weight counts as the others do.
fn shadow_of(
    positions: &[i32],
    at: &[usize; 6],
    ends: &[bool; 6],
    first: usize,
    s: usize,
    e: usize,
    i: usize,
    axis: usize,
) -> Shadow
    requires { Placed positions.now at.now × (s < 6) × (e < 6) × (i < 6) }
    ensures { Shades result axis (facing_in positions.now at.now ends.now first s e i) }
{
    let from = base_of(ends[i], s, e);
    if i < first {
        shade(arrow_between(positions, at[i], at[from]), axis)
    } else {
        shade(arrow_between(positions, at[from], at[i]), axis)
    }
}

fn cross(a: Shadow, b: Shadow) -> i64
    requires { ShortShadow a × ShortShadow b }
    ensures { Is minor_limit result (cross_of a.x a.y b.x b.y) }
{
    a.x * b.y - a.y * b.x
}

fn sides_of(a: Shadow, b: Shadow, c: Shadow, d: Shadow) -> Crosses
    requires { ShortShadow a × ShortShadow b × ShortShadow c × ShortShadow d }
    ensures { CrossesOf result a b c d }
{
    let ab = cross(a, b);
    let ac = cross(a, c);
    let ad = cross(a, d);
    let bc = cross(b, c);
    let bd = cross(b, d);
    let cd = cross(c, d);
    Crosses {
        ab,
        ac,
        ad,
        bc,
        bd,
        cd,
    }
}

// Are, from one of the four, the three others all strictly to its left?
fn to_the_left(c: Crosses) -> bool
    ensures { result ≡ all_beyond true (sides_in c) }
{
    ((c.ab > 0) & (c.ac > 0) & (c.ad > 0))
        | ((c.ab < 0) & (c.bc > 0) & (c.bd > 0))
        | ((c.ac < 0) & (c.bc < 0) & (c.cd > 0))
        | ((c.ad < 0) & (c.bd < 0) & (c.cd < 0))
}

// The same, to its right: where two of the four are the outermost to the left, one may be that to the right.
fn to_the_right(c: Crosses) -> bool
    ensures { result ≡ all_beyond false (sides_in c) }
{
    ((c.ab < 0) & (c.ac < 0) & (c.ad < 0))
        | ((c.ab > 0) & (c.bc < 0) & (c.bd < 0))
        | ((c.ac > 0) & (c.bc > 0) & (c.cd < 0))
        | ((c.ad > 0) & (c.bd > 0) & (c.cd > 0))
}

// Do the four corners other than s and e, seen from these, lie on one side?
fn parted_from(
    positions: &[i32],
    at: &[usize; 6],
    ends: &[bool; 6],
    first: usize,
    s: usize,
    e: usize,
    axis: usize,
) -> bool
    requires { Placed positions.now at.now × (s < 6) × (e < 6) }
    ensures { result ≡ parted_from positions.now (points_of at.now ends.now first) s e axis }
{
    let q0 = other(s, e, 0);
    let q1 = other(s, e, 1);
    let q2 = other(s, e, 2);
    let q3 = other(s, e, 3);
    let a = shadow_of(positions, at, ends, first, s, e, q0, axis);
    let b = shadow_of(positions, at, ends, first, s, e, q1, axis);
    let c = shadow_of(positions, at, ends, first, s, e, q2, axis);
    let d = shadow_of(positions, at, ends, first, s, e, q3, axis);
    let sides = sides_of(a, b, c, d);
    (to_the_left(sides) | to_the_right(sides)) & !ends[s] & ends[e]
}

// The last corner of the first simplex: in every piece it is at the end, and the one behind it, the second simplex's first, at the start.
fn last_of_first(first: usize) -> usize
    ensures { result < 3 }
{
    if first < 3 { 1 } else { 2 }
}

// Is the piece known to have no weights? Its corners are seen from the first and the last of its first simplex, then from those of its second.
pub fn parted(
    positions: &[i32],
    at: &[usize; 6],
    ends: &[bool; 6],
    first: usize,
    axis: usize,
) -> bool
    requires { SixIn positions.now (points_of at.now ends.now first) }
    ensures { result ≡ true → ¬ Touches (piece_at positions.now (points_of at.now ends.now first)) }
{
    let last = last_of_first(first);
    if parted_from(positions, at, ends, first, 0, last, axis) {
        return true;
    }
    parted_from(positions, at, ends, first, last + 1, 5, axis)
}

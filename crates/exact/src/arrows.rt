// Volumes of vectors that need not all be differences of places. Each coordinate of a vector is worked out once.

ghost use Rattle.std.specs.Prelude.{◌<◌};
ghost use Rattle.whole.specs.Vector.{axis};
ghost use Rattle.whole.specs.Sizes.{Is};
ghost use Rattle.meaning.specs.Limits.{coordinate_limit};
ghost use Rattle.exact.specs.Limits.{difference_limit};
ghost use Rattle.exact.specs.Places.{Bounded, Room, apart, along};
ghost use Rattle.exact.specs.Minors.{MinorsOf, SmallMinors, VolumeWith};
ghost use Rattle.exact.specs.Volumes.{four, Holds};
ghost use Rattle.exact.specs.Arrows.{vector_of, Points, ShortArrow, arrow_volumes};

use super::{Minors, Volumes, difference, in_turn};

#[derive(Clone, Copy, Debug, PartialEq, Eq)]
pub struct Arrow {
    pub x: i64,
    pub y: i64,
    pub z: i64,
}

// The place at one offset, seen from the place at another.
pub fn arrow_between(positions: &[i32], place: usize, base: usize) -> Arrow
    requires { Room positions.now place base × Bounded coordinate_limit positions.now }
    ensures { Points result (apart positions.now place base) }
{
    let x = difference(positions, place, base, 0);
    let y = difference(positions, place, base, 1);
    let z = difference(positions, place, base, 2);
    Arrow { x, y, z }
}

// One coordinate of a unit axis.
fn unit(k: usize, number: usize) -> i64
    requires { number < 3 }
    ensures { Is difference_limit result (along number (axis k)) }
{
    if k % 3 == number { 1 } else { 0 }
}

// The unit along x, y, z for 0, 1, 2, and so round.
pub fn arrow_along(k: usize) -> Arrow
    ensures { Points result (axis k) }
{
    let x = unit(k, 0);
    let y = unit(k, 1);
    let z = unit(k, 2);
    Arrow { x, y, z }
}

fn arrow_minors(a: Arrow, b: Arrow) -> Minors
    requires { ShortArrow a × ShortArrow b }
    ensures { MinorsOf result (vector_of a) (vector_of b) }
{
    let yz = a.y * b.z - a.z * b.y;
    let xz = a.x * b.z - a.z * b.x;
    let xy = a.x * b.y - a.y * b.x;
    Minors { yz, xz, xy }
}

fn arrow_with(a: Arrow, m: Minors) -> i64
    requires { ShortArrow a × SmallMinors m }
    ensures { VolumeWith m (vector_of a) result }
{
    a.x * m.yz - a.y * m.xz + a.z * m.xy
}

// The four signed volumes of four vectors: each of the other three, the signs in turn.
pub fn arrow_volumes(a: Arrow, b: Arrow, c: Arrow, d: Arrow) -> Volumes
    requires { ShortArrow a × ShortArrow b × ShortArrow c × ShortArrow d }
    ensures { Holds result (arrow_volumes (four a b c d)) }
{
    let former = arrow_minors(a, b);
    let e2 = arrow_with(d, former);
    let e3 = arrow_with(c, former);
    let latter = arrow_minors(c, d);
    let e0 = arrow_with(b, latter);
    let e1 = arrow_with(a, latter);
    in_turn(e0, e1, e2, e3)
}

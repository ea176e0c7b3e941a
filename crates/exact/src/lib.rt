// Exact volumes of places in the positions, in 64 bits. Nothing is added up here but the products of one determinant.

#![tactic(auto)]

pub mod arrows; // arrows.rt: volumes with a unit axis among the vectors
pub mod shared; // shared.rt: the volumes of all pieces of a pair, each determinant once
pub mod pieces; // pieces.rt: the same, piece by piece

ghost use Rattle.std.specs.Prelude.{◌<◌};
ghost use Rattle.whole.specs.Vector.{volume};
ghost use Rattle.whole.specs.Sizes.{Is};
ghost use Rattle.meaning.specs.Limits.{coordinate_limit};
ghost use Rattle.exact.specs.Limits.{difference_limit, determinant_limit};
ghost use Rattle.exact.specs.Places.{Bounded, Room, apart, along};
ghost use Rattle.exact.specs.Minors.{minor_limit, minor_of, MinorsOf, SmallMinors, VolumeWith};
ghost use Rattle.exact.specs.Volumes.{four, Rooms, volumes_at, Holds, SmallFour, in_turn};

// One coordinate of the difference of two places.
fn difference(positions: &[i32], at: usize, base: usize, axis: usize) -> i64
    requires { Room positions.now at base × (axis < 3) × Bounded coordinate_limit positions.now }
    ensures { Is difference_limit result (along axis (apart positions.now at base)) }
{
    positions[at + axis] as i64 - positions[base + axis] as i64
}

// The three minors of two differences of places: a determinant of three is its other difference's coordinates with these.
#[derive(Clone, Copy, Debug, PartialEq, Eq)]
pub struct Minors {
    pub yz: i64,
    pub xz: i64,
    pub xy: i64,
}

// One minor: two products, and their differences are formed here.
fn minor(
    positions: &[i32],
    a: usize,
    base_a: usize,
    b: usize,
    base_b: usize,
    i: usize,
    j: usize,
) -> i64
    requires { Room positions.now a base_a × Room positions.now b base_b × (i < 3) × (j < 3)
        × Bounded coordinate_limit positions.now }
    ensures { Is minor_limit result (minor_of i j (apart positions.now a base_a)
        (apart positions.now b base_b)) }
{
    difference(positions, a, base_a, i) * difference(positions, b, base_b, j)
        - difference(positions, a, base_a, j) * difference(positions, b, base_b, i)
}

fn minors_at(positions: &[i32], a: usize, base_a: usize, b: usize, base_b: usize) -> Minors
    requires { Room positions.now a base_a × Room positions.now b base_b
        × Bounded coordinate_limit positions.now }
    ensures { MinorsOf result (apart positions.now a base_a) (apart positions.now b base_b) }
{
    let yz = minor(positions, a, base_a, b, base_b, 1, 2);
    let xz = minor(positions, a, base_a, b, base_b, 0, 2);
    let xy = minor(positions, a, base_a, b, base_b, 0, 1);
    Minors { yz, xz, xy }
}

// The determinant of a difference of places and of the two that the minors are of: three products, the difference formed as they need it.
fn volume_with(positions: &[i32], a: usize, base_a: usize, m: Minors) -> i64
    requires { Room positions.now a base_a × SmallMinors m × Bounded coordinate_limit positions.now }
    ensures { VolumeWith m (apart positions.now a base_a) result }
{
    difference(positions, a, base_a, 0) * m.yz - difference(positions, a, base_a, 1) * m.xz
        + difference(positions, a, base_a, 2) * m.xy
}

// The volume of three differences of places, each named by the offsets of its place and of the place it is seen from.
pub fn volume_at(
    positions: &[i32],
    a: usize,
    base_a: usize,
    b: usize,
    base_b: usize,
    c: usize,
    base_c: usize,
) -> i64
    requires { Room positions.now a base_a × Room positions.now b base_b × Room positions.now c base_c
        × Bounded coordinate_limit positions.now }
    ensures { Is determinant_limit result
        (volume (apart positions.now a base_a) (apart positions.now b base_b)
        (apart positions.now c base_c)) }
{
    volume_with(
        positions,
        a,
        base_a,
        minors_at(positions, b, base_b, c, base_c),
    )
}

// The four signed volumes of four differences of places: each of the other three, the signs in turn.
#[derive(Clone, Copy, Debug, PartialEq, Eq)]
pub struct Volumes {
    pub e0: i64,
    pub e1: i64,
    pub e2: i64,
    pub e3: i64,
}

// Four volumes, their signs in turn.
fn in_turn(e0: i64, e1: i64, e2: i64, e3: i64) -> Volumes
    requires { SmallFour (four e0 e1 e2 e3) }
    ensures { Holds result (in_turn (four e0 e1 e2 e3)) }
{
    let less1 = 0 - e1;
    let less3 = 0 - e3;
    Volumes {
        e0,
        e1: less1,
        e2,
        e3: less3,
    }
}

// The four volumes where the minors of the first two differences and of the last two are there.
fn volumes_with(
    positions: &[i32],
    o0: usize,
    b0: usize,
    o1: usize,
    b1: usize,
    o2: usize,
    b2: usize,
    o3: usize,
    b3: usize,
    former: Minors,
    latter: Minors,
) -> Volumes
    requires rooms { Rooms positions.now (four o0 o1 o2 o3) (four b0 b1 b2 b3)
        × Bounded coordinate_limit positions.now }
    requires minors_of { MinorsOf former (apart positions.now o0 b0) (apart positions.now o1 b1)
        × MinorsOf latter (apart positions.now o2 b2) (apart positions.now o3 b3) }
    ensures { Holds result (volumes_at positions.now (four o0 o1 o2 o3) (four b0 b1 b2 b3)) }
{
    let e0 = volume_with(positions, o1, b1, latter);
    let e1 = volume_with(positions, o0, b0, latter);
    let e2 = volume_with(positions, o3, b3, former);
    let e3 = volume_with(positions, o2, b2, former);
    in_turn(e0, e1, e2, e3)
}

// The four volumes of a piece from the places of its points and of what each is seen from. Two share their minors each, which are worked out once.
pub fn volumes_at(
    positions: &[i32],
    o0: usize,
    b0: usize,
    o1: usize,
    b1: usize,
    o2: usize,
    b2: usize,
    o3: usize,
    b3: usize,
) -> Volumes
    requires { Rooms positions.now (four o0 o1 o2 o3) (four b0 b1 b2 b3)
        × Bounded coordinate_limit positions.now }
    ensures { Holds result (volumes_at positions.now (four o0 o1 o2 o3) (four b0 b1 b2 b3)) }
{
    let former = minors_at(positions, o0, b0, o1, b1);
    let latter = minors_at(positions, o2, b2, o3, b3);
    volumes_with(positions, o0, b0, o1, b1, o2, b2, o3, b3, former, latter)
}

// The sums of a claim: whether six weights balance over the six points of a piece. No determinant is worked out and no verdict asked.

#![tactic(auto)]

ghost use Rattle.std.specs.Prelude.{◌≡◌, ◌+◌, ◌≤◌, ◌<◌, pos, ◌*ℤ◌, length};
ghost use Rattle.whole.specs.Sizes.{Is};
ghost use Rattle.meaning.specs.Limits.{coordinate_limit};
ghost use Rattle.meaning.specs.Claims.{weight_at, AnswerIs};
ghost use Rattle.exact.specs.Places.{Bounded};
ghost use Rattle.corner_leaf.specs.Points.{event_at, piece_at, SixIn};
ghost use Rattle.claim_sums.specs.Sums.{share_limit, side_limit, heavy, Light, reading, point_at, side, agrees, passes};

use corner_leaf::SixPoints;
use meaning::WEIGHT_LIMIT;

// Rows of the equations: 0, 1, 2 are x, y, z.
const TIME: usize = 3;

const ONE: usize = 4;

// Is a weight above its limit?
fn heavy(weights: &[u64; 6]) -> bool
    ensures { result ≡ heavy weights.now }
{
    (WEIGHT_LIMIT < weights[0])
        | (WEIGHT_LIMIT < weights[1])
        | (WEIGHT_LIMIT < weights[2])
        | (WEIGHT_LIMIT < weights[3])
        | (WEIGHT_LIMIT < weights[4])
        | (WEIGHT_LIMIT < weights[5])
}

// What a point has in a row: a coordinate, its time, or one.
fn reading(positions: &[i32], at: usize, end: bool, row: usize) -> i64
    requires { (at + 3 ≤ length positions.now) × Bounded coordinate_limit positions.now }
    ensures { Is coordinate_limit result (reading row (point_at positions.now at end)) }
{
    if row < TIME {
        return positions[at + row] as i64;
    }
    if (row < ONE) & !end { 0 } else { 1 }
}

// What point i adds to its side: its weight times what it has in the row.
fn share(positions: &[i32], six: SixPoints, weights: &[u64; 6], i: usize, row: usize) -> i64
    requires { SixIn positions.now six × Light weights.now × (i < 6) }
    ensures { Is share_limit result (pos (weight_at weights.now i) *ℤ reading row
        (event_at positions.now six i)) }
{
    weights[i] as i64 * reading(positions, six.at[i], six.ends[i], row)
}

// The weighted sum over the points from one place to another.
fn side(
    positions: &[i32],
    six: SixPoints,
    weights: &[u64; 6],
    from: usize,
    to: usize,
    row: usize,
) -> i64
    requires { SixIn positions.now six × Light weights.now × (from ≤ to) × (to ≤ 6) }
    ensures { Is side_limit result (side positions.now six weights.now from to row) }
{
    let mut sum: i64 = 0;
    for i in from..to {
        sum += share(positions, six, weights, i, row);
    }
    sum
}

// Have the two simplices the same sum in a row?
fn agree(positions: &[i32], six: SixPoints, weights: &[u64; 6], row: usize) -> bool
    requires { SixIn positions.now six × Light weights.now }
    ensures { result ≡ agrees positions.now six weights.now row }
{
    let first = side(positions, six, weights, 0, six.first, row);
    let second = side(positions, six, weights, six.first, 6, row);
    (first <= second) & (second <= first)
}

// Have the two simplices the same sum above 0, and do x, y, z and time agree?
fn balanced(positions: &[i32], six: SixPoints, weights: &[u64; 6]) -> bool
    requires { SixIn positions.now six × Light weights.now }
    ensures { result ≡ passes positions.now six weights.now }
{
    let x = agree(positions, six, weights, 0);
    let y = agree(positions, six, weights, 1);
    let z = agree(positions, six, weights, 2);
    let times = agree(positions, six, weights, TIME);
    let sums = agree(positions, six, weights, ONE);
    let some = 0 < side(positions, six, weights, 0, six.first, ONE);
    x & y & z & times & sums & some
}

// Is the claim borne out by its weights: none above its limit, and they balance?
pub fn borne_out(positions: &[i32], six: SixPoints, weights: &[u64; 6]) -> bool
    requires { SixIn positions.now six }
    ensures { AnswerIs (piece_at positions.now six) weights.now result }
{
    if heavy(weights) {
        return false;
    }
    balanced(positions, six, weights)
}

// Whether a stored span is another than the one that it should be: the low stands at a place, and the high three places behind it. A number is
// held against the one that it should be, which two tests choose; where both are at hand the compiler makes a choice of it and no branch.

ghost use Rattle.std.specs.Prelude.{◌+◌, ◌<◌, ◌≡◌, pos, length, get_or};
ghost use Rattle.std.specs.Int.Signed.{le_z};
ghost use Rattle.meaning.specs.Scene.{differ};
ghost use Rattle.meaning.specs.Boxes.{smaller, larger, joint};
ghost use Rattle.meaning.specs.StoredBoxes.{span_at, other_span};
ghost use Rattle.list_boxes.specs.Kept.{numbers_between};

fn at_most(list: &[i32], i: usize, j: usize) -> bool
    requires { (i < length list.now) × (j < length list.now) }
    ensures { result ≡ le_z (get_or list.now i (pos 0)) (get_or list.now j (pos 0)) }
{
    list[i] <= list[j]
}

fn unequal(list: &[i32], k: usize, from: &[i32], i: usize) -> bool
    requires { (k < length list.now) × (i < length from.now) }
    ensures { result ≡ differ (get_or list.now k (pos 0)) (get_or from.now i (pos 0)) }
{
    (list[k] < from[i]) | (from[i] < list[k])
}

// Whether a number of one list is not the smaller, and not the larger, of two numbers of another.
fn other_low(list: &[i32], k: usize, from: &[i32], i: usize, j: usize) -> bool
    requires { (k < length list.now) × (i < length from.now) × (j < length from.now) }
    ensures { result ≡ differ (get_or list.now k (pos 0))
        (smaller (get_or from.now i (pos 0)) (get_or from.now j (pos 0))) }
{
    if at_most(from, i, j) {
        unequal(list, k, from, i)
    } else {
        unequal(list, k, from, j)
    }
}

fn other_high(list: &[i32], at: usize, from: &[i32], i: usize, j: usize) -> bool
    requires { (at < length list.now) × (i < length from.now) × (j < length from.now) }
    ensures { result ≡ differ (get_or list.now at (pos 0))
        (larger (get_or from.now i (pos 0)) (get_or from.now j (pos 0))) }
{
    if at_most(from, i, j) {
        unequal(list, at, from, j)
    } else {
        unequal(list, at, from, i)
    }
}

// Whether number k is not the smallest, and not the largest, of three.
fn other_lowest(list: &[i32], k: usize, i: usize, j: usize, l: usize) -> bool
    requires { (k < length list.now) × (i < length list.now) × (j < length list.now)
        × (l < length list.now) }
    ensures { result ≡ differ (get_or list.now k (pos 0))
        (smaller (smaller (get_or list.now i (pos 0)) (get_or list.now j (pos 0)))
        (get_or list.now l (pos 0))) }
{
    if at_most(list, i, j) {
        other_low(list, k, list, i, l)
    } else {
        other_low(list, k, list, j, l)
    }
}

fn other_highest(list: &[i32], k: usize, i: usize, j: usize, l: usize) -> bool
    requires { (k < length list.now) × (i < length list.now) × (j < length list.now)
        × (l < length list.now) }
    ensures { result ≡ differ (get_or list.now k (pos 0))
        (larger (larger (get_or list.now i (pos 0)) (get_or list.now j (pos 0)))
        (get_or list.now l (pos 0))) }
{
    if at_most(list, i, j) {
        other_high(list, k, list, j, l)
    } else {
        other_high(list, k, list, i, l)
    }
}

// Than that of a vertex, whose start and end values stand three places apart too.
pub(crate) fn other_vertex(positions: &[i32], at: usize, boxes: &[i32]) -> bool
    requires { (at + 3 < length positions.now) × (at + 3 < length boxes.now) }
    ensures { result ≡ other_span (span_at boxes.now at) (numbers_between positions.now at) }
{
    let low = other_low(boxes, at, positions, at, at + 3);
    let high = other_high(boxes, at + 3, positions, at, at + 3);
    low | high
}

// Than the joint span of those at i and j.
pub(crate) fn other_joint(list: &[i32], i: usize, j: usize, at: usize) -> bool
    requires { (i + 3 < length list.now) × (j + 3 < length list.now) × (at + 3 < length list.now) }
    ensures { result ≡ other_span (span_at list.now at)
        (joint (span_at list.now i) (span_at list.now j)) }
{
    let low = other_low(list, at, list, i, j);
    let high = other_high(list, at + 3, list, i + 3, j + 3);
    low | high
}

// Than the joint span of those at i, j and l.
pub(crate) fn other_triple(list: &[i32], i: usize, j: usize, l: usize, at: usize) -> bool
    requires { (i + 3 < length list.now) × (j + 3 < length list.now) × (l + 3 < length list.now)
        × (at + 3 < length list.now) }
    ensures { result ≡ other_span (span_at list.now at)
        (joint (joint (span_at list.now i) (span_at list.now j)) (span_at list.now l)) }
{
    let low = other_lowest(list, at, i, j, l);
    let high = other_highest(list, at + 3, i + 3, j + 3, l + 3);
    low | high
}

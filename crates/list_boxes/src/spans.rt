// How far a box reaches on one axis: the low stands at a place of a list, and the high three places behind it.

ghost use Rattle.std.specs.Prelude.{◌+◌, ◌<◌, ◌≡◌, pos, length, get_or};
ghost use Rattle.std.specs.Int.Signed.{le_z};
ghost use Rattle.meaning.specs.Boxes.{smaller, larger, joint, meet};
ghost use Rattle.meaning.specs.StoredBoxes.{span_at};
ghost use Rattle.list_boxes.specs.Kept.{numbers_between};
ghost use Rattle.list_boxes.specs.Storing.{with_span};

fn at_most(list: &[i32], i: usize, j: usize) -> bool
    requires { (i < length list.now) × (j < length list.now) }
    ensures { result ≡ le_z (get_or list.now i (pos 0)) (get_or list.now j (pos 0)) }
{
    list[i] <= list[j]
}

fn smaller_at(list: &[i32], i: usize, j: usize) -> i32
    requires { (i < length list.now) × (j < length list.now) }
    ensures { result ≡ smaller (get_or list.now i (pos 0)) (get_or list.now j (pos 0)) }
{
    list[i].min(list[j])
}

fn larger_at(list: &[i32], i: usize, j: usize) -> i32
    requires { (i < length list.now) × (j < length list.now) }
    ensures { result ≡ larger (get_or list.now i (pos 0)) (get_or list.now j (pos 0)) }
{
    list[i].max(list[j])
}

// Whether two spans meet, equal ends included.
pub fn spans_meet(list: &[i32], i: usize, j: usize) -> bool
    requires { (i + 3 < length list.now) × (j + 3 < length list.now) }
    ensures { result ≡ meet (span_at list.now i) (span_at list.now j) }
{
    (list[i] <= list[j + 3]) & (list[j] <= list[i + 3])
}

// From the smaller to the larger of a start and an end value, which stand three places apart as a span's numbers do.
pub fn store_between(positions: &[i32], at: usize, list: &mut [i32])
    requires { (at + 3 < length positions.now) × (at + 3 < length list.old) }
    ensures { list.new ≡ with_span list.old at (numbers_between positions.now at) }
{
    let low = smaller_at(positions, at, at + 3);
    let high = larger_at(positions, at, at + 3);
    list[at] = low;
    list[at + 3] = high;
}

// The joint span of two, stored at a third place.
pub fn store_joint(list: &mut [i32], i: usize, j: usize, to: usize)
    requires { (i + 3 < length list.old) × (j + 3 < length list.old) × (to + 3 < length list.old) }
    ensures { list.new ≡ with_span list.old to
        (joint (span_at list.old i) (span_at list.old j)) }
{
    let low = smaller_at(list, i, j);
    let high = larger_at(list, i + 3, j + 3);
    list[to] = low;
    list[to + 3] = high;
}

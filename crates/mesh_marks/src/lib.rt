// Boxes of some places, spread, so that one box is compared with many of them at once: each of their six numbers stands in a row of its own. Those that it
// meets are marked, and the places that are marked are taken.

#![tactic(auto)]

ghost use Rattle.std.specs.Prelude.{◌+◌, ◌*◌, ◌≤◌, ◌<◌, ◌≡◌, pos, length, get_or, set};
ghost use Rattle.meaning.specs.Boxes.{meet};
ghost use Rattle.meaning.specs.StoredBoxes.{span_at, box_at, BoxesStand};
ghost use Rattle.list_boxes.specs.Kept.{meet_boxes};
ghost use Rattle.mesh_walk.specs.PutDown.{PutDown};
ghost use Rattle.mesh_marks.specs.Marked.{spread_span, spread_box, with_spread, spread_as, Spread, PlacesIn, Marked};
ghost use Rattle.mesh_marks.specs.Taking.{marked_places};

use mesh_seams::wide;
use mesh_walk::sixteens::put_over;

// The numbers of one box.
const BOX_NUMBERS: usize = 6;

// One number.
fn copy_number(boxes: &[i32], i: usize, own: &mut [i32], n: usize)
    requires { (i < length boxes.now) × (n < length own.old) }
    ensures { own.new ≡ set own.old n (get_or boxes.now i (pos 0)) }
{
    own[n] = boxes[i];
}

// So many boxes from `first` on, in front of another list.
pub fn copy_boxes(boxes: &[i32], first: usize, count: usize, own: &mut [i32])
    requires { (6 * (first + count) ≤ length boxes.now) × (6 * count ≤ length own.old) }
    ensures { BoxesStand own.new 0 count (λ r. box_at boxes.now (first + r)) }
{
    for n in 0..6 * count {
        copy_number(boxes, 6 * first + n, own, n);
    }
}

// The low and the high of a box on one axis, each in its own row of `six`.
fn spread_span(boxes: &[i32], i: usize, six: &mut [i32], q: usize)
    requires { (i + 3 < length boxes.now) × (q + 768 < length six.old) }
    ensures { six.new ≡ with_spread six.old q (span_at boxes.now i) }
{
    six[q] = boxes[i];
    six[q + 768] = boxes[i + 3];
}

// One box, spread over the six rows.
pub fn spread_box(boxes: &[i32], k: usize, six: &mut [i32], q: usize)
    requires { (6 * k + 5 < length boxes.now) × (q < 256) × (1536 ≤ length six.old) }
    ensures { six.new ≡ spread_as six.old q (box_at boxes.now k) }
{
    let i = 6 * k;
    spread_span(boxes, i, six, q);
    spread_span(boxes, i + 1, six, q + 256);
    spread_span(boxes, i + 2, six, q + 512);
}

// The boxes of the places that were found, so that numbers that are compared with the same one stand side by side.
pub fn spread_boxes(boxes: &[i32], base: usize, places: &[u32], count: usize, six: &mut [i32])
    requires { PlacesIn boxes.now base places.now count × (count ≤ 256) × (1536 ≤ length six.old) }
    ensures { Spread boxes.now base places.now count six.new }
{
    for q in 0..count {
        spread_box(boxes, base + wide(places[q]), six, q);
    }
}

// Whether a box meets a spread one on one axis, equal ends included.
fn meets_span(own: &[i32], i: usize, six: &[i32], q: usize) -> bool
    requires { (i + 3 < length own.now) × (q + 768 < length six.now) }
    ensures { result ≡ meet (span_at own.now i) (spread_span six.now q) }
{
    (own[i] <= six[q + 768]) & (six[q] <= own[i + 3])
}

// Whether a box meets a spread one. All three axes are asked, with no branch, so that many boxes are asked at once.
fn meets_spread(own: &[i32], six: &[i32], q: usize) -> bool
    requires { (6 ≤ length own.now) × (q < 256) × (1536 ≤ length six.now) }
    ensures { result ≡ meet_boxes (box_at own.now 0) (spread_box six.now q) }
{
    let x = meets_span(own, 0, six, q);
    let y = meets_span(own, 1, six, q + 256);
    let z = meets_span(own, 2, six, q + 512);
    x & y & z
}

// Of the spread boxes those are marked that a box of a list meets. It is copied first: nothing that is stored in the loop changes it.
pub fn mark_met(boxes: &[i32], row: usize, six: &[i32], count: usize, marks: &mut [bool])
    requires { (6 * row + 5 < length boxes.now) × (count ≤ 256) × (1536 ≤ length six.now)
        × (256 ≤ length marks.old) }
    ensures { Marked (box_at boxes.now row) six.now count marks.new }
{
    let mut own = [0i32; BOX_NUMBERS];
    copy_boxes(boxes, row, 1, &mut own);
    for q in 0..count {
        marks[q] = meets_spread(&own, six, q);
    }
}

// Of some places those that are marked and not below another, in order, in front of a list; what stands behind them is of no account. Which are marked can't
// be foretold: so each is put down, and counted only if it is taken.
pub fn take_marked(
    places: &[u32],
    count: usize,
    marks: &[bool],
    from: usize,
    seconds: &mut [u32],
) -> usize
    requires { (count ≤ length places.now) × (count ≤ length marks.now) × (count ≤ 4294967296) }
    ensures { PutDown seconds.old 0 (marked_places places.now marks.now from count) seconds.new result }
{
    let mut n = 0usize;
    for c in 0..count {
        let j = places[c];
        n = put_over(seconds, n, j, (from <= wide(j)) & marks[c]);
    }
    n
}

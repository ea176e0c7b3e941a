// Whole boxes of the list, named by their number: stored, and tested against each other.

ghost use Rattle.std.specs.Prelude.{◌+◌, ◌*◌, ◌<◌, ◌≡◌, length};
ghost use Rattle.meaning.specs.Scene.{vertex_count};
ghost use Rattle.scene_seams.specs.Alone.{only_positions};
ghost use Rattle.meaning.specs.StoredBoxes.{box_at, vertex_box};
ghost use Rattle.list_boxes.specs.Kept.{joint_box, meet_boxes};
ghost use Rattle.list_boxes.specs.Storing.{BoxStored};

use super::spans::{spans_meet, store_between, store_joint};

// Whether two boxes meet on all three axes. The first axis on which they are apart decides.
pub fn boxes_meet(boxes: &[i32], a: usize, b: usize) -> bool
    requires { (6 * a + 5 < length boxes.now) × (6 * b + 5 < length boxes.now) }
    ensures { result ≡ meet_boxes (box_at boxes.now a) (box_at boxes.now b) }
{
    let i = 6 * a;
    let j = 6 * b;
    if !spans_meet(boxes, i, j) {
        return false;
    }
    if !spans_meet(boxes, i + 1, j + 1) {
        return false;
    }
    spans_meet(boxes, i + 2, j + 2)
}

// The box of vertex v, stored under its number.
pub fn store_vertex(positions: &[i32], v: usize, boxes: &mut [i32])
    requires { (v < vertex_count (only_positions positions.now)) × (6 * v + 5 < length boxes.old) }
    ensures { BoxStored boxes.old v (vertex_box (only_positions positions.now) v) boxes.new }
{
    let at = 6 * v;
    store_between(positions, at, boxes);
    store_between(positions, at + 1, boxes);
    store_between(positions, at + 2, boxes);
}

// The joint box of two, stored under a third number.
pub fn store_joint_box(boxes: &mut [i32], a: usize, b: usize, to: usize)
    requires { (6 * a + 5 < length boxes.old) × (6 * b + 5 < length boxes.old)
        × (6 * to + 5 < length boxes.old) }
    ensures { BoxStored boxes.old to (joint_box (box_at boxes.old a) (box_at boxes.old b))
        boxes.new }
{
    let i = 6 * a;
    let j = 6 * b;
    let at = 6 * to;
    store_joint(boxes, i, j, at);
    store_joint(boxes, i + 1, j + 1, at + 1);
    store_joint(boxes, i + 2, j + 2, at + 2);
}

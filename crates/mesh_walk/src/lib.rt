// The walk of one row over a tree of boxes, with no stack and no recursion: at a node that is missed it goes to the next one, and up while
// that is the first of its 16; at one that is met it goes down, or has found a part. So each node is tested once at most.

#![tactic(auto)]

pub mod sixteens; // sixteens.rt: the walk of a box that goes over the 16 parts of a node with no branch

ghost use Rattle.std.specs.Prelude.{◌+◌, ◌*◌, ◌≤◌, ◌<◌, ◌≡◌, length};
ghost use Rattle.meaning.specs.Boxes.{meet};
ghost use Rattle.meaning.specs.StoredBoxes.{span_at, box_at};
ghost use Rattle.list_boxes.specs.Kept.{meet_boxes};
ghost use Rattle.list_entries.specs.UpTo.{kept};
ghost use Rattle.mesh_tree.specs.Levels.{nodes_at, first_under};
ghost use Rattle.mesh_walk.specs.Places.{Stepped};
ghost use Rattle.mesh_walk.specs.Steps.{Tree, box_meets};

// Where a walk stands, and whether its last step found a part.
#[derive(Clone, Copy, Debug, PartialEq, Eq)]
pub struct Spot {
    pub level: usize,
    pub node: usize,
    pub found: bool,
}

// Up from a node while it is the first of its 16: the first part under it stays the same.
pub fn climb(level: usize, node: usize, top: usize, found: bool) -> Spot
    requires { (level ≤ top) × (top ≤ 16) }
    ensures { (result.level ≤ top) × (first_under result.level result.node ≡ first_under level node) × (result.found ≡ found) }
{
    let mut v = level;
    let mut r = node;
    // A `while`: how far up it goes is told by the node, not by a count.
    while (v < top) & (r % 16 == 0) {
        v += 1;
        r /= 16;
    }
    Spot {
        level: v,
        node: r,
        found,
    }
}

// Whether spans of two lists meet, equal ends included.
fn spans_meet(own: &[i32], i: usize, boxes: &[i32], j: usize) -> bool
    requires { (i + 3 < length own.now) × (j + 3 < length boxes.now) }
    ensures { result ≡ meet (span_at own.now i) (span_at boxes.now j) }
{
    (own[i] <= boxes[j + 3]) & (boxes[j] <= own[i + 3])
}

// Whether boxes of two lists meet on all three axes. The first axis on which they are apart decides.
pub fn boxes_meet(own: &[i32], a: usize, boxes: &[i32], b: usize) -> bool
    requires { (6 * a + 5 < length own.now) × (6 * b + 5 < length boxes.now) }
    ensures { result ≡ meet_boxes (box_at own.now a) (box_at boxes.now b) }
{
    let i = 6 * a;
    let j = 6 * b;
    if !spans_meet(own, i, boxes, j) {
        return false;
    }
    if !spans_meet(own, i + 1, boxes, j + 1) {
        return false;
    }
    spans_meet(own, i + 2, boxes, j + 2)
}

// One node is tested by the box `row` of a list, which may be the tree's own.
pub fn step(
    own: &[i32],
    row: usize,
    boxes: &[i32],
    levels: &[usize],
    parts: usize,
    top: usize,
    level: usize,
    node: usize,
) -> Spot
    requires { Tree boxes.now levels.now parts top × (6 * row + 5 < length own.now) × (level ≤ top)
        × (node < nodes_at parts level) }
    ensures { Stepped (box_meets (box_at own.now row) boxes.now levels.now) parts top level node
        result.level result.node result.found }
{
    let place = levels[2 * level] + node;
    if boxes_meet(own, row, boxes, place) {
        if 0 < level {
            Spot {
                level: level - 1,
                node: 16 * node,
                found: false,
            }
        } else {
            climb(level, node + 1, top, true)
        }
    } else {
        climb(level, node + 1, top, false)
    }
}

// A place is put down where there is room for it; else the list stays as it is.
pub fn put_place(list: &mut [u32], k: usize, place: usize)
    requires { place < 4294967296 }
    ensures { list.new ≡ kept (length list.old) k place list.old }
{
    if k < list.len() {
        list[k] = place as u32;
    }
}

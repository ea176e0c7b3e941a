// The walk of one box over a tree, for whoever seeks all places that it meets and nothing else: the 16 parts of a node are tested one behind the other
// with no branch. Which of them are met can't be foretold, and a branch that is foretold wrongly takes longer than the test: so each place is put down, and
// counted only if it is met, and the next is put down over one that is not.

ghost use Rattle.std.specs.Prelude.{◌+◌, ◌*◌, ◌≤◌, ◌<◌, ◌≡◌, length, get_or};
ghost use Rattle.sequences.specs.Chosen.{one, chosen};
ghost use Rattle.meaning.specs.StoredBoxes.{box_at};
ghost use Rattle.list_boxes.specs.Kept.{meet_boxes};
ghost use Rattle.list_entries.specs.UpTo.{kept};
ghost use Rattle.mesh_tree.specs.Levels.{nodes_at};
ghost use Rattle.mesh_walk.specs.Places.{places_from};
ghost use Rattle.mesh_walk.specs.Steps.{Tree, box_meets};
ghost use Rattle.mesh_walk.specs.PutDown.{PutDown};
ghost use Rattle.mesh_walk.specs.Passing.{NodePassed};

use super::{climb, spans_meet};

// Where a walk stands, and how many places it has put down.
#[derive(Clone, Copy, Debug, PartialEq, Eq)]
pub struct Went {
    pub level: usize,
    pub node: usize,
    pub count: usize,
}

// Whether boxes of two lists meet, equal ends included. All three axes are asked, with no branch.
pub fn boxes_meet_flat(own: &[i32], a: usize, boxes: &[i32], b: usize) -> bool
    requires { (6 * a + 5 < length own.now) × (6 * b + 5 < length boxes.now) }
    ensures { result ≡ meet_boxes (box_at own.now a) (box_at boxes.now b) }
{
    let i = 6 * a;
    let j = 6 * b;
    let x = spans_meet(own, i, boxes, j);
    let y = spans_meet(own, i + 1, boxes, j + 1);
    let z = spans_meet(own, i + 2, boxes, j + 2);
    x & y & z
}

fn store_below(list: &mut [u32], k: usize, place: u32)
    ensures { list.new ≡ kept (length list.old) k place list.old }
{
    if k < list.len() {
        list[k] = place;
    }
}

// A place is put down, where there is room for it, and counted if it stays.
pub fn put_over(list: &mut [u32], k: usize, place: u32, stays: bool) -> usize
    requires { k < 18446744073709551615 }
    ensures { PutDown list.old k (one stays place) list.new result }
{
    store_below(list, k, place);
    if stays { k + 1 } else { k }
}

// Where the 16 parts of a node end among which a part stands; the last node may have fewer.
fn sixteen_end(j: usize, parts: usize) -> usize
    requires { (j < parts) × (parts ≤ 1152921504606846976) }
    ensures { (j < result) × (result ≤ parts) }
{
    (16 * (j / 16) + 16).min(parts)
}

// Of some parts those that a box meets are put down.
fn put_met(
    own: &[i32],
    row: usize,
    boxes: &[i32],
    levels: &[usize],
    first: usize,
    end: usize,
    list: &mut [u32],
    k: usize,
) -> usize
    requires row_in_bounds { (6 * row + 5 < length own.now) × (6 * (get_or levels.now 0 0 + end) ≤ length boxes.now) × (0 < length levels.now) }
    requires first_le_end { (first ≤ end) × (end ≤ 4294967296) × (k ≤ 4294967296) }
    ensures { PutDown list.old k
        (chosen (box_meets (box_at own.now row) boxes.now levels.now) (λ j. j) first end) list.new result }
{
    let base = levels[0];
    let mut n = k;
    for j in first..end {
        let met = boxes_meet_flat(own, row, boxes, base + j);
        n = put_over(list, n, j as u32, met);
    }
    n
}

// One node is passed: above the parts it is tested, and gone into if it is met; at the parts all that are left of its 16 are.
fn pass_node(
    own: &[i32],
    row: usize,
    boxes: &[i32],
    levels: &[usize],
    parts: usize,
    top: usize,
    level: usize,
    node: usize,
    list: &mut [u32],
    k: usize,
) -> Went
    requires tree { Tree boxes.now levels.now parts top × (6 * row + 5 < length own.now) × (level ≤ top)
        × (node < nodes_at parts level) × (parts ≤ 4294967296) }
    requires k_bound { k ≤ 4294967296 }
    ensures { NodePassed (box_meets (box_at own.now row) boxes.now levels.now) parts top level node
        result.level result.node list.old k list.new result.count }
{
    if level == 0 {
        let end = sixteen_end(node, parts);
        let count = put_met(own, row, boxes, levels, node, end, list, k);
        let behind = climb(0, end, top, false);
        return Went {
            level: behind.level,
            node: behind.node,
            count,
        };
    }
    if boxes_meet_flat(own, row, boxes, levels[2 * level] + node) {
        return Went {
            level: level - 1,
            node: 16 * node,
            count: k,
        };
    }
    let next = climb(level, node + 1, top, false);
    Went {
        level: next.level,
        node: next.node,
        count: k,
    }
}

// The places, from `from` on, of the parts whose boxes meet the box `row` of a list, in order, in front of a lent list while it has room, all counted; what
// stands behind them is of no account.
pub fn find_met(
    own: &[i32],
    row: usize,
    boxes: &[i32],
    levels: &[usize],
    parts: usize,
    top: usize,
    from: usize,
    list: &mut [u32],
) -> usize
    requires { Tree boxes.now levels.now parts top × (6 * row + 5 < length own.now) × (parts ≤ 4294967296) }
    ensures { PutDown list.old 0
        (places_from (box_meets (box_at own.now row) boxes.now levels.now) parts from) list.new result }
{
    let start = climb(0, from, top, false);
    let mut level = start.level;
    let mut node = start.node;
    let mut k = 0usize;
    // A `while`: up and down a tree the next node comes from what the step met.
    while node < levels[2 * level + 1] {
        let next = pass_node(own, row, boxes, levels, parts, top, level, node, list, k);
        level = next.level;
        node = next.node;
        k = next.count;
    }
    k
}

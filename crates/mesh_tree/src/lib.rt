// A tree over parts by place: runs of 16, runs of 16 of these, and so on, each with its joint box. Who misses a node's box misses every part
// under it. The boxes of all nodes stand in a lent list, level behind level.

#![tactic(auto)]

ghost use Rattle.std.specs.Prelude.{◌+◌, ◌*◌, ◌≤◌, ◌<◌, ◌≡◌, length};
ghost use Rattle.mesh_tree.specs.Grown.{with_level, Grown};
ghost use Rattle.meaning.specs.MeshRows.{tree_room};

use list_runs::{fill_runs, runs_of};

// The nodes of the top level: over so few there is no other.
const TOP_NODES: usize = 1;

// Where a level begins, and how many nodes it has.
fn put_level(levels: &mut [usize], level: usize, place: usize, count: usize)
    requires { 2 * level + 1 < length levels.old }
    ensures { levels.new ≡ with_level levels.old level place count }
{
    levels[2 * level] = place;
    levels[2 * level + 1] = count;
}

// The nodes over so many boxes from `first` on, level by level from the box `to` on, while a level has more than one; never above level 16.
// Returned is the highest level. For each level its first box and how many nodes it has are told in `levels`.
pub fn grow(boxes: &mut [i32], levels: &mut [usize], first: usize, parts: usize, to: usize) -> usize
    requires { (first + parts ≤ to) × (parts ≤ 1152921504606846976) × (6 * (to + tree_room parts) ≤ length boxes.old)
        × (34 ≤ length levels.old) }
    ensures { Grown boxes.old boxes.new levels.old levels.new first parts to result }
{
    put_level(levels, 0, first, parts);
    let mut at = first;
    let mut count = parts;
    let mut free = to;
    for level in 0..16 {
        if count <= TOP_NODES {
            return level;
        }
        fill_runs(boxes, at, count, free);
        at = free;
        count = runs_of(count);
        put_level(levels, level + 1, at, count);
        free += count;
    }
    16
}

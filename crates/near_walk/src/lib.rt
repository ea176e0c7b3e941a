// The walk of a run of rows over a tree of parts, for near rows: a node whose boxes at the start and at the end are far from the run's is passed by with all
// parts under it, and a part is found if its own boxes are not far. As in mesh_walk there is no stack and no recursion.

#![tactic(auto)]

ghost use Rattle.scene_seams.specs.Alone.{tabled};
ghost use Rattle.std.specs.Prelude.{◌+◌, ◌≤◌, ◌<◌, true, ◌≡◌, length};
ghost use Rattle.sequences.specs.Chosen.{one};
ghost use Rattle.mesh_tree.specs.Levels.{nodes_at};
ghost use Rattle.mesh_entries.specs.Entering.{Entered};
ghost use Rattle.mesh_walk.specs.Places.{places_from, Stepped};
ghost use Rattle.near_walk.specs.Nodes.{Nodes, node_far, part_near};

use meaning::Kind;
use mesh_walk::{Spot, climb, put_place};
use near_boxes::{boxes_far, part_far};

// Whether a node is far from the run's boxes: by its two boxes, and a part by its corners.
fn is_apart(
    own: &[i32],
    positions: &[i32],
    edges: &[u32],
    triangles: &[u32],
    stands: &[u32],
    boxes: &[i32],
    levels: &[usize],
    shift: usize,
    parts: usize,
    top: usize,
    kind: Kind,
    level: usize,
    node: usize,
) -> bool
    requires { Nodes (tabled positions.now edges.now triangles.now stands.now) kind boxes.now levels.now shift parts top
        × (12 ≤ length own.now) × (level ≤ top) × (node < nodes_at parts level) }
    ensures { result ≡ node_far own.now (tabled positions.now edges.now triangles.now stands.now) kind parts level node }
{
    if 0 < level {
        let first = levels[2 * level] + shift;
        boxes_far(own, boxes, first + node, first + shift + node)
    } else {
        part_far(own, positions, edges, triangles, stands, kind, node)
    }
}

// One node is tested.
fn near_step(
    own: &[i32],
    positions: &[i32],
    edges: &[u32],
    triangles: &[u32],
    stands: &[u32],
    boxes: &[i32],
    levels: &[usize],
    shift: usize,
    parts: usize,
    top: usize,
    kind: Kind,
    level: usize,
    node: usize,
) -> Spot
    requires { Nodes (tabled positions.now edges.now triangles.now stands.now) kind boxes.now levels.now shift parts top
        × (12 ≤ length own.now) × (level ≤ top) × (node < nodes_at parts level) }
    ensures { Stepped (part_near own.now (tabled positions.now edges.now triangles.now stands.now) kind) parts top level node
        result.level result.node result.found }
{
    if is_apart(
        own, positions, edges, triangles, stands, boxes, levels, shift, parts, top, kind, level,
        node,
    ) {
        climb(level, node + 1, top, false)
    } else {
        if 0 < level {
            Spot {
                level: level - 1,
                node: 16 * node,
                found: false,
            }
        } else {
            climb(level, node + 1, top, true)
        }
    }
}

// A place is put down, and counted, if a part was found.
fn put_near(list: &mut [u32], k: usize, place: usize, found: bool) -> usize
    requires { (found ≡ true → place < 4294967296) × (k < 18446744073709551615) }
    ensures { Entered (length list.old) list.old k (one found place) list.new result }
{
    if found {
        put_place(list, k, place);
        k + 1
    } else {
        k
    }
}

// The places, from `from` on, of the parts that are not far from the run's boxes, in order, in front of a lent list while it has room; all are counted.
pub fn find_near(
    own: &[i32],
    positions: &[i32],
    edges: &[u32],
    triangles: &[u32],
    stands: &[u32],
    boxes: &[i32],
    levels: &[usize],
    shift: usize,
    parts: usize,
    top: usize,
    kind: Kind,
    from: usize,
    list: &mut [u32],
) -> usize
    requires { Nodes (tabled positions.now edges.now triangles.now stands.now) kind boxes.now levels.now shift parts top
        × (12 ≤ length own.now) × (parts ≤ 4294967296) }
    ensures { Entered (length list.old) list.old 0
        (places_from (part_near own.now (tabled positions.now edges.now triangles.now stands.now) kind) parts from) list.new result }
{
    let start = climb(0, from, top, false);
    let mut level = start.level;
    let mut node = start.node;
    let mut k = 0usize;
    // A `while`, because each step says which node comes next: one under this one, or one behind it, at its level or further up.
    while node < levels[2 * level + 1] {
        let next = near_step(
            own, positions, edges, triangles, stands, boxes, levels, shift, parts, top, kind,
            level, node,
        );
        k = put_near(list, k, node, next.found);
        level = next.level;
        node = next.node;
    }
    k
}

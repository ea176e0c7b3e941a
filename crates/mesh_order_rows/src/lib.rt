// A row of a mesh's list where an order of the second parts is lent. The tree stands in that order, so a walk finds places of the order: each is taken to the
// part that it leads to, those that go with the row and are listed are put down, and what was put down is sorted. So a row is the same by whatever order.

#![tactic(auto)]

ghost use Rattle.std.specs.Prelude.{◌+◌, ◌*◌, ◌≤◌, ◌<◌, true, ◌&&◌, ◌≡◌, leb, length};
ghost use Rattle.sequences.specs.Chosen.{one};
ghost use Rattle.meaning.specs.Scene.{edge_count};
ghost use Rattle.meaning.specs.StoredBoxes.{span_at, box_at};
ghost use Rattle.meaning.specs.declared.Kind.TheVariants.{EdgeEdge};
ghost use Rattle.scene_seams.specs.Alone.{tabled, only_edges};
ghost use Rattle.list_boxes.specs.Kept.{joint_box};
ghost use Rattle.list_boxes.specs.Storing.{with_span, BoxStored};
ghost use Rattle.list_candidates.specs.Rows.{first_count};
ghost use Rattle.mesh_orders.specs.Orders.{at};
ghost use Rattle.mesh_walk.specs.Steps.{box_meets};
ghost use Rattle.mesh_entries.specs.Entering.{Entered};
ghost use Rattle.mesh_rows.specs.Asking.{passes, Askable};
ghost use Rattle.mesh_rows.specs.Rows.{part_row, SecondsPut};
ghost use Rattle.mesh_order_rows.specs.Led.{vertex_of, OwnThere, LedTree, LedRow, led_rest};

use list_boxes::kept::store_joint_box;
use meaning::{Kind, RowPairs};
use mesh_parts::edge_end;
use mesh_rows::put_found;
use mesh_runs::first_second;
use mesh_seams::wide;
use mesh_sort::sort_front;
use mesh_walk::{climb, step};

// Three boxes: those of two vertices, and their joint box.
const OWN_NUMBERS: usize = 18;

// The low and the high on one axis, from a place of one list to a place of another.
fn copy_span(boxes: &[i32], i: usize, own: &mut [i32], to: usize)
    requires { (i + 3 < length boxes.now) × (to + 3 < length own.old) }
    ensures { own.new ≡ with_span own.old to (span_at boxes.now i) }
{
    own[to] = boxes[i];
    own[to + 3] = boxes[i + 3];
}

// A box of one list, stored under a number of another.
pub fn copy_box(boxes: &[i32], v: usize, own: &mut [i32], to: usize)
    requires { (6 * v + 5 < length boxes.now) × (6 * to + 5 < length own.old) }
    ensures { BoxStored own.old to (box_at boxes.now v) own.new }
{
    let i = 6 * v;
    let at = 6 * to;
    copy_span(boxes, i, own, at);
    copy_span(boxes, i + 1, own, at + 1);
    copy_span(boxes, i + 2, own, at + 2);
}

// Of a first part: the vertex itself, or an end of the edge.
pub fn vertex_of(edges: &[u32], kind: Kind, i: usize, k: usize) -> usize
    requires { (kind ≡ EdgeEdge → i < edge_count (only_edges edges.now)) × (k < 2) }
    ensures { result ≡ vertex_of edges.now kind i k }
{
    match kind {
        Kind::PointTriangle => i,
        Kind::EdgeEdge => edge_end(edges, i, k),
    }
}

// The box of a first part from those of its vertices, as box 2: where an edge's own stands is told by the inverse of the order alone.
fn own_box(edges: &[u32], boxes: &[i32], kind: Kind, i: usize, own: &mut [i32])
    requires { OwnThere edges.now kind i (length boxes.now) × (18 ≤ length own.old) }
    ensures { box_at own.new 2 ≡ joint_box (box_at boxes.now (vertex_of edges.now kind i 0))
        (box_at boxes.now (vertex_of edges.now kind i 1)) }
{
    let a = vertex_of(edges, kind, i, 0);
    let b = vertex_of(edges, kind, i, 1);
    copy_box(boxes, a, own, 0);
    copy_box(boxes, b, own, 1);
    store_joint_box(own, 0, 1, 2);
}

// The part to which the order leads from place k is put down, and counted, if that was found, goes with the row, and its pair is listed.
fn put_led(
    positions: &[i32],
    edges: &[u32],
    triangles: &[u32],
    stands: &[u32],
    which: RowPairs,
    kind: Kind,
    i: usize,
    order: &[u32],
    k: usize,
    from: usize,
    found: bool,
    places: &mut [u32],
    n: usize,
) -> usize
    requires { (k < length order.now) × (n < 9223372036854775808)
        × (found ≡ true → Askable (tabled positions.now edges.now triangles.now stands.now) kind i (at order.now k)) }
    ensures { Entered (length places.old) places.old n
        (one ((found && leb from (at order.now k))
        && passes which (tabled positions.now edges.now triangles.now stands.now) kind i (at order.now k))
        (at order.now k)) places.new result }
{
    let j = wide(order[k]);
    put_found(
        positions,
        edges,
        triangles,
        stands,
        which,
        kind,
        i,
        j,
        found & (from <= j),
        places,
        n,
    )
}

// The second places of the row of one first part, whose box is box 2 of `own`, in the order in which they are found.
fn find_led(
    positions: &[i32],
    edges: &[u32],
    triangles: &[u32],
    stands: &[u32],
    own: &[i32],
    boxes: &[i32],
    levels: &[usize],
    parts: usize,
    top: usize,
    which: RowPairs,
    kind: Kind,
    i: usize,
    order: &[u32],
    from: usize,
    places: &mut [u32],
) -> usize
    requires { LedRow (tabled positions.now edges.now triangles.now stands.now) kind i (box_at own.now 2) boxes.now levels.now parts top
        order.now from × (18 ≤ length own.now) }
    ensures { Entered (length places.old) places.old 0
        (led_rest which (tabled positions.now edges.now triangles.now stands.now) kind i order.now from
        (box_meets (box_at own.now 2) boxes.now levels.now) parts 0) places.new result }
{
    let start = climb(0, 0, top, false);
    let mut level = start.level;
    let mut node = start.node;
    let mut n = 0usize;
    // A `while`, because each step says which node comes next: one under this one, or one behind it, at its level or further up.
    while node < levels[2 * level + 1] {
        let next = step(own, 2, boxes, levels, parts, top, level, node);
        n = put_led(
            positions, edges, triangles, stands, which, kind, i, order, node, from, next.found,
            places, n,
        );
        level = next.level;
        node = next.node;
    }
    n
}

// The second places of the row of one first part, in order, in front of a lent list with room for twice as many as there are second parts; what stands
// behind them is of no account. Returned is how many.
pub fn order_places(
    positions: &[i32],
    edges: &[u32],
    triangles: &[u32],
    stands: &[u32],
    boxes: &[i32],
    levels: &[usize],
    parts: usize,
    top: usize,
    which: RowPairs,
    kind: Kind,
    i: usize,
    order: &[u32],
    places: &mut [u32],
) -> usize
    requires led_tree { LedTree (tabled positions.now edges.now triangles.now stands.now) kind boxes.now levels.now parts top order.now
        × (i < first_count (tabled positions.now edges.now triangles.now stands.now) kind) }
    requires parts_in_bounds { 2 * parts ≤ length places.old }
    ensures { SecondsPut (part_row which (tabled positions.now edges.now triangles.now stands.now) kind i) places.new
        places.new result }
{
    let mut own = [0i32; OWN_NUMBERS];
    own_box(edges, boxes, kind, i, &mut own);
    let from = first_second(kind, i);
    let count = find_led(
        positions, edges, triangles, stands, &own, boxes, levels, parts, top, which, kind, i,
        order, from, places,
    );
    sort_front(places, count, parts);
    count
}

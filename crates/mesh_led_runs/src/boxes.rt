// Boxes of parts, worked out from those of their vertices: where the box of a part itself stands is told by the inverse of the order alone.

ghost use Rattle.std.specs.Prelude.{ℕ, ◌+◌, ◌*◌, ◌≤◌, ◌<◌, ◌≡◌, length};
ghost use Rattle.meaning.specs.Scene.{edge_count, triangle_count, edge_end, corner};
ghost use Rattle.meaning.specs.StoredBoxes.{box_at, BoxesStand};
ghost use Rattle.scene_seams.specs.Alone.{only_edges, only_triangles};
ghost use Rattle.list_boxes.specs.Kept.{joint_box};
ghost use Rattle.mesh_order_rows.specs.Led.{OwnThere};
ghost use Rattle.mesh_led_runs.specs.PartBoxes.{PutInFront, own_box, edge_joint, triangle_joint, part_box, PartThere};
ghost use Rattle.mesh_led_runs.specs.RowBoxes.{RowsJoined};
ghost use Rattle.mesh_led_runs.specs.SpreadParts.{PartsIn, PartsSpread};

use list_boxes::kept::store_joint_box;
use list_runs::fill_runs;
use meaning::Kind;
use mesh_marks::spread_box;
use mesh_order_rows::{copy_box, vertex_of};
use mesh_parts::{corner, edge_end};
use mesh_seams::wide;

// A box that is worked out, and one vertex's.
const PART_NUMBERS: usize = 12;

// The box `to` of a list becomes its joint box with that of a vertex, which is copied to the box `spare` on the way.
fn widen(boxes: &[i32], v: usize, own: &mut [i32], to: usize, spare: usize)
    requires { (6 * v + 5 < length boxes.now) × (to < spare) × (6 * spare + 5 < length own.old) }
    ensures { PutInFront own.old to (joint_box (box_at own.old to) (box_at boxes.now v)) own.new }
{
    copy_box(boxes, v, own, spare);
    store_joint_box(own, to, spare, to);
}

// The box of a first part, as box `to`; box 17 is used on the way.
fn own_box(edges: &[u32], boxes: &[i32], kind: Kind, i: usize, own: &mut [i32], to: usize)
    requires { OwnThere edges.now kind i (length boxes.now) × (to < 16) × (108 ≤ length own.old) }
    ensures { PutInFront own.old to (own_box edges.now boxes.now kind i) own.new }
{
    let a = vertex_of(edges, kind, i, 0);
    let b = vertex_of(edges, kind, i, 1);
    copy_box(boxes, a, own, to);
    widen(boxes, b, own, to, 17);
}

// The boxes of so many rows from `first` on, in front of a list.
fn own_boxes(edges: &[u32], boxes: &[i32], kind: Kind, first: usize, count: usize, own: &mut [i32])
    requires { ((i : ℕ) → i < first + count → OwnThere edges.now kind i (length boxes.now)) × (count ≤ 16)
        × (first ≤ 1073741824) × (108 ≤ length own.old) }
    ensures { BoxesStand own.new 0 count (λ r. own_box edges.now boxes.now kind (first + r)) }
{
    for r in 0..count {
        own_box(edges, boxes, kind, first + r, own, r);
    }
}

// The boxes of the rows of a run, and behind them, as box 16, one that covers them: who misses it misses each of them.
pub fn join_rows(
    edges: &[u32],
    boxes: &[i32],
    kind: Kind,
    first: usize,
    count: usize,
    own: &mut [i32],
)
    requires { ((i : ℕ) → i < first + count → OwnThere edges.now kind i (length boxes.now)) × (0 < count) × (count ≤ 16)
        × (first ≤ 1073741824) × (108 ≤ length own.old) }
    ensures { RowsJoined (own_box edges.now boxes.now kind) first count own.new }
{
    own_boxes(edges, boxes, kind, first, count, own);
    fill_runs(own, 0, count, 16);
}

// The box of an edge, as box 0; box 1 is used on the way.
fn edge_box(edges: &[u32], boxes: &[i32], j: usize, part: &mut [i32])
    requires { (j < edge_count (only_edges edges.now))
        × ((k : ℕ) → k < 2 → 6 * edge_end (only_edges edges.now) j k + 5 < length boxes.now) × (12 ≤ length part.old) }
    ensures { box_at part.new 0 ≡ edge_joint edges.now boxes.now j }
{
    let a = edge_end(edges, j, 0);
    let b = edge_end(edges, j, 1);
    copy_box(boxes, a, part, 0);
    widen(boxes, b, part, 0, 1);
}

// The box of a triangle, likewise.
fn triangle_box(triangles: &[u32], boxes: &[i32], j: usize, part: &mut [i32])
    requires { (j < triangle_count (only_triangles triangles.now))
        × ((k : ℕ) → k < 3 → 6 * corner (only_triangles triangles.now) j k + 5 < length boxes.now) × (12 ≤ length part.old) }
    ensures { box_at part.new 0 ≡ triangle_joint triangles.now boxes.now j }
{
    let a = corner(triangles, j, 0);
    let b = corner(triangles, j, 1);
    let c = corner(triangles, j, 2);
    copy_box(boxes, a, part, 0);
    widen(boxes, b, part, 0, 1);
    widen(boxes, c, part, 0, 1);
}

// The box of a second part, likewise.
fn part_box(edges: &[u32], triangles: &[u32], boxes: &[i32], kind: Kind, j: usize, part: &mut [i32])
    requires { PartThere edges.now triangles.now kind j (length boxes.now) × (12 ≤ length part.old) }
    ensures { box_at part.new 0 ≡ part_box edges.now triangles.now boxes.now kind j }
{
    match kind {
        Kind::PointTriangle => triangle_box(triangles, boxes, j, part),
        Kind::EdgeEdge => edge_box(edges, boxes, j, part),
    }
}

// The boxes of the parts that were found, so that numbers that are compared with the same one stand side by side.
pub fn spread_parts(
    edges: &[u32],
    triangles: &[u32],
    boxes: &[i32],
    kind: Kind,
    places: &[u32],
    count: usize,
    six: &mut [i32],
)
    requires { PartsIn edges.now triangles.now kind (length boxes.now) places.now count × (count ≤ 256)
        × (1536 ≤ length six.old) }
    ensures { PartsSpread (part_box edges.now triangles.now boxes.now kind) places.now count
        six.new }
{
    let mut part = [0i32; PART_NUMBERS];
    for (q, place) in places[..count].iter().enumerate() {
        part_box(edges, triangles, boxes, kind, wide(*place), &mut part);
        spread_box(&part, 0, six, q);
    }
}

// The boxes of the parts that have a vertex, worked out from the positions: no stored box is read, since another one may be stale. Which parts
// have the vertex goes by its number and by no seam.

#![tactic(auto)]

ghost use Rattle.std.specs.Prelude.{ℕ, ◌+◌, ◌*◌, ◌≤◌, ◌<◌, true, cond, List, ◌≡◌, length};
ghost use Rattle.meaning.specs.Limits.{vertex_limit};
ghost use Rattle.meaning.specs.Scene.{unsewn_of, scene_of, vertex_count, edge_count, triangle_count};
ghost use Rattle.meaning.specs.StoredBoxes.{span_at, box_at, vertex_box, edge_box, triangle_box, edge_place, triangle_place, box_numbers};
ghost use Rattle.meaning.specs.Dragging.{edge_has, triangle_has, BoxesMoved};
ghost use Rattle.scene_seams.specs.Alone.{only_positions, only_edges, only_triangles};
ghost use Rattle.list_boxes.specs.Kept.{joint_box};
ghost use Rattle.list_boxes.specs.Storing.{BoxStored, with_span};
ghost use Rattle.list_boxes.specs.Parts.{Drawn};
ghost use Rattle.stored_mend.specs.Mending.{work_numbers, Missing, Passed, Skipped, WorkedOut, Workable, Mended};

use list_boxes::kept::{store_joint_box, store_vertex};
use scene_parts::written::{corner, edge_end};
use scene_parts::{edge_count, triangle_count, vertex_count};

// So many numbers are passed at once where none of them is the vertex.
const PASSED: usize = 16;

// Room to work a box out: the box of one vertex, and the joint box so far.
const WORK_NUMBERS: usize = 12;

// Whether so many numbers from a place on are there and none of them is v. A wrong no would cost time alone: then parts are asked that need not be.
fn missing(list: &[u16], from: usize, numbers: usize, v: usize) -> bool
    requires { (from ≤ length list.now) × (v < vertex_limit) }
    ensures { result ≡ true → Missing list.now from numbers v }
{
    if list.len() - from < numbers {
        return false;
    }
    let wanted = v as u16;
    let mut found = false;
    for k in 0..numbers {
        found |= list[from + k] == wanted;
    }
    !found
}

// As far as v is missing from a place on, told by so many numbers at once.
fn passed(list: &[u16], from: usize, numbers: usize, v: usize) -> usize
    requires { (from ≤ length list.now) × (v < vertex_limit) × (0 < numbers) }
    ensures { Passed list.now from v result }
{
    let mut at = from;
    // A `while`: a range would be no plainer, because the end is the place where `missing` first says no.
    while missing(list, at, numbers, v) {
        at += numbers;
    }
    at
}

// The same to the very place: many numbers at once, and from there on one by one. Which parts have a number among those passed is not asked.
fn next_place(list: &[u16], from: usize, v: usize) -> usize
    requires { (from ≤ length list.now) × (v < vertex_limit) }
    ensures { Passed list.now from v result }
{
    let near = passed(list, from, PASSED, v);
    passed(list, near, 1, v)
}

// The first edge, from j on, and the first triangle that may have the vertex.
fn next_edge(edges: &[u16], j: usize, v: usize) -> usize
    requires { (j ≤ edge_count (only_edges edges.now)) × (v < vertex_limit) }
    ensures { Skipped (edge_count (only_edges edges.now)) (edge_has (only_edges edges.now) v) j result }
{
    next_place(edges, 2 * j, v) / 2
}

fn next_triangle(triangles: &[u16], j: usize, v: usize) -> usize
    requires { (j ≤ triangle_count (only_triangles triangles.now)) × (v < vertex_limit) }
    ensures { Skipped (triangle_count (only_triangles triangles.now))
        (triangle_has (only_triangles triangles.now) v) j result }
{
    next_place(triangles, 3 * j, v) / 3
}

fn edge_has(edges: &[u16], v: usize, j: usize) -> bool
    requires { j < edge_count (only_edges edges.now) }
    ensures { result ≡ edge_has (only_edges edges.now) v j }
{
    let a = edge_end(edges, j, 0);
    let b = edge_end(edges, j, 1);
    (a == v) | (b == v)
}

fn triangle_has(triangles: &[u16], v: usize, j: usize) -> bool
    requires { j < triangle_count (only_triangles triangles.now) }
    ensures { result ≡ triangle_has (only_triangles triangles.now) v j }
{
    let a = corner(triangles, j, 0);
    let b = corner(triangles, j, 1);
    let c = corner(triangles, j, 2);
    (a == v) | (b == v) | (c == v)
}

fn copy_span(own: &[i32], from: usize, boxes: &mut [i32], to: usize)
    requires { (from + 3 < length own.now) × (to + 3 < length boxes.old) }
    ensures { boxes.new ≡ with_span boxes.old to (span_at own.now from) }
{
    boxes[to] = own[from];
    boxes[to + 3] = own[from + 3];
}

// The second of one's own boxes, stored under a number.
fn copy_box(own: &[i32], boxes: &mut [i32], to: usize)
    requires { (length own.now ≡ work_numbers) × (6 * to + 5 < length boxes.old) }
    ensures { BoxStored boxes.old to (box_at own.now 1) boxes.new }
{
    let at = 6 * to;
    copy_span(own, 6, boxes, at);
    copy_span(own, 7, boxes, at + 1);
    copy_span(own, 8, boxes, at + 2);
}

// The box of vertex v, as the first of one's own.
fn take_vertex(positions: &[i32], v: usize, own: &mut [i32])
    requires { (v < vertex_count (only_positions positions.now)) × (length own.old ≡ work_numbers) }
    ensures { BoxStored own.old 0 (vertex_box (only_positions positions.now) v) own.new }
{
    store_vertex(&positions[6 * v..], 0, own);
}

// The joint box of two vertices, and of three, worked out as the second of one's own.
fn work_two(positions: &[i32], a: usize, b: usize, own: &mut [i32])
    requires { (a < vertex_count (only_positions positions.now)) × (b < vertex_count (only_positions positions.now))
        × (length own.old ≡ work_numbers) }
    ensures { WorkedOut (joint_box (vertex_box (only_positions positions.now) a)
        (vertex_box (only_positions positions.now) b)) own.new }
{
    take_vertex(positions, a, own);
    store_joint_box(own, 0, 0, 1);
    take_vertex(positions, b, own);
    store_joint_box(own, 1, 0, 1);
}

fn work_three(positions: &[i32], a: usize, b: usize, c: usize, own: &mut [i32])
    requires { (a < vertex_count (only_positions positions.now)) × (b < vertex_count (only_positions positions.now))
        × (c < vertex_count (only_positions positions.now)) × (length own.old ≡ work_numbers) }
    ensures { WorkedOut (joint_box (joint_box (vertex_box (only_positions positions.now) a)
        (vertex_box (only_positions positions.now) b)) (vertex_box (only_positions positions.now) c))
        own.new }
{
    work_two(positions, a, b, own);
    take_vertex(positions, c, own);
    store_joint_box(own, 1, 0, 1);
}

// The box of edge j, if it has the vertex.
fn mend_edge(
    positions: &[i32],
    edges: &[u16],
    triangles: &[u16],
    v: usize,
    j: usize,
    own: &mut [i32],
    boxes: &mut [i32],
)
    requires { Workable (unsewn_of positions.now edges.now triangles.now) own.old boxes.old
        × (j < edge_count (unsewn_of positions.now edges.now triangles.now)) }
    ensures { BoxStored boxes.old (edge_place (unsewn_of positions.now edges.now triangles.now) j)
        (cond (edge_has (unsewn_of positions.now edges.now triangles.now) v j)
        (edge_box (unsewn_of positions.now edges.now triangles.now) j)
        (box_at boxes.old (edge_place (unsewn_of positions.now edges.now triangles.now) j))) boxes.new
        × (length own.new ≡ work_numbers) }
{
    if edge_has(edges, v, j) {
        work_two(positions, edge_end(edges, j, 0), edge_end(edges, j, 1), own);
        copy_box(own, boxes, vertex_count(positions) + j);
    }
}

// The box of triangle j, if it has the vertex.
fn mend_triangle(
    positions: &[i32],
    edges: &[u16],
    triangles: &[u16],
    v: usize,
    j: usize,
    own: &mut [i32],
    boxes: &mut [i32],
)
    requires { Workable (unsewn_of positions.now edges.now triangles.now) own.old boxes.old
        × (j < triangle_count (unsewn_of positions.now edges.now triangles.now)) }
    ensures { BoxStored boxes.old (triangle_place (unsewn_of positions.now edges.now triangles.now) j)
        (cond (triangle_has (unsewn_of positions.now edges.now triangles.now) v j)
        (triangle_box (unsewn_of positions.now edges.now triangles.now) j)
        (box_at boxes.old (triangle_place (unsewn_of positions.now edges.now triangles.now) j))) boxes.new
        × (length own.new ≡ work_numbers) }
{
    if triangle_has(triangles, v, j) {
        work_three(
            positions,
            corner(triangles, j, 0),
            corner(triangles, j, 1),
            corner(triangles, j, 2),
            own,
        );
        copy_box(own, boxes, vertex_count(positions) + edge_count(edges) + j);
    }
}

fn mend_edges(
    positions: &[i32],
    edges: &[u16],
    triangles: &[u16],
    v: usize,
    own: &mut [i32],
    boxes: &mut [i32],
)
    requires { Workable (unsewn_of positions.now edges.now triangles.now) own.old boxes.old × (v < vertex_limit) }
    ensures { Mended boxes.old (vertex_count (unsewn_of positions.now edges.now triangles.now))
        (edge_count (unsewn_of positions.now edges.now triangles.now)) (edge_has (unsewn_of positions.now edges.now triangles.now) v)
        (edge_box (unsewn_of positions.now edges.now triangles.now)) boxes.new × (length own.new ≡ work_numbers) }
{
    let count = edge_count(edges);
    let mut j = next_edge(edges, 0, v);
    // A `while`: a `for` would be no plainer, because `next_edge` tells which edge is next.
    while j < count {
        mend_edge(positions, edges, triangles, v, j, own, boxes);
        j = next_edge(edges, j + 1, v);
    }
}

fn mend_triangles(
    positions: &[i32],
    edges: &[u16],
    triangles: &[u16],
    v: usize,
    own: &mut [i32],
    boxes: &mut [i32],
)
    requires { Workable (unsewn_of positions.now edges.now triangles.now) own.old boxes.old × (v < vertex_limit) }
    ensures { Mended boxes.old
        (vertex_count (unsewn_of positions.now edges.now triangles.now) + edge_count (unsewn_of positions.now edges.now triangles.now))
        (triangle_count (unsewn_of positions.now edges.now triangles.now))
        (triangle_has (unsewn_of positions.now edges.now triangles.now) v)
        (triangle_box (unsewn_of positions.now edges.now triangles.now)) boxes.new }
{
    let count = triangle_count(triangles);
    let mut j = next_triangle(triangles, 0, v);
    // A `while`: a `for` would be no plainer, because `next_triangle` tells which triangle is next.
    while j < count {
        mend_triangle(positions, edges, triangles, v, j, own, boxes);
        j = next_triangle(triangles, j + 1, v);
    }
}

// The boxes of vertex v and of all parts that have it. A box looks at no seam, so they are those of the scene with any seams.
pub fn mend(positions: &[i32], edges: &[u16], triangles: &[u16], v: usize, boxes: &mut [i32])
    requires { Drawn (unsewn_of positions.now edges.now triangles.now)
        × (vertex_count (unsewn_of positions.now edges.now triangles.now) ≤ vertex_limit)
        × (v < vertex_count (unsewn_of positions.now edges.now triangles.now)) × (box_numbers ≤ length boxes.old) }
    ensures { (w : List ℕ) → BoxesMoved (scene_of positions.now edges.now triangles.now w) v
        boxes.old boxes.new }
{
    let mut own = [0i32; WORK_NUMBERS];
    store_vertex(positions, v, boxes);
    mend_edges(positions, edges, triangles, v, &mut own, boxes);
    mend_triangles(positions, edges, triangles, v, &mut own, boxes);
}

// One look over stored boxes: whether each is the one worked out from the positions. Each number is held against the one that it should be, and
// nothing is stored; once the boxes of all vertices are known to be right, those of edges and triangles are held against them.

#![tactic(auto)]

mod spans; // spans.rt: one span against the numbers that it is made of

ghost use Rattle.std.specs.Prelude.{ℕ, ◌+◌, ◌*◌, ◌≤◌, ◌<◌, false, List, [], ◌≡◌, length};
ghost use Rattle.meaning.specs.Scene.{unsewn_of, scene_of, vertex_count, edge_count, triangle_count, some_below, unknown_in};
ghost use Rattle.meaning.specs.StoredBoxes.{box_at, edge_place, triangle_place, VerticesIn, box_numbers, other_box, stale_vertex, stale_edge, stale_triangle, stale_box};
ghost use Rattle.scene_seams.specs.Alone.{only_positions};
ghost use Rattle.list_boxes.specs.Kept.{joint_box};
ghost use Rattle.list_boxes.specs.Parts.{Ready, Drawn};

use scene_parts::written::{corner, edge_end};
use scene_parts::{edge_count, triangle_count, vertex_count};
use spans::{other_joint, other_triple, other_vertex};

// Of vertex v.
fn stale_vertex(positions: &[i32], boxes: &[i32], v: usize) -> bool
    requires { (v < vertex_count (only_positions positions.now)) × (6 * v + 5 < length boxes.now) }
    ensures { result ≡ stale_vertex (only_positions positions.now) boxes.now v }
{
    let at = 6 * v;
    let x = other_vertex(positions, at, boxes);
    let y = other_vertex(positions, at + 1, boxes);
    let z = other_vertex(positions, at + 2, boxes);
    x | y | z
}

fn stale_vertices(positions: &[i32], boxes: &[i32]) -> bool
    requires { 6 * vertex_count (only_positions positions.now) ≤ length boxes.now }
    ensures { result ≡ some_below (vertex_count (only_positions positions.now))
        (stale_vertex (only_positions positions.now) boxes.now) }
{
    let mut found = false;
    for v in 0..vertex_count(positions) {
        found |= stale_vertex(positions, boxes, v);
    }
    found
}

// Whether box k is not the joint box of boxes a and b.
fn other_joint_box(boxes: &[i32], a: usize, b: usize, k: usize) -> bool
    requires { (6 * a + 5 < length boxes.now) × (6 * b + 5 < length boxes.now)
        × (6 * k + 5 < length boxes.now) }
    ensures { result ≡ other_box (box_at boxes.now k)
        (joint_box (box_at boxes.now a) (box_at boxes.now b)) }
{
    let i = 6 * a;
    let j = 6 * b;
    let at = 6 * k;
    let x = other_joint(boxes, i, j, at);
    let y = other_joint(boxes, i + 1, j + 1, at + 1);
    let z = other_joint(boxes, i + 2, j + 2, at + 2);
    x | y | z
}

// Whether box k is not the joint box of boxes a, b and c.
fn other_triple_box(boxes: &[i32], a: usize, b: usize, c: usize, k: usize) -> bool
    requires { (6 * a + 5 < length boxes.now) × (6 * b + 5 < length boxes.now) × (6 * c + 5 < length boxes.now)
        × (6 * k + 5 < length boxes.now) }
    ensures { result ≡ other_box (box_at boxes.now k)
        (joint_box (joint_box (box_at boxes.now a) (box_at boxes.now b)) (box_at boxes.now c)) }
{
    let i = 6 * a;
    let j = 6 * b;
    let l = 6 * c;
    let at = 6 * k;
    let x = other_triple(boxes, i, j, l, at);
    let y = other_triple(boxes, i + 1, j + 1, l + 1, at + 1);
    let z = other_triple(boxes, i + 2, j + 2, l + 2, at + 2);
    x | y | z
}

// Of edge j, the boxes of its ends being right.
fn stale_edge(positions: &[i32], edges: &[u16], boxes: &[i32], j: usize) -> bool
    requires j_bound { j < edge_count (scene_of positions.now edges.now [] []) }
    requires ready { Ready (scene_of positions.now edges.now [] []) edges.now boxes.now
        (edge_place (scene_of positions.now edges.now [] []) j) }
    ensures { result ≡ stale_edge (scene_of positions.now edges.now [] []) boxes.now j }
{
    let place = vertex_count(positions) + j;
    other_joint_box(boxes, edge_end(edges, j, 0), edge_end(edges, j, 1), place)
}

// Of triangle j, the boxes of its corners being right.
fn stale_triangle(
    positions: &[i32],
    edges: &[u16],
    triangles: &[u16],
    boxes: &[i32],
    j: usize,
) -> bool
    requires j_bound { j < triangle_count (unsewn_of positions.now edges.now triangles.now) }
    requires ready { Ready (unsewn_of positions.now edges.now triangles.now) triangles.now boxes.now
        (triangle_place (unsewn_of positions.now edges.now triangles.now) j) }
    ensures { result ≡ stale_triangle (unsewn_of positions.now edges.now triangles.now) boxes.now j }
{
    let place = vertex_count(positions) + edge_count(edges) + j;
    other_triple_box(
        boxes,
        corner(triangles, j, 0),
        corner(triangles, j, 1),
        corner(triangles, j, 2),
        place,
    )
}

fn stale_edges(positions: &[i32], edges: &[u16], boxes: &[i32]) -> bool
    requires edges_value { unknown_in (vertex_count (only_positions positions.now)) edges.now ≡ false }
    requires edges_in_bounds { 6 * edge_place (only_positions positions.now) (edge_count (scene_of positions.now edges.now [] []))
        ≤ length boxes.now }
    requires vertices_in { VerticesIn (only_positions positions.now) boxes.now }
    ensures { result ≡ some_below (edge_count (scene_of positions.now edges.now [] []))
        (stale_edge (scene_of positions.now edges.now [] []) boxes.now) }
{
    let mut found = false;
    for j in 0..edge_count(edges) {
        found |= stale_edge(positions, edges, boxes, j);
    }
    found
}

fn stale_triangles(positions: &[i32], edges: &[u16], triangles: &[u16], boxes: &[i32]) -> bool
    requires triangles_value { unknown_in (vertex_count (only_positions positions.now)) triangles.now ≡ false }
    requires triangles_in_bounds { 6 * triangle_place (unsewn_of positions.now edges.now triangles.now)
        (triangle_count (unsewn_of positions.now edges.now triangles.now)) ≤ length boxes.now }
    requires vertices_in { VerticesIn (only_positions positions.now) boxes.now }
    ensures { result ≡ some_below (triangle_count (unsewn_of positions.now edges.now triangles.now))
        (stale_triangle (unsewn_of positions.now edges.now triangles.now) boxes.now) }
{
    let mut found = false;
    for j in 0..triangle_count(triangles) {
        found |= stale_triangle(positions, edges, triangles, boxes, j);
    }
    found
}

// 17: some stored box of the scene isn't the one worked out. A box looks at no seam, so this is told of the scene with any seams.
pub fn stale_box(positions: &[i32], edges: &[u16], triangles: &[u16], boxes: &[i32]) -> bool
    requires { Drawn (unsewn_of positions.now edges.now triangles.now) × (box_numbers ≤ length boxes.now) }
    ensures { (w : List ℕ) → result ≡ stale_box (scene_of positions.now edges.now triangles.now w)
        boxes.now }
{
    if stale_vertices(positions, boxes) {
        return true;
    }
    let edge = stale_edges(positions, edges, boxes);
    let triangle = stale_triangles(positions, edges, triangles, boxes);
    edge | triangle
}

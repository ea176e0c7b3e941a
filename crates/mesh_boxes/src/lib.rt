// The boxes of a mesh in lists of u32, each worked out once, in a lent list: list_boxes at another width. What it is for a box to be the right one, and
// how boxes are stored and joined, is told there. Edges and triangles go by the vertices' boxes as they stand in the list, whatever these are, and stand in
// the order that is lent for them.

#![tactic(auto)]

ghost use Rattle.std.specs.Prelude.{ℕ, ◌+◌, ◌*◌, ◌≤◌, ◌<◌, false, List, [], ◌≢◌, ◌≡◌, length};
ghost use Rattle.meaning.specs.Scene.{unsewn_of, scene_of, vertex_count, edge_count, triangle_count, unknown_in};
ghost use Rattle.meaning.specs.StoredBoxes.{box_at, vertex_box, edge_place, triangle_place, BoxesStand, KeptBehind};
ghost use Rattle.scene_seams.specs.Alone.{only_positions, only_edges, only_triangles};
ghost use Rattle.list_boxes.specs.Storing.{BoxStored};
ghost use Rattle.mesh_boxes.specs.Drawing.{Drawable};
ghost use Rattle.mesh_boxes.specs.Led.{part_of, OrderLent};
ghost use Rattle.mesh_boxes.specs.Joining.{joined_edge, joined_triangle, Joinable, FilledBy};

use list_boxes::filling::fill_vertices;
use list_boxes::kept::store_joint_box;
use mesh_parts::{corner, edge_count, edge_end, triangle_count};
use mesh_seams::wide;
use scene_parts::vertex_count;

// The part in place k: that of the order, or part k where none is lent.
fn part_at(order: &[u32], k: usize) -> usize
    requires { length order.now ≢ 0 → k < length order.now }
    ensures { result ≡ part_of order.now k }
{
    if order.len() == 0 {
        return k;
    }
    wide(order[k])
}

// The box of the edge that stands in place k behind the vertices.
fn store_edge(positions: &[i32], edges: &[u32], order: &[u32], k: usize, boxes: &mut [i32])
    requires k_bound { (k < edge_count (scene_of positions.now edges.now [] []))
        × OrderLent (edge_count (scene_of positions.now edges.now [] [])) order.now }
    requires joinable { Joinable (scene_of positions.now edges.now [] []) edges.now boxes.old
        (edge_place (scene_of positions.now edges.now [] []) k) }
    ensures { BoxStored boxes.old (edge_place (scene_of positions.now edges.now [] []) k)
        (joined_edge (only_edges edges.now) (box_at boxes.old) (part_of order.now k)) boxes.new }
{
    let place = vertex_count(positions) + k;
    let j = part_at(order, k);
    store_joint_box(boxes, edge_end(edges, j, 0), edge_end(edges, j, 1), place);
}

// The box of the triangle that stands in place k behind the edges: first the joint box of two corners.
fn store_triangle(
    positions: &[i32],
    edges: &[u32],
    triangles: &[u32],
    order: &[u32],
    k: usize,
    boxes: &mut [i32],
)
    requires k_bound { (k < triangle_count (unsewn_of positions.now edges.now triangles.now))
        × OrderLent (triangle_count (unsewn_of positions.now edges.now triangles.now)) order.now }
    requires joinable { Joinable (unsewn_of positions.now edges.now triangles.now) triangles.now boxes.old
        (triangle_place (unsewn_of positions.now edges.now triangles.now) k) }
    ensures { BoxStored boxes.old (triangle_place (unsewn_of positions.now edges.now triangles.now) k)
        (joined_triangle (only_triangles triangles.now) (box_at boxes.old) (part_of order.now k))
        boxes.new }
{
    let place = vertex_count(positions) + edge_count(edges) + k;
    let j = part_at(order, k);
    let third = corner(triangles, j, 2);
    store_joint_box(
        boxes,
        corner(triangles, j, 0),
        corner(triangles, j, 1),
        place,
    );
    store_joint_box(boxes, place, third, place);
}

fn join_edges(positions: &[i32], edges: &[u32], order: &[u32], boxes: &mut [i32])
    requires edges_value { (unknown_in (vertex_count (only_positions positions.now)) edges.now ≡ false)
        × OrderLent (edge_count (only_edges edges.now)) order.now }
    requires edges_in_bounds { 6 * edge_place (only_positions positions.now) (edge_count (only_edges edges.now)) ≤ length boxes.old }
    ensures { BoxesStand boxes.new 0 (vertex_count (only_positions positions.now)) (box_at boxes.old)
        × BoxesStand boxes.new (vertex_count (only_positions positions.now)) (edge_count (only_edges edges.now))
        (λ k. joined_edge (only_edges edges.now) (box_at boxes.old) (part_of order.now k))
        × KeptBehind boxes.old boxes.new
        (edge_place (only_positions positions.now) (edge_count (only_edges edges.now))) }
{
    for k in 0..edge_count(edges) {
        store_edge(positions, edges, order, k, boxes);
    }
}

fn join_triangles(
    positions: &[i32],
    edges: &[u32],
    triangles: &[u32],
    order: &[u32],
    boxes: &mut [i32],
)
    requires triangles_value { (unknown_in (vertex_count (only_positions positions.now)) triangles.now ≡ false)
        × OrderLent (triangle_count (only_triangles triangles.now)) order.now }
    requires triangles_in_bounds { 6 * triangle_place (scene_of positions.now edges.now [] [])
        (triangle_count (only_triangles triangles.now)) ≤ length boxes.old }
    ensures { BoxesStand boxes.new 0
        (vertex_count (only_positions positions.now) + edge_count (only_edges edges.now)) (box_at boxes.old)
        × BoxesStand boxes.new (vertex_count (only_positions positions.now) + edge_count (only_edges edges.now))
        (triangle_count (only_triangles triangles.now))
        (λ k. joined_triangle (only_triangles triangles.now) (box_at boxes.old) (part_of order.now k))
        × KeptBehind boxes.old boxes.new
        (triangle_place (scene_of positions.now edges.now [] []) (triangle_count (only_triangles triangles.now))) }
{
    for k in 0..triangle_count(triangles) {
        store_triangle(positions, edges, triangles, order, k, boxes);
    }
}

// The boxes of all edges, then of all triangles, each kind by its order, from those of the vertices, which stand in the list already.
pub fn join_parts(
    positions: &[i32],
    edges: &[u32],
    triangles: &[u32],
    edge_order: &[u32],
    triangle_order: &[u32],
    boxes: &mut [i32],
)
    requires { Drawable (unsewn_of positions.now edges.now triangles.now) boxes.old
        × OrderLent (edge_count (unsewn_of positions.now edges.now triangles.now)) edge_order.now
        × OrderLent (triangle_count (unsewn_of positions.now edges.now triangles.now)) triangle_order.now }
    ensures { (w : List ℕ) → FilledBy (scene_of positions.now edges.now triangles.now w)
        (box_at boxes.old) edge_order.now triangle_order.now boxes.old boxes.new }
{
    join_edges(positions, edges, edge_order, boxes);
    join_triangles(positions, edges, triangles, triangle_order, boxes);
}

// The boxes of all vertices, then of all edges, then of all triangles of a mesh. A box looks at no seam, so they are those of the mesh with any seams.
pub fn fill(
    positions: &[i32],
    edges: &[u32],
    triangles: &[u32],
    edge_order: &[u32],
    triangle_order: &[u32],
    boxes: &mut [i32],
)
    requires { Drawable (unsewn_of positions.now edges.now triangles.now) boxes.old
        × OrderLent (edge_count (unsewn_of positions.now edges.now triangles.now)) edge_order.now
        × OrderLent (triangle_count (unsewn_of positions.now edges.now triangles.now)) triangle_order.now }
    ensures { (w : List ℕ) → FilledBy (scene_of positions.now edges.now triangles.now w)
        (vertex_box (scene_of positions.now edges.now triangles.now w)) edge_order.now
        triangle_order.now boxes.old boxes.new }
{
    fill_vertices(positions, boxes);
    join_parts(
        positions,
        edges,
        triangles,
        edge_order,
        triangle_order,
        boxes,
    );
}

// The boxes of a scene, each worked out once: an edge's and a triangle's from those of its vertices, which stand in the list already.

ghost use Rattle.std.specs.Prelude.{ℕ, ◌*◌, ◌≤◌, ◌<◌, List, [], false, ◌≡◌, length};
ghost use Rattle.meaning.specs.Scene.{unsewn_of, scene_of, vertex_count, edge_count, triangle_count, unknown_in};
ghost use Rattle.scene_seams.specs.Alone.{only_positions, only_edges, only_triangles};
ghost use Rattle.meaning.specs.StoredBoxes.{edge_place, triangle_place, edge_box, triangle_box, VerticesIn, EdgesIn, box_numbers};
ghost use Rattle.list_boxes.specs.Storing.{BoxStored};
ghost use Rattle.list_boxes.specs.Parts.{Ready, Drawn};
ghost use Rattle.meaning.specs.StoredBoxes.{KeptBehind, Filled};

use super::kept::{store_joint_box, store_vertex};
use scene_parts::written::{corner, edge_end};
use scene_parts::{edge_count, triangle_count, vertex_count};

// The boxes of all vertices, each under its number.
pub fn fill_vertices(positions: &[i32], boxes: &mut [i32])
    requires { 6 * vertex_count (only_positions positions.now) ≤ length boxes.old }
    ensures { VerticesIn (only_positions positions.now) boxes.new
        × KeptBehind boxes.old boxes.new (vertex_count (only_positions positions.now)) }
{
    for v in 0..vertex_count(positions) {
        store_vertex(positions, v, boxes);
    }
}

// The box of edge j, in its place behind those of the vertices.
fn store_edge(positions: &[i32], edges: &[u16], j: usize, boxes: &mut [i32])
    requires j_bound { j < edge_count (scene_of positions.now edges.now [] []) }
    requires ready { Ready (scene_of positions.now edges.now [] []) edges.now boxes.old
        (edge_place (scene_of positions.now edges.now [] []) j) }
    ensures { BoxStored boxes.old (edge_place (scene_of positions.now edges.now [] []) j)
        (edge_box (scene_of positions.now edges.now [] []) j) boxes.new }
{
    let place = vertex_count(positions) + j;
    store_joint_box(boxes, edge_end(edges, j, 0), edge_end(edges, j, 1), place);
}

// The box of triangle j, in its place behind those of the edges: first the joint box of two corners.
fn store_triangle(positions: &[i32], edges: &[u16], triangles: &[u16], j: usize, boxes: &mut [i32])
    requires j_bound { j < triangle_count (unsewn_of positions.now edges.now triangles.now) }
    requires ready { Ready (unsewn_of positions.now edges.now triangles.now) triangles.now boxes.old
        (triangle_place (unsewn_of positions.now edges.now triangles.now) j) }
    ensures { BoxStored boxes.old (triangle_place (unsewn_of positions.now edges.now triangles.now) j)
        (triangle_box (unsewn_of positions.now edges.now triangles.now) j) boxes.new }
{
    let place = vertex_count(positions) + edge_count(edges) + j;
    let third = corner(triangles, j, 2);
    store_joint_box(
        boxes,
        corner(triangles, j, 0),
        corner(triangles, j, 1),
        place,
    );
    store_joint_box(boxes, place, third, place);
}

fn fill_edges(positions: &[i32], edges: &[u16], boxes: &mut [i32])
    requires edges_value { unknown_in (vertex_count (only_positions positions.now)) edges.now ≡ false }
    requires edges_in_bounds { 6 * edge_place (only_positions positions.now) (edge_count (only_edges edges.now)) ≤ length boxes.old }
    requires vertices_in { VerticesIn (only_positions positions.now) boxes.old }
    ensures { VerticesIn (only_positions positions.now) boxes.new
        × EdgesIn (scene_of positions.now edges.now [] []) boxes.new
        × KeptBehind boxes.old boxes.new
        (edge_place (only_positions positions.now) (edge_count (only_edges edges.now))) }
{
    for j in 0..edge_count(edges) {
        store_edge(positions, edges, j, boxes);
    }
}

fn fill_triangles(positions: &[i32], edges: &[u16], triangles: &[u16], boxes: &mut [i32])
    requires triangles_value { unknown_in (vertex_count (only_positions positions.now)) triangles.now ≡ false }
    requires triangles_in_bounds { 6 * triangle_place (scene_of positions.now edges.now [] [])
        (triangle_count (only_triangles triangles.now)) ≤ length boxes.old }
    requires vertices_in { VerticesIn (only_positions positions.now) boxes.old
        × EdgesIn (scene_of positions.now edges.now [] []) boxes.old }
    ensures { (w : List ℕ) → Filled (scene_of positions.now edges.now triangles.now w)
        boxes.old boxes.new }
{
    for j in 0..triangle_count(triangles) {
        store_triangle(positions, edges, triangles, j, boxes);
    }
}

// The boxes of all vertices, then of all edges, then of all triangles of a scene. A box looks at no seam, so they are those of the scene with
// any seams.
pub fn fill(positions: &[i32], edges: &[u16], triangles: &[u16], boxes: &mut [i32])
    requires { Drawn (unsewn_of positions.now edges.now triangles.now) × (box_numbers ≤ length boxes.old) }
    ensures { (w : List ℕ) → Filled (scene_of positions.now edges.now triangles.now w)
        boxes.old boxes.new }
{
    fill_vertices(positions, boxes);
    fill_edges(positions, edges, boxes);
    fill_triangles(positions, edges, triangles, boxes);
}

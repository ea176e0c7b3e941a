// The boxes of a mesh's parts at one time, the start or the end, in a lent list, and a tree over its triangles behind them. Only a vertex's box is
// another than in mesh_boxes: its place at that time. The boxes of edges and triangles are joined from these as there.

#![tactic(auto)]

ghost use Rattle.std.specs.Prelude.{ℕ, ◌+◌, ◌*◌, ◌≤◌, ◌<◌, List, ◌≡◌, length};
ghost use Rattle.meaning.specs.Scene.{unsewn_of, scene_of, vertex_count};
ghost use Rattle.meaning.specs.StoredBoxes.{BoxesStand, KeptBehind};
ghost use Rattle.scene_seams.specs.Alone.{only_positions};
ghost use Rattle.list_boxes.specs.Storing.{with_span, BoxStored};
ghost use Rattle.mesh_boxes.specs.Joining.{FilledAs};
ghost use Rattle.mesh_trees.specs.Planting.{Plantable};
ghost use Rattle.frame_boxes.specs.Spots.{spot_span, vertex_box_at};
ghost use Rattle.frame_boxes.specs.Grove.{Grove};

use meaning::Frame;
use mesh_boxes::join_parts;
use mesh_parts::{edge_count, triangle_count};
use mesh_tree::grow;
use pierced_pair::places::place_of;
use scene_parts::vertex_count;

// A coordinate is the low and the high of a span, which stand three places apart.
fn store_spot(positions: &[i32], from: usize, at: usize, boxes: &mut [i32])
    requires { (from < length positions.now) × (at + 3 < length boxes.old) }
    ensures { boxes.new ≡ with_span boxes.old at (spot_span positions.now from) }
{
    boxes[at] = positions[from];
    boxes[at + 3] = positions[from];
}

// The box of vertex v at that time, stored under its number.
fn store_vertex_at(positions: &[i32], frame: Frame, v: usize, boxes: &mut [i32])
    requires { (v < vertex_count (only_positions positions.now)) × (v < 1073741824) × (6 * v + 5 < length boxes.old) }
    ensures { BoxStored boxes.old v (vertex_box_at frame (only_positions positions.now) v) boxes.new }
{
    let from = place_of(frame, v);
    let at = 6 * v;
    store_spot(positions, from, at, boxes);
    store_spot(positions, from + 1, at + 1, boxes);
    store_spot(positions, from + 2, at + 2, boxes);
}

// The boxes of all vertices at that time, each under its number.
fn fill_vertices_at(positions: &[i32], frame: Frame, boxes: &mut [i32])
    requires { (vertex_count (only_positions positions.now) ≤ 1073741824)
        × (6 * vertex_count (only_positions positions.now) ≤ length boxes.old) }
    ensures { BoxesStand boxes.new 0 (vertex_count (only_positions positions.now))
        (vertex_box_at frame (only_positions positions.now))
        × KeptBehind boxes.old boxes.new (vertex_count (only_positions positions.now)) }
{
    for v in 0..vertex_count(positions) {
        store_vertex_at(positions, frame, v, boxes);
    }
}

// The boxes of all vertices, then of all edges, then of all triangles of a mesh at that time, whatever its seams.
pub fn fill_at(positions: &[i32], edges: &[u32], triangles: &[u32], frame: Frame, boxes: &mut [i32])
    requires { Plantable (unsewn_of positions.now edges.now triangles.now) boxes.old }
    ensures { (w : List ℕ) → FilledAs (scene_of positions.now edges.now triangles.now w)
        (vertex_box_at frame (scene_of positions.now edges.now triangles.now w)) boxes.old
        boxes.new }
{
    let none = [0u32; 0];
    fill_vertices_at(positions, frame, boxes);
    join_parts(positions, edges, triangles, &none, &none, boxes);
}

// The boxes at that time are filled in, and a tree over the triangles is grown behind them. Returned is how high it is.
pub fn plant_at(
    positions: &[i32],
    edges: &[u32],
    triangles: &[u32],
    frame: Frame,
    boxes: &mut [i32],
    levels: &mut [usize],
) -> usize
    requires { Plantable (unsewn_of positions.now edges.now triangles.now) boxes.old × (34 ≤ length levels.old) }
    ensures { (w : List ℕ) → Grove frame (scene_of positions.now edges.now triangles.now w)
        boxes.new levels.new result }
{
    fill_at(positions, edges, triangles, frame, boxes);
    let behind = vertex_count(positions) + edge_count(edges);
    let faces = triangle_count(triangles);
    grow(boxes, levels, behind, faces, behind + faces)
}

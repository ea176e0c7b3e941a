// For near rows the nodes of the two trees are kept twice more, behind the scratch that rows need: with the joint boxes of the start, and with those of the
// end. They are grown over the boxes of that time, which stand where the swept boxes are filled in afterwards.

#![tactic(auto)]

ghost use Rattle.std.specs.Prelude.{ℕ, ◌+◌, ◌*◌, ◌≤◌, List, ◌≡◌, length};
ghost use Rattle.meaning.specs.Scene.{unsewn_of, scene_of};
ghost use Rattle.meaning.specs.MeshRows.{tree_room};
ghost use Rattle.mesh_trees.specs.Scratch.{edge_nodes};
ghost use Rattle.mesh_trees.specs.Planting.{Plantable};
ghost use Rattle.near_trees.specs.Frames.{node_room, frames_room, FramePlanted};
ghost use Rattle.near_trees.specs.Standing.{Frames};

use frame_boxes::fill_at;
use meaning::Frame;
use mesh_parts::{edge_count, triangle_count};
use mesh_tree::grow;
use scene_parts::vertex_count;

// Where a level of a tree begins and how many nodes it has, for each of its levels.
const LEVEL_NUMBERS: usize = 34;

// The room for the levels over so many parts.
fn levels_room(parts: usize) -> usize
    requires { parts ≤ 1152921504606846976 }
    ensures { result ≡ tree_room parts }
{
    parts / 15 + 16
}

// How far the nodes of the start stand behind those of the swept boxes, and those of the end behind these.
pub fn node_room(positions: &[i32], edges: &[u32], triangles: &[u32]) -> usize
    ensures { result ≡ node_room (unsewn_of positions.now edges.now triangles.now) }
{
    levels_room(edge_count(edges)) + levels_room(triangle_count(triangles))
}

// How many numbers of scratch near rows are found faster with.
pub fn frames_room(positions: &[i32], edges: &[u32], triangles: &[u32]) -> usize
    ensures { result ≡ frames_room (unsewn_of positions.now edges.now triangles.now) }
{
    let parts = vertex_count(positions) + edge_count(edges) + triangle_count(triangles);
    6 * (parts + 3 * node_room(positions, edges, triangles))
}

// The nodes of one time, from the box `to` on: behind those over the edges those over the triangles.
fn plant_frame(
    positions: &[i32],
    edges: &[u32],
    triangles: &[u32],
    frame: Frame,
    boxes: &mut [i32],
    to: usize,
)
    requires { Plantable (unsewn_of positions.now edges.now triangles.now) boxes.old × (edge_nodes (unsewn_of positions.now edges.now triangles.now) ≤ to)
        × (6 * (to + node_room (unsewn_of positions.now edges.now triangles.now)) ≤ length boxes.old) }
    ensures { (w : List ℕ) → FramePlanted frame (scene_of positions.now edges.now triangles.now w)
        boxes.old boxes.new to }
{
    let mut edge_levels = [0usize; LEVEL_NUMBERS];
    let mut triangle_levels = [0usize; LEVEL_NUMBERS];
    fill_at(positions, edges, triangles, frame, boxes);
    let vertices = vertex_count(positions);
    let sides = edge_count(edges);
    let faces = triangle_count(triangles);
    grow(boxes, &mut edge_levels, vertices, sides, to);
    let room = levels_room(sides);
    grow(
        boxes,
        &mut triangle_levels,
        vertices + sides,
        faces,
        to + room,
    );
}

// The nodes of the end, and then those of the start in front of them.
pub fn plant_frames(positions: &[i32], edges: &[u32], triangles: &[u32], boxes: &mut [i32])
    requires { Plantable (unsewn_of positions.now edges.now triangles.now) boxes.old
        × (frames_room (unsewn_of positions.now edges.now triangles.now) ≤ length boxes.old) }
    ensures { ((w : List ℕ) → Frames (scene_of positions.now edges.now triangles.now w) boxes.new)
        × (length boxes.new ≡ length boxes.old) }
{
    let shift = node_room(positions, edges, triangles);
    let start = vertex_count(positions) + edge_count(edges) + triangle_count(triangles) + shift;
    plant_frame(
        positions,
        edges,
        triangles,
        Frame::End,
        boxes,
        start + shift,
    );
    plant_frame(positions, edges, triangles, Frame::Start, boxes, start);
}

// The boxes of a mesh's parts and a tree over its edges and one over its triangles, in one lent list: the scratch that a row of the list goes by.

#![tactic(auto)]

ghost use Rattle.std.specs.Prelude.{ℕ, ◌≤◌, List, ◌≡◌, ltb, length};
ghost use Rattle.meaning.specs.Scene.{unsewn_of, scene_of, edge_count, triangle_count};
ghost use Rattle.meaning.specs.MeshRows.{tree_room, box_room};
ghost use Rattle.mesh_boxes.specs.Led.{OrderLent};
ghost use Rattle.mesh_trees.specs.Planting.{Plantable, Planted};

use mesh_boxes::fill;
use mesh_parts::{edge_count, triangle_count};
use mesh_tree::grow;
use scene_parts::vertex_count;

// The room for the levels over so many parts.
fn tree_room(parts: usize) -> usize
    requires { parts ≤ 1152921504606846976 }
    ensures { result ≡ tree_room parts }
{
    parts / 15 + 16
}

// How many numbers the scratch of a mesh needs.
pub fn scratch_room(positions: &[i32], edges: &[u32], triangles: &[u32]) -> usize
    ensures { result ≡ box_room (unsewn_of positions.now edges.now triangles.now) }
{
    let sides = edge_count(edges);
    let faces = triangle_count(triangles);
    let parts = vertex_count(positions) + sides + faces;
    6 * (parts + tree_room(sides) + tree_room(faces))
}

// 12: the scratch is too short.
pub fn scratch_short(positions: &[i32], edges: &[u32], triangles: &[u32], boxes: &[i32]) -> bool
    ensures { result ≡ ltb (length boxes.now) (box_room (unsewn_of positions.now edges.now triangles.now)) }
{
    boxes.len() < scratch_room(positions, edges, triangles)
}

// How high the two trees are.
#[derive(Clone, Copy, Debug, PartialEq, Eq)]
pub struct Heights {
    pub edges: usize,
    pub triangles: usize,
}

// The boxes are filled in, edges and triangles by the orders that are lent for them, and the two trees grown. A box looks at no seam, so they are those of the
// mesh with any seams.
pub fn plant(
    positions: &[i32],
    edges: &[u32],
    triangles: &[u32],
    edge_order: &[u32],
    triangle_order: &[u32],
    boxes: &mut [i32],
    edge_levels: &mut [usize],
    triangle_levels: &mut [usize],
) -> Heights
    requires plantable { Plantable (unsewn_of positions.now edges.now triangles.now) boxes.old × (34 ≤ length edge_levels.old)
        × (34 ≤ length triangle_levels.old) }
    requires order_lent { OrderLent (edge_count (unsewn_of positions.now edges.now triangles.now)) edge_order.now
        × OrderLent (triangle_count (unsewn_of positions.now edges.now triangles.now)) triangle_order.now }
    ensures { (w : List ℕ) → Planted (scene_of positions.now edges.now triangles.now w)
        edge_order.now triangle_order.now boxes.old boxes.new edge_levels.old
        edge_levels.new triangle_levels.old triangle_levels.new result.edges result.triangles }
{
    fill(
        positions,
        edges,
        triangles,
        edge_order,
        triangle_order,
        boxes,
    );
    let vertices = vertex_count(positions);
    let sides = edge_count(edges);
    let faces = triangle_count(triangles);
    let behind = vertices + sides + faces;
    let edge_top = grow(boxes, edge_levels, vertices, sides, behind);
    let last = behind + tree_room(sides);
    let triangle_top = grow(boxes, triangle_levels, vertices + sides, faces, last);
    Heights {
        edges: edge_top,
        triangles: triangle_top,
    }
}

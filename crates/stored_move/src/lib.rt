// Dragging one vertex of a scene that keeps its boxes: the boxes filled in, and a vertex moved with the boxes of the parts that have it.

#![tactic(auto)]

mod tearing; // tearing.rt: whether a move would take a seam apart

ghost use Rattle.std.specs.Prelude.{◌+◌, ◌<◌, ◌≡◌, length};
ghost use Rattle.meaning.specs.Scene.{scene_of, vertex_count};
ghost use Rattle.meaning.specs.StoredBoxes.{box_checks, BoxesFilled};
ghost use Rattle.meaning.specs.Dragging.{placed, new_outside, VertexMoved};
ghost use Rattle.answers_order.specs.InOrder.{Checked};
ghost use Rattle.scene_seams.specs.Alone.{only_positions};
ghost use Rattle.stored_laws.specs.Placed.{three_placed};

use answers_order::{first_of, refused_if};
use list_boxes::filling::fill;
use meaning::{BOX_NUMBERS, Refusal};
use scene_checks::check_scene;
use scene_checks::faults::out_of_range;
use scene_parts::vertex_count;
use stored_mend::mend;
use tearing::tears_seam;

// 12 for a short buffer, then the scene's own checks.
fn check_boxed(
    positions: &[i32],
    edges: &[u16],
    triangles: &[u16],
    seams: &[u16],
    boxes: &[i32],
) -> Result<(), Refusal>
    ensures { Checked (box_checks (scene_of positions.now edges.now triangles.now seams.now) boxes.now) result }
{
    let room = refused_if(boxes.len() < BOX_NUMBERS, Refusal::ShortBuffer);
    let scene = check_scene(positions, edges, triangles, seams);
    first_of(room, scene)
}

// The boxes of a scene, in front of a lent buffer.
pub fn fill_boxes(
    positions: &[i32],
    edges: &[u16],
    triangles: &[u16],
    seams: &[u16],
    boxes: &mut [i32],
) -> Result<(), Refusal>
    ensures { BoxesFilled (scene_of positions.now edges.now triangles.now seams.now) boxes.old boxes.new result }
{
    check_boxed(positions, edges, triangles, seams, boxes)?;
    fill(positions, edges, triangles, boxes);
    Ok(())
}

// 2 for the new coordinates.
fn new_outside(coordinates: &[i32]) -> bool
    requires { length coordinates.now ≡ 6 }
    ensures { result ≡ new_outside coordinates.now }
{
    out_of_range(coordinates)
}

// Three coordinates, one behind the other.
fn place_three(positions: &mut [i32], at: usize, coordinates: &[i32], from: usize)
    requires { (at < length positions.old) × (at + 1 < length positions.old) × (at + 2 < length positions.old)
        × (from + 2 < length coordinates.now) }
    ensures { positions.new ≡ three_placed positions.old at coordinates.now from }
{
    positions[at] = coordinates[from];
    positions[at + 1] = coordinates[from + 1];
    positions[at + 2] = coordinates[from + 2];
}

// The start and the end of vertex v.
fn place(positions: &mut [i32], v: usize, coordinates: &[i32])
    requires { (v < vertex_count (only_positions positions.old)) × (length coordinates.now ≡ 6) }
    ensures { positions.new ≡ placed positions.old v coordinates.now }
{
    let at = 6 * v;
    place_three(positions, at, coordinates, 0);
    place_three(positions, at + 3, coordinates, 3);
}

// Vertex v is moved: six coordinates, start and end, and the boxes of the parts that have it. No stored box is looked at, and a refusal changes
// nothing.
pub fn move_vertex(
    positions: &mut [i32],
    edges: &[u16],
    triangles: &[u16],
    seams: &[u16],
    boxes: &mut [i32],
    v: usize,
    coordinates: &[i32; 6],
) -> Result<(), Refusal>
    ensures { VertexMoved (scene_of positions.old edges.now triangles.now seams.now) v coordinates.now
        positions.new boxes.old boxes.new result }
{
    check_boxed(positions, edges, triangles, seams, boxes)?;
    let absent = vertex_count(positions) <= v;
    let far = new_outside(coordinates);
    if absent {
        return Err(Refusal::NotThere);
    }
    let torn = tears_seam(positions, seams, v, coordinates);
    if far {
        return Err(Refusal::Coordinate);
    }
    if torn {
        return Err(Refusal::BrokenSeam);
    }
    place(positions, v, coordinates);
    mend(positions, edges, triangles, v, boxes);
    Ok(())
}

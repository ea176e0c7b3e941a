// A stretch of rows: the scratch is prepared, the pierced ones are counted, and their entries are written where there is room for all of them.
// Nothing is written to the list before that is known.

ghost use Rattle.scene_seams.specs.Alone.{tabled};
ghost use Rattle.std.specs.Prelude.{◌≤◌, length};
ghost use Rattle.meaning.specs.Scene.{edge_count};
ghost use Rattle.scene_checks.specs.Facts.{Sound};
ghost use Rattle.mesh_trees.specs.Planting.{Plantable};
ghost use Rattle.frame_boxes.specs.Grove.{Grove};
ghost use Rattle.pierced_walk.specs.Stretching.{IsThroughCount, room_asked, ThroughListed};

use super::rows::walk_edges;
use frame_boxes::plant_at;
use meaning::{Frame, Refusal, Refused};

// Where a level of the tree begins and how many nodes it has, for each of its levels.
const LEVEL_NUMBERS: usize = 34;

// How many are pierced, by a walk that enters none.
fn count_grown(
    positions: &[i32],
    edges: &[u32],
    triangles: &[u32],
    stands: &[u32],
    frame: Frame,
    boxes: &[i32],
    levels: &[usize],
    top: usize,
    first: usize,
    end: usize,
) -> usize
    requires { Grove frame (tabled positions.now edges.now triangles.now stands.now) boxes.now levels.now top
        × Sound (tabled positions.now edges.now triangles.now stands.now) × (first ≤ end)
        × (end ≤ edge_count (tabled positions.now edges.now triangles.now stands.now)) }
    ensures { IsThroughCount frame (tabled positions.now edges.now triangles.now stands.now) first end result }
{
    let mut none = [0u64; 0];
    walk_edges(
        positions, edges, triangles, stands, frame, boxes, levels, top, first, end, &mut none, 0,
    )
}

// Counted first, and walked again where there is room and something to write: mostly nothing is pierced.
fn list_grown(
    positions: &[i32],
    edges: &[u32],
    triangles: &[u32],
    stands: &[u32],
    frame: Frame,
    boxes: &[i32],
    levels: &[usize],
    top: usize,
    first: usize,
    end: usize,
    list: &mut [u64],
    room: usize,
) -> Result<usize, Refused>
    requires grove { Grove frame (tabled positions.now edges.now triangles.now stands.now) boxes.now levels.now top
        × Sound (tabled positions.now edges.now triangles.now stands.now) × (first ≤ end)
        × (end ≤ edge_count (tabled positions.now edges.now triangles.now stands.now)) }
    requires room_in_bounds { room ≤ length list.old }
    ensures { ThroughListed (room_asked frame (tabled positions.now edges.now triangles.now stands.now) first end room)
        frame (tabled positions.now edges.now triangles.now stands.now) first end list.old list.new result }
{
    let count = count_grown(
        positions, edges, triangles, stands, frame, boxes, levels, top, first, end,
    );
    if room < count {
        return Err(Refused {
            why: Refusal::NoRoom,
            carries: count,
        });
    }
    if count == 0 {
        return Ok(count);
    }
    walk_edges(
        positions, edges, triangles, stands, frame, boxes, levels, top, first, end, list, room,
    );
    Ok(count)
}

// The entries of a stretch of rows, in front of a lent list with so much room; 7 with their count where they are more.
pub fn list_through(
    positions: &[i32],
    edges: &[u32],
    triangles: &[u32],
    stands: &[u32],
    frame: Frame,
    boxes: &mut [i32],
    first: usize,
    end: usize,
    list: &mut [u64],
    room: usize,
) -> Result<usize, Refused>
    requires plantable { Plantable (tabled positions.now edges.now triangles.now stands.now) boxes.old
        × Sound (tabled positions.now edges.now triangles.now stands.now) × (first ≤ end)
        × (end ≤ edge_count (tabled positions.now edges.now triangles.now stands.now)) }
    requires room_in_bounds { room ≤ length list.old }
    ensures { ThroughListed (room_asked frame (tabled positions.now edges.now triangles.now stands.now) first end room)
        frame (tabled positions.now edges.now triangles.now stands.now) first end list.old list.new result }
{
    let mut levels = [0usize; LEVEL_NUMBERS];
    let top = plant_at(positions, edges, triangles, frame, boxes, &mut levels);
    list_grown(
        positions, edges, triangles, stands, frame, boxes, &levels, top, first, end, list, room,
    )
}

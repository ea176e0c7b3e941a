// The rows of edges, walked over the tree of the triangles.

ghost use Rattle.scene_seams.specs.Alone.{tabled};
ghost use Rattle.std.specs.Prelude.{◌+◌, ◌≤◌, ◌<◌, true, ◌&&◌, ◌≡◌, length};
ghost use Rattle.sequences.specs.Chosen.{one};
ghost use Rattle.meaning.specs.Scene.{edge_count, triangle_count};
ghost use Rattle.meaning.specs.PiercedRows.{through_row};
ghost use Rattle.scene_checks.specs.Facts.{Sound};
ghost use Rattle.mesh_entries.specs.Entering.{Entered};
ghost use Rattle.frame_boxes.specs.Grove.{Grove};
ghost use Rattle.through_laws.specs.Listing.{entry_of, entries_of, rows_of};
ghost use Rattle.pierced_walk.specs.Rows.{passes, EdgeRow};

use super::asked::is_through;
use meaning::{Frame, Kind};
use mesh_entries::put_below;
use mesh_parts::triangle_count;
use mesh_walk::{climb, step};
use scene_parts::vertex_count;

// A triangle that was found is entered, and counted, if the edge is through it. An entry has the form of that of a point and a triangle.
fn enter_through(
    positions: &[i32],
    edges: &[u32],
    triangles: &[u32],
    stands: &[u32],
    frame: Frame,
    i: usize,
    j: usize,
    found: bool,
    list: &mut [u64],
    most: usize,
    k: usize,
) -> usize
    requires sound { Sound (tabled positions.now edges.now triangles.now stands.now) × (i < edge_count (tabled positions.now edges.now triangles.now stands.now))
        × (i < 1073741824) × (found ≡ true → j < triangle_count (tabled positions.now edges.now triangles.now stands.now))
        × (found ≡ true → j < 1073741824) }
    requires most_in_bounds { (most ≤ length list.old) × (k < 9223372036854775808) }
    ensures { Entered most list.old k
        (one (found && passes frame (tabled positions.now edges.now triangles.now stands.now) i j) (entry_of i j)) list.new result }
{
    if is_through(positions, edges, triangles, stands, frame, i, j, found) {
        put_below(list, most, k, Kind::PointTriangle, i, j);
        k + 1
    } else {
        k
    }
}

// The row of one edge, whose own box is `row`.
fn walk_edge(
    positions: &[i32],
    edges: &[u32],
    triangles: &[u32],
    stands: &[u32],
    frame: Frame,
    boxes: &[i32],
    levels: &[usize],
    parts: usize,
    top: usize,
    i: usize,
    row: usize,
    list: &mut [u64],
    most: usize,
    at: usize,
) -> usize
    requires edge_row { EdgeRow frame (tabled positions.now edges.now triangles.now stands.now) i boxes.now levels.now parts top row }
    requires most_in_bounds { (most ≤ length list.old) × (at < 4611686018427387904) }
    ensures { Entered most list.old at
        (entries_of frame (tabled positions.now edges.now triangles.now stands.now)
        (through_row frame (tabled positions.now edges.now triangles.now stands.now) i)) list.new result }
{
    let start = climb(0, 0, top, false);
    let mut level = start.level;
    let mut node = start.node;
    let mut k = at;
    // A `while`, because each step says which node comes next: one under this one, or one behind it, at its level or further up.
    while node < levels[2 * level + 1] {
        let next = step(boxes, row, boxes, levels, parts, top, level, node);
        k = enter_through(
            positions, edges, triangles, stands, frame, i, node, next.found, list, most, k,
        );
        level = next.level;
        node = next.node;
    }
    k
}

// The rows from one edge up to another: all that are pierced are counted, and entered in front of the list while there is room below a bound.
pub fn walk_edges(
    positions: &[i32],
    edges: &[u32],
    triangles: &[u32],
    stands: &[u32],
    frame: Frame,
    boxes: &[i32],
    levels: &[usize],
    top: usize,
    first: usize,
    end: usize,
    list: &mut [u64],
    most: usize,
) -> usize
    requires grove { Grove frame (tabled positions.now edges.now triangles.now stands.now) boxes.now levels.now top
        × Sound (tabled positions.now edges.now triangles.now stands.now) × (first ≤ end)
        × (end ≤ edge_count (tabled positions.now edges.now triangles.now stands.now)) }
    requires most_in_bounds { most ≤ length list.old }
    ensures { Entered most list.old 0
        (rows_of frame (tabled positions.now edges.now triangles.now stands.now) first end) list.new result }
{
    let vertices = vertex_count(positions);
    let parts = triangle_count(triangles);
    let mut k = 0;
    for i in first..end {
        k = walk_edge(
            positions,
            edges,
            triangles,
            stands,
            frame,
            boxes,
            levels,
            parts,
            top,
            i,
            vertices + i,
            list,
            most,
            k,
        );
    }
    k
}

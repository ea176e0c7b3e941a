// Whether a first part meets a run of second parts: boxes of all parts, and behind them the joint boxes of all runs, of edges and then of
// triangles.

ghost use Rattle.scene_seams.specs.Alone.{tabled};
ghost use Rattle.std.specs.Prelude.{◌≤◌, ◌<◌, ◌≡◌, length};
ghost use Rattle.meaning.specs.Scene.{Accepted};
ghost use Rattle.meaning.specs.Runs.{runs_of};
ghost use Rattle.meaning.specs.StoredBoxes.{Boxed};
ghost use Rattle.list_boxes.specs.Kept.{meet_boxes};
ghost use Rattle.list_candidates.specs.Rows.{first_count, second_count};
ghost use Rattle.list_walk.specs.Skipping.{first_place, run_place, first_box, run_box, walk_numbers};
ghost use Rattle.list_walk.specs.Skipping.{Prepared};
ghost use Rattle.list_walk.specs.Taking.{CopiedUpTo};

use list_boxes::filling::fill;
use list_boxes::kept::boxes_meet;
use list_runs::{fill_runs, runs_of};
use meaning::{BOX_NUMBERS, Kind};
use scene_parts::{edge_count, triangle_count, vertex_count};

// Six numbers for each part, and for each run: 64 of edges, 32 of triangles.
pub const WALK_NUMBERS: usize = BOX_NUMBERS + 576;

// The joint boxes of all runs, behind the boxes of all parts.
fn join_runs(positions: &[i32], edges: &[u16], triangles: &[u16], stands: &[u16], boxes: &mut [i32])
    requires { Accepted (tabled positions.now edges.now triangles.now stands.now)
        × Boxed (tabled positions.now edges.now triangles.now stands.now) boxes.old × (walk_numbers ≤ length boxes.old) }
    ensures { Prepared (tabled positions.now edges.now triangles.now stands.now) boxes.new }
{
    let vertices = vertex_count(positions);
    let edge_parts = edge_count(edges);
    let triangle_parts = triangle_count(triangles);
    let all = vertices + edge_parts + triangle_parts;
    fill_runs(boxes, vertices, edge_parts, all);
    let behind = all + runs_of(edge_parts);
    fill_runs(boxes, vertices + edge_parts, triangle_parts, behind);
}

// The first numbers of one list, in front of another.
fn copy_numbers(from: &[i32], to: &mut [i32], count: usize)
    requires { (count ≤ length from.now) × (count ≤ length to.old) }
    ensures { CopiedUpTo from.now count to.old to.new }
{
    for k in 0..count {
        to[k] = from[k];
    }
}

// The boxes of all parts are worked out, and the runs joined behind them.
pub fn prepare(
    positions: &[i32],
    edges: &[u16],
    triangles: &[u16],
    stands: &[u16],
    boxes: &mut [i32],
)
    requires { Accepted (tabled positions.now edges.now triangles.now stands.now) × (walk_numbers ≤ length boxes.old) }
    ensures { Prepared (tabled positions.now edges.now triangles.now stands.now) boxes.new }
{
    fill(positions, edges, triangles, boxes);
    join_runs(positions, edges, triangles, stands, boxes);
}

// The same from boxes that are stored already: they are taken over, and the runs are joined from them.
pub fn prepare_stored(
    positions: &[i32],
    edges: &[u16],
    triangles: &[u16],
    stands: &[u16],
    stored: &[i32],
    boxes: &mut [i32],
)
    requires { Accepted (tabled positions.now edges.now triangles.now stands.now)
        × Boxed (tabled positions.now edges.now triangles.now stands.now) stored.now × (walk_numbers ≤ length boxes.old) }
    ensures { Prepared (tabled positions.now edges.now triangles.now stands.now) boxes.new }
{
    let taken = 6 * (vertex_count(positions) + edge_count(edges) + triangle_count(triangles));
    copy_numbers(stored, boxes, taken);
    join_runs(positions, edges, triangles, stands, boxes);
}

fn first_place(
    positions: &[i32],
    edges: &[u16],
    triangles: &[u16],
    stands: &[u16],
    kind: Kind,
    i: usize,
) -> usize
    requires { i < 65536 }
    ensures { result ≡ first_place (tabled positions.now edges.now triangles.now stands.now) kind i }
{
    match kind {
        Kind::PointTriangle => i,
        Kind::EdgeEdge => vertex_count(positions) + i,
    }
}

fn run_place(
    positions: &[i32],
    edges: &[u16],
    triangles: &[u16],
    stands: &[u16],
    kind: Kind,
    run: usize,
) -> usize
    requires { Accepted (tabled positions.now edges.now triangles.now stands.now) × (run < 65536) }
    ensures { result ≡ run_place (tabled positions.now edges.now triangles.now stands.now) kind run }
{
    let all = vertex_count(positions) + edge_count(edges) + triangle_count(triangles);
    match kind {
        Kind::PointTriangle => all + runs_of(edge_count(edges)) + run,
        Kind::EdgeEdge => all + run,
    }
}

pub(crate) fn run_meets(
    positions: &[i32],
    edges: &[u16],
    triangles: &[u16],
    stands: &[u16],
    boxes: &[i32],
    kind: Kind,
    i: usize,
    run: usize,
) -> bool
    requires { Prepared (tabled positions.now edges.now triangles.now stands.now) boxes.now
        × (i < first_count (tabled positions.now edges.now triangles.now stands.now) kind)
        × (run < runs_of (second_count (tabled positions.now edges.now triangles.now stands.now) kind)) }
    ensures { result ≡ meet_boxes (first_box (tabled positions.now edges.now triangles.now stands.now) kind i)
        (run_box (tabled positions.now edges.now triangles.now stands.now) kind run) }
{
    let first = first_place(positions, edges, triangles, stands, kind, i);
    let second = run_place(positions, edges, triangles, stands, kind, run);
    boxes_meet(boxes, first, second)
}

// The walk over the pairs that can be listed: every listed pair is counted, and entered while its number is below a bound. A first part
// that misses the joint box of a run of second parts misses all of them, so the run is skipped.

#![tactic(auto)]

pub mod skipping; // skipping.rt: boxes and runs prepared, and whether a first part meets a run
pub mod steps; // steps.rt: a pair, a run, a row, the rows

ghost use Rattle.scene_seams.specs.Alone.{tabled};
ghost use Rattle.std.specs.Prelude.{◌≤◌, ◌≡◌, length};
ghost use Rattle.meaning.specs.List.{pairs};
ghost use Rattle.meaning.specs.Runs.{box_tests};
ghost use Rattle.list_entries.specs.UpTo.{Walked};
ghost use Rattle.list_walk.specs.Skipping.{Prepared};

use meaning::Kind;
use steps::walk_rows;

// What a walk tells: the number behind the last pair that it came by, and how many boxes of the pt part it tested.
#[derive(Clone, Copy, Debug, PartialEq, Eq)]
pub struct Walk {
    pub next: usize,
    pub tests: usize,
}

// The whole list of an accepted scene whose boxes and runs are prepared, from the front of the buffer on.
pub fn walk_prepared(
    positions: &[i32],
    edges: &[u16],
    triangles: &[u16],
    stands: &[u16],
    boxes: &[i32],
    list: &mut [u32],
    most: usize,
) -> Walk
    requires { Prepared (tabled positions.now edges.now triangles.now stands.now) boxes.now × (most ≤ length list.old) }
    ensures { Walked most list.old 0 (pairs (tabled positions.now edges.now triangles.now stands.now))
        list.new result.next × (result.tests ≡ box_tests (tabled positions.now edges.now triangles.now stands.now)) }
{
    let points = walk_rows(
        positions,
        edges,
        triangles,
        stands,
        boxes,
        Kind::PointTriangle,
        list,
        most,
        0,
    );
    let all = walk_rows(
        positions,
        edges,
        triangles,
        stands,
        boxes,
        Kind::EdgeEdge,
        list,
        most,
        points.next,
    );
    Walk {
        next: all.next,
        tests: points.tests,
    }
}

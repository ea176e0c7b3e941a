// The steps of the walk. A pair and a stretch answer the number behind the last pair that they came by; a run, a row and the rows tell
// beside it how many boxes of the pt part were tested.

ghost use Rattle.scene_seams.specs.Alone.{tabled};
ghost use Rattle.std.specs.Prelude.{◌+◌, ◌/◌, ◌≤◌, ◌<◌, ◌≡◌, length};
ghost use Rattle.sequences.specs.Gather.{gather};
ghost use Rattle.meaning.specs.Runs.{run_to};
ghost use Rattle.list_entries.specs.UpTo.{Walked};
ghost use Rattle.list_candidates.specs.Rows.{first_count, second_count, candidate, row_of, rows_of};
ghost use Rattle.list_walk.specs.Skipping.{Prepared};
ghost use Rattle.list_walk.specs.Testing.{point_tests, tests_at, tests_of_row, tests_of_rows, AtRun};

use super::Walk;
use super::skipping::run_meets;
use list_candidates::{first_count, is_listed, second_count, second_from};
use list_entries::put_below;
use list_runs::run_to;
use meaning::Kind;

fn walk_one(
    positions: &[i32],
    edges: &[u16],
    triangles: &[u16],
    stands: &[u16],
    boxes: &[i32],
    kind: Kind,
    i: usize,
    j: usize,
    list: &mut [u32],
    most: usize,
    from: usize,
) -> usize
    requires prepared { Prepared (tabled positions.now edges.now triangles.now stands.now) boxes.now
        × (i < first_count (tabled positions.now edges.now triangles.now stands.now) kind)
        × (j < second_count (tabled positions.now edges.now triangles.now stands.now) kind) }
    requires most_in_bounds { (most ≤ length list.old) × (from < 4294967296) }
    ensures { Walked most list.old from
        (candidate (tabled positions.now edges.now triangles.now stands.now) kind i j) list.new result }
{
    if is_listed(positions, edges, triangles, stands, boxes, kind, i, j) {
        put_below(list, most, from, kind, i, j);
        from + 1
    } else {
        from
    }
}

// The second places from one up to another.
fn walk_stretch(
    positions: &[i32],
    edges: &[u16],
    triangles: &[u16],
    stands: &[u16],
    boxes: &[i32],
    kind: Kind,
    i: usize,
    first: usize,
    end: usize,
    list: &mut [u32],
    most: usize,
    from: usize,
) -> usize
    requires prepared { Prepared (tabled positions.now edges.now triangles.now stands.now) boxes.now
        × (i < first_count (tabled positions.now edges.now triangles.now stands.now) kind) × (first ≤ end)
        × (end ≤ second_count (tabled positions.now edges.now triangles.now stands.now) kind) }
    requires most_in_bounds { (most ≤ length list.old) × (from < 2147483648) }
    ensures { Walked most list.old from
        (gather (candidate (tabled positions.now edges.now triangles.now stands.now) kind i) first end) list.new result }
{
    let mut k = from;
    for j in first..end {
        k = walk_one(
            positions, edges, triangles, stands, boxes, kind, i, j, list, most, k,
        );
    }
    k
}

// The boxes of the pt part are counted, those of the ee part are not.
fn point_tests(kind: Kind, boxes: usize) -> usize
    ensures { result ≡ point_tests kind boxes }
{
    match kind {
        Kind::PointTriangle => boxes,
        Kind::EdgeEdge => 0,
    }
}

// From a second place on to the end of its run, or past all of it: the run's box is tested, and where it is met that of each part.
fn walk_run(
    positions: &[i32],
    edges: &[u16],
    triangles: &[u16],
    stands: &[u16],
    boxes: &[i32],
    kind: Kind,
    i: usize,
    j: usize,
    list: &mut [u32],
    most: usize,
    from: usize,
) -> Walk
    requires prepared { Prepared (tabled positions.now edges.now triangles.now stands.now) boxes.now
        × (i < first_count (tabled positions.now edges.now triangles.now stands.now) kind)
        × (j < second_count (tabled positions.now edges.now triangles.now stands.now) kind)
        × AtRun kind (second_count (tabled positions.now edges.now triangles.now stands.now) kind) j }
    requires most_in_bounds { (most ≤ length list.old) × (from < 2147483648) }
    ensures { Walked most list.old from
        (gather (candidate (tabled positions.now edges.now triangles.now stands.now) kind i) j
        (run_to (second_count (tabled positions.now edges.now triangles.now stands.now) kind) (j / 16))) list.new result.next
        × (result.tests ≡ tests_at (tabled positions.now edges.now triangles.now stands.now) kind i (j / 16)) }
{
    let run = j / 16;
    if run_meets(positions, edges, triangles, stands, boxes, kind, i, run) {
        let end = run_to(second_count(positions, edges, triangles, stands, kind), run);
        let next = walk_stretch(
            positions, edges, triangles, stands, boxes, kind, i, j, end, list, most, from,
        );
        let tests = point_tests(kind, 1 + (end - j));
        Walk { next, tests }
    } else {
        let tests = point_tests(kind, 1);
        Walk { next: from, tests }
    }
}

// All pairs of one first part, run by run: where the boxes of a run of second parts do not meet its box, none of them is looked at.
pub fn walk_row(
    positions: &[i32],
    edges: &[u16],
    triangles: &[u16],
    stands: &[u16],
    boxes: &[i32],
    kind: Kind,
    i: usize,
    list: &mut [u32],
    most: usize,
    from: usize,
) -> Walk
    requires prepared { Prepared (tabled positions.now edges.now triangles.now stands.now) boxes.now
        × (i < first_count (tabled positions.now edges.now triangles.now stands.now) kind) }
    requires most_in_bounds { (most ≤ length list.old) × (from < 1073741824) }
    ensures { Walked most list.old from (row_of (tabled positions.now edges.now triangles.now stands.now) kind i)
        list.new result.next × (result.tests ≡ tests_of_row (tabled positions.now edges.now triangles.now stands.now) kind i) }
{
    let end = second_count(positions, edges, triangles, stands, kind);
    let mut k = from;
    let mut tests = 0usize;
    let mut j = second_from(kind, i);
    // A `while`, because a turn goes on at the place that `run_to` returns: the row may begin within a run.
    while j < end {
        let run = walk_run(
            positions, edges, triangles, stands, boxes, kind, i, j, list, most, k,
        );
        k = run.next;
        tests += run.tests;
        j = run_to(end, j / 16);
    }
    Walk { next: k, tests }
}

pub(crate) fn walk_rows(
    positions: &[i32],
    edges: &[u16],
    triangles: &[u16],
    stands: &[u16],
    boxes: &[i32],
    kind: Kind,
    list: &mut [u32],
    most: usize,
    from: usize,
) -> Walk
    requires prepared { Prepared (tabled positions.now edges.now triangles.now stands.now) boxes.now }
    requires most_in_bounds { (most ≤ length list.old) × (from < 1048577) }
    ensures { Walked most list.old from (rows_of (tabled positions.now edges.now triangles.now stands.now) kind)
        list.new result.next × (result.tests ≡ tests_of_rows (tabled positions.now edges.now triangles.now stands.now) kind) }
{
    let end = first_count(positions, edges, triangles, stands, kind);
    let mut k = from;
    let mut tests = 0usize;
    for i in 0..end {
        let row = walk_row(
            positions, edges, triangles, stands, boxes, kind, i, list, most, k,
        );
        k = row.next;
        tests += row.tests;
    }
    Walk { next: k, tests }
}

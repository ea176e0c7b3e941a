// A step is told: each of its listed pairs is judged, in order, and goes into what is told of the series. The scene stands in arrays of the
// caller's own, and nothing that was lent is touched.

#![tactic(auto)]

ghost use Rattle.scene_seams.specs.Alone.{tabled};
ghost use Rattle.std.specs.Prelude.{◌≤◌, ◌<◌, ◌≡◌, length};
ghost use Rattle.meaning.specs.Scene.{Accepted};
ghost use Rattle.meaning.specs.List.{pairs};
ghost use Rattle.list_candidates.specs.Rows.{first_count, row_of, rows_of};
ghost use Rattle.list_walk.specs.Skipping.{Prepared};
ghost use Rattle.series_step.specs.Rows.{TellsPairs};

use list_candidates::first_count;
use list_walk::skipping::{WALK_NUMBERS, prepare};
use list_walk::steps::walk_row;
use list_words::{settle_entries, settle_prepared};
use meaning::{Kind, SeriesTold};
use series_words::tell_words;

// The pairs that a step's own list has room for; a longer one is told row by row.
const OWN_PAIRS: usize = 8192;

// The second places that there can be.
const ROW_PAIRS: usize = 1024;

// What is told with a step, and how many pairs it lists.
#[derive(Clone, Copy, Debug, PartialEq, Eq)]
pub struct StepTold {
    pub told: SeriesTold,
    pub count: usize,
}

// The pairs of one first place.
fn tell_row(
    positions: &[i32],
    edges: &[u16],
    triangles: &[u16],
    stands: &[u16],
    boxes: &[i32],
    kind: Kind,
    i: usize,
    step: usize,
    told: SeriesTold,
) -> SeriesTold
    requires { Prepared (tabled positions.now edges.now triangles.now stands.now) boxes.now
        × (i < first_count (tabled positions.now edges.now triangles.now stands.now) kind) }
    ensures { TellsPairs (tabled positions.now edges.now triangles.now stands.now) step
        (row_of (tabled positions.now edges.now triangles.now stands.now) kind i) told result }
{
    let mut list = [0u32; ROW_PAIRS];
    let mut bytes = [0u8; ROW_PAIRS];
    let walk = walk_row(
        positions, edges, triangles, stands, boxes, kind, i, &mut list, ROW_PAIRS, 0,
    );
    let count = walk.next;
    settle_entries(
        positions, edges, triangles, stands, &list, &mut bytes, count,
    );
    tell_words(&list, &bytes, count, step, told)
}

// The rows of one kind, one behind the other.
fn tell_rows(
    positions: &[i32],
    edges: &[u16],
    triangles: &[u16],
    stands: &[u16],
    boxes: &[i32],
    kind: Kind,
    step: usize,
    told: SeriesTold,
) -> SeriesTold
    requires { Prepared (tabled positions.now edges.now triangles.now stands.now) boxes.now }
    ensures { TellsPairs (tabled positions.now edges.now triangles.now stands.now) step
        (rows_of (tabled positions.now edges.now triangles.now stands.now) kind) told result }
{
    let end = first_count(positions, edges, triangles, stands, kind);
    let mut next = told;
    for i in 0..end {
        next = tell_row(
            positions, edges, triangles, stands, boxes, kind, i, step, next,
        );
    }
    next
}

// All pairs, row by row: no array holds them.
fn tell_all(
    positions: &[i32],
    edges: &[u16],
    triangles: &[u16],
    stands: &[u16],
    boxes: &[i32],
    step: usize,
    told: SeriesTold,
) -> SeriesTold
    requires { Prepared (tabled positions.now edges.now triangles.now stands.now) boxes.now }
    ensures { TellsPairs (tabled positions.now edges.now triangles.now stands.now) step
        (pairs (tabled positions.now edges.now triangles.now stands.now)) told result }
{
    let points = tell_rows(
        positions,
        edges,
        triangles,
        stands,
        boxes,
        Kind::PointTriangle,
        step,
        told,
    );
    tell_rows(
        positions,
        edges,
        triangles,
        stands,
        boxes,
        Kind::EdgeEdge,
        step,
        points,
    )
}

// A step whose boxes and runs are prepared.
fn tell_prepared(
    positions: &[i32],
    edges: &[u16],
    triangles: &[u16],
    stands: &[u16],
    boxes: &[i32],
    step: usize,
    told: SeriesTold,
) -> StepTold
    requires { Prepared (tabled positions.now edges.now triangles.now stands.now) boxes.now }
    ensures { TellsPairs (tabled positions.now edges.now triangles.now stands.now) step
        (pairs (tabled positions.now edges.now triangles.now stands.now)) told result.told
        × (result.count ≡ length (pairs (tabled positions.now edges.now triangles.now stands.now))) }
{
    let mut list = [0u32; OWN_PAIRS];
    let mut bytes = [0u8; OWN_PAIRS];
    match settle_prepared(
        positions, edges, triangles, stands, boxes, &mut list, &mut bytes,
    ) {
        Ok(count) => {
            let all = tell_words(&list, &bytes, count, step, told);
            StepTold { told: all, count }
        }
        Err(refused) => {
            let all = tell_all(positions, edges, triangles, stands, boxes, step, told);
            StepTold {
                told: all,
                count: refused.carries,
            }
        }
    }
}

// The step of this number, told behind what was told.
pub fn tell_step(
    positions: &[i32],
    edges: &[u16],
    triangles: &[u16],
    stands: &[u16],
    step: usize,
    told: SeriesTold,
) -> StepTold
    requires { Accepted (tabled positions.now edges.now triangles.now stands.now) }
    ensures { TellsPairs (tabled positions.now edges.now triangles.now stands.now) step
        (pairs (tabled positions.now edges.now triangles.now stands.now)) told result.told
        × (result.count ≡ length (pairs (tabled positions.now edges.now triangles.now stands.now))) }
{
    let mut boxes = [0i32; WALK_NUMBERS];
    prepare(positions, edges, triangles, stands, &mut boxes);
    tell_prepared(positions, edges, triangles, stands, &boxes, step, told)
}

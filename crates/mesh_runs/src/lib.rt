// Rows of a mesh's list in runs: rows that stand one behind the other have boxes near each other, so a tree is walked once for eight of them, with their
// joint box. Who misses that misses each of them, so that a row's pairs are among the places found. The boxes of these are spread first, so that a row of
// the run is compared with many of them at once. More than there is room for, and they go alone.

#![tactic(auto)]

ghost use Rattle.scene_seams.specs.Alone.{tabled};
ghost use Rattle.std.specs.Prelude.{◌+◌, ◌*◌, ◌-◌, ◌≤◌, ◌<◌, min, ◌&&◌, ◌≡◌, leb, length};
ghost use Rattle.sequences.specs.Gather.{gather};
ghost use Rattle.meaning.specs.StoredBoxes.{box_at};
ghost use Rattle.meaning.specs.MeshRows.{mesh_entries};
ghost use Rattle.list_boxes.specs.Kept.{meet_boxes};
ghost use Rattle.list_candidates.specs.Rows.{first_count, second_from};
ghost use Rattle.mesh_entries.specs.Entering.{Entered};
ghost use Rattle.mesh_rows.specs.Rows.{part_row};
ghost use Rattle.mesh_marks.specs.Marked.{Spread};
ghost use Rattle.mesh_runs.specs.Runs.{KindTree, Covers, Sought, AllSought, kind_entries};
ghost use Rattle.mesh_runs.specs.Taken.{Taken};
ghost use Rattle.mesh_runs.specs.Stretch.{Parted};

use list_runs::fill_runs;
use meaning::{Kind, RowPairs};
use mesh_marks::{copy_boxes, mark_met, spread_boxes, take_marked};
use mesh_rows::{enter_found, walk_row};
use mesh_seams::wide;
use mesh_walk::boxes_meet;
use mesh_walk::sixteens::find_met;

// The rows of a run, and the numbers of the run's boxes with their joint box behind 16 of them.
const RUN_ROWS: usize = 8;

const RUN_NUMBERS: usize = 102;

// The places of a run whose boxes are spread, at most.
const SPREAD_PLACES: usize = 256;

// A box that no part meets which one of these misses not.
fn join_rows(boxes: &[i32], first: usize, count: usize, own: &mut [i32])
    requires { (6 * (first + count) ≤ length boxes.now) × (0 < count) × (count ≤ 16) × (102 ≤ length own.old) }
    ensures { Covers (box_at own.new 16) boxes.now first count }
{
    copy_boxes(boxes, first, count, own);
    fill_runs(own, 0, count, 16);
}

// The first of the second parts that goes with a first one.
pub fn first_second(kind: Kind, i: usize) -> usize
    requires { i < 1073741824 }
    ensures { result ≡ second_from kind i }
{
    match kind {
        Kind::PointTriangle => 0,
        Kind::EdgeEdge => i + 1,
    }
}

// Whether a place goes with a row, and its box meets the row's.
fn is_met(boxes: &[i32], base: usize, row: usize, from: usize, j: usize) -> bool
    requires { (6 * row + 5 < length boxes.now) × (6 * (base + j) + 5 < length boxes.now) }
    ensures { result ≡ leb from j && meet_boxes (box_at boxes.now row) (box_at boxes.now (base + j)) }
{
    let met = boxes_meet(boxes, row, boxes, base + j);
    (from <= j) & met
}

// The row of one first part, by the places that were found for its run.
fn enter_sought(
    positions: &[i32],
    edges: &[u32],
    triangles: &[u32],
    stands: &[u32],
    boxes: &[i32],
    base: usize,
    which: RowPairs,
    kind: Kind,
    i: usize,
    row: usize,
    from: usize,
    places: &[u32],
    count: usize,
    list: &mut [u64],
    most: usize,
    at: usize,
) -> usize
    requires sought { Sought which (tabled positions.now edges.now triangles.now stands.now) kind i boxes.now base row from places.now count }
    requires most_in_bounds { (most ≤ length list.old) × (at < 4611686018427387904) }
    ensures { Entered most list.old at
        (mesh_entries (part_row which (tabled positions.now edges.now triangles.now stands.now) kind i)) list.new result }
{
    let mut k = at;
    for place in &places[..count] {
        let j = wide(*place);
        if is_met(boxes, base, row, from, j) {
            k = enter_found(
                positions, edges, triangles, stands, which, kind, i, j, true, list, most, k,
            );
        }
    }
    k
}

// The row of one first part, by second places that go with it and whose boxes meet its own: those that are listed are entered.
pub fn enter_seconds(
    positions: &[i32],
    edges: &[u32],
    triangles: &[u32],
    stands: &[u32],
    which: RowPairs,
    kind: Kind,
    i: usize,
    seconds: &[u32],
    count: usize,
    list: &mut [u64],
    most: usize,
    at: usize,
) -> usize
    requires taken { Taken which (tabled positions.now edges.now triangles.now stands.now) kind i seconds.now count }
    requires most_in_bounds { (most ≤ length list.old) × (at < 4611686018427387904) }
    ensures { Entered most list.old at
        (mesh_entries (part_row which (tabled positions.now edges.now triangles.now stands.now) kind i)) list.new result }
{
    let mut k = at;
    for second in &seconds[..count] {
        let j = wide(*second);
        k = enter_found(
            positions, edges, triangles, stands, which, kind, i, j, true, list, most, k,
        );
    }
    k
}

// The rows of a run, by the boxes of its places, which are spread.
fn enter_spread(
    positions: &[i32],
    edges: &[u32],
    triangles: &[u32],
    stands: &[u32],
    boxes: &[i32],
    base: usize,
    which: RowPairs,
    kind: Kind,
    offset: usize,
    first: usize,
    end: usize,
    places: &[u32],
    count: usize,
    six: &[i32],
    marks: &mut [bool],
    list: &mut [u64],
    most: usize,
    at: usize,
) -> usize
    requires all_sought { AllSought which (tabled positions.now edges.now triangles.now stands.now) kind boxes.now base offset first end places.now
        count × (first ≤ end) × (end ≤ first + 16) × (end ≤ 1073741824) × (offset ≤ 1073741824) }
    requires spread { Spread boxes.now base places.now count six.now × (count ≤ 256) × (1536 ≤ length six.now)
        × (256 ≤ length marks.old) }
    requires most_in_bounds { (most ≤ length list.old) × (at ≤ 2305843009213693952) }
    ensures { Entered most list.old at
        (gather (kind_entries which (tabled positions.now edges.now triangles.now stands.now) kind) first end) list.new result }
{
    let mut seconds = [0u32; SPREAD_PLACES];
    let mut k = at;
    for i in first..end {
        let from = first_second(kind, i);
        let row = offset + i;
        mark_met(boxes, row, six, count, marks);
        let taken = take_marked(places, count, marks, from, &mut seconds);
        k = enter_seconds(
            positions, edges, triangles, stands, which, kind, i, &seconds, taken, list, most, k,
        );
    }
    k
}

// The rows of a run, each over all its places.
fn enter_each(
    positions: &[i32],
    edges: &[u32],
    triangles: &[u32],
    stands: &[u32],
    boxes: &[i32],
    base: usize,
    which: RowPairs,
    kind: Kind,
    offset: usize,
    first: usize,
    end: usize,
    places: &[u32],
    count: usize,
    list: &mut [u64],
    most: usize,
    at: usize,
) -> usize
    requires all_sought { AllSought which (tabled positions.now edges.now triangles.now stands.now) kind boxes.now base offset first end places.now
        count × (first ≤ end) × (end ≤ first + 16) × (end ≤ 1073741824) × (offset ≤ 1073741824) }
    requires most_in_bounds { (most ≤ length list.old) × (at ≤ 2305843009213693952) }
    ensures { Entered most list.old at
        (gather (kind_entries which (tabled positions.now edges.now triangles.now stands.now) kind) first end) list.new result }
{
    let mut k = at;
    for i in first..end {
        let from = first_second(kind, i);
        k = enter_sought(
            positions,
            edges,
            triangles,
            stands,
            boxes,
            base,
            which,
            kind,
            i,
            offset + i,
            from,
            places,
            count,
            list,
            most,
            k,
        );
    }
    k
}

// The rows of a run, by the places that were found for it. What stands in `six` and `marks` afterwards is of no account.
pub fn enter_run(
    positions: &[i32],
    edges: &[u32],
    triangles: &[u32],
    stands: &[u32],
    boxes: &[i32],
    base: usize,
    which: RowPairs,
    kind: Kind,
    offset: usize,
    first: usize,
    end: usize,
    places: &[u32],
    count: usize,
    six: &mut [i32],
    marks: &mut [bool],
    list: &mut [u64],
    most: usize,
    at: usize,
) -> usize
    requires all_sought { AllSought which (tabled positions.now edges.now triangles.now stands.now) kind boxes.now base offset first end places.now
        count × (first < end) × (end ≤ first + 16) × (end ≤ 1073741824) × (offset ≤ 1073741824) }
    requires in_bounds { (1536 ≤ length six.old) × (256 ≤ length marks.old) }
    requires most_in_bounds { (most ≤ length list.old) × (at ≤ 2305843009213693952) }
    ensures { Entered most list.old at
        (gather (kind_entries which (tabled positions.now edges.now triangles.now stands.now) kind) first end) list.new result }
{
    if count <= SPREAD_PLACES {
        spread_boxes(boxes, base, places, count, six);
        enter_spread(
            positions, edges, triangles, stands, boxes, base, which, kind, offset, first, end,
            places, count, six, marks, list, most, at,
        )
    } else {
        enter_each(
            positions, edges, triangles, stands, boxes, base, which, kind, offset, first, end,
            places, count, list, most, at,
        )
    }
}

// The rows of a run, each by a walk of its own.
pub fn enter_alone(
    positions: &[i32],
    edges: &[u32],
    triangles: &[u32],
    stands: &[u32],
    boxes: &[i32],
    levels: &[usize],
    parts: usize,
    top: usize,
    which: RowPairs,
    kind: Kind,
    offset: usize,
    first: usize,
    end: usize,
    list: &mut [u64],
    most: usize,
    at: usize,
) -> usize
    requires kind_tree { KindTree (tabled positions.now edges.now triangles.now stands.now) kind boxes.now levels.now parts top offset
        × (first ≤ end) × (end ≤ first + 16) × (end ≤ first_count (tabled positions.now edges.now triangles.now stands.now) kind) }
    requires most_in_bounds { (most ≤ length list.old) × (at ≤ 2305843009213693952) }
    ensures { Entered most list.old at
        (gather (kind_entries which (tabled positions.now edges.now triangles.now stands.now) kind) first end) list.new result }
{
    let mut k = at;
    for i in first..end {
        let from = first_second(kind, i);
        k = walk_row(
            positions,
            edges,
            triangles,
            stands,
            boxes,
            levels,
            parts,
            top,
            which,
            kind,
            i,
            offset + i,
            from,
            list,
            most,
            k,
        );
    }
    k
}

// A run of rows: by the places that their joint box meets, or alone where these are more than there is room for.
fn walk_run(
    positions: &[i32],
    edges: &[u32],
    triangles: &[u32],
    stands: &[u32],
    boxes: &[i32],
    levels: &[usize],
    parts: usize,
    top: usize,
    which: RowPairs,
    kind: Kind,
    offset: usize,
    first: usize,
    end: usize,
    places: &mut [u32],
    six: &mut [i32],
    marks: &mut [bool],
    list: &mut [u64],
    most: usize,
    at: usize,
) -> usize
    requires kind_tree { KindTree (tabled positions.now edges.now triangles.now stands.now) kind boxes.now levels.now parts top offset
        × (first < end) × (end ≤ first + 16) × (end ≤ first_count (tabled positions.now edges.now triangles.now stands.now) kind) }
    requires in_bounds { (1536 ≤ length six.old) × (256 ≤ length marks.old) }
    requires most_in_bounds { (most ≤ length list.old) × (at ≤ 2305843009213693952) }
    ensures { Entered most list.old at
        (gather (kind_entries which (tabled positions.now edges.now triangles.now stands.now) kind) first end) list.new result }
{
    let mut own = [0i32; RUN_NUMBERS];
    join_rows(boxes, offset + first, end - first, &mut own);
    let from = first_second(kind, first);
    let count = find_met(&own, 16, boxes, levels, parts, top, from, places);
    if count <= places.len() {
        enter_run(
            positions, edges, triangles, stands, boxes, levels[0], which, kind, offset, first, end,
            places, count, six, marks, list, most, at,
        )
    } else {
        enter_alone(
            positions, edges, triangles, stands, boxes, levels, parts, top, which, kind, offset,
            first, end, list, most, at,
        )
    }
}

// Where the run of so many rows ends that begins with a row.
pub fn run_end(first: usize, end: usize, rows: usize) -> usize
    requires { (first < end) × (first < 1073741824) × (0 < rows) × (rows ≤ 16) }
    ensures { (first < result) × (result ≤ end) × (result ≤ first + 16) }
{
    (first + rows).min(end)
}

// The rows of a kind from one up to another, run by run: all their pairs are counted, and entered while there is room below a bound.
pub fn walk_kind(
    positions: &[i32],
    edges: &[u32],
    triangles: &[u32],
    stands: &[u32],
    boxes: &[i32],
    levels: &[usize],
    parts: usize,
    top: usize,
    which: RowPairs,
    kind: Kind,
    offset: usize,
    first: usize,
    end: usize,
    places: &mut [u32],
    six: &mut [i32],
    marks: &mut [bool],
    list: &mut [u64],
    most: usize,
    at: usize,
) -> usize
    requires kind_tree { KindTree (tabled positions.now edges.now triangles.now stands.now) kind boxes.now levels.now parts top offset
        × (first ≤ end)
        × (end ≤ first + (first_count (tabled positions.now edges.now triangles.now stands.now) kind - first)) }
    requires in_bounds { (1536 ≤ length six.old) × (256 ≤ length marks.old) }
    requires most_in_bounds { (most ≤ length list.old) × (at ≤ 1152921504606846976) }
    ensures { Entered most list.old at
        (gather (kind_entries which (tabled positions.now edges.now triangles.now stands.now) kind) first end) list.new result }
{
    let mut k = at;
    for i in (first..end).step_by(RUN_ROWS) {
        let next = (i + RUN_ROWS).min(end);
        k = walk_run(
            positions, edges, triangles, stands, boxes, levels, parts, top, which, kind, offset, i,
            next, places, six, marks, list, most, k,
        );
    }
    k
}

// Where the vertices' rows of a stretch end and the edges' begin.
pub fn kinds_meet(vertices: usize, first: usize, end: usize) -> usize
    requires { first ≤ end }
    ensures { Parted vertices first end result }
{
    vertices.clamp(first, end)
}

// An edge's number, of its row's; 0 for a row of a vertex.
pub fn behind(row: usize, vertices: usize) -> usize
    ensures { result ≡ row - vertices }
{
    row.saturating_sub(vertices)
}

// Near rows in runs: the tree is walked once for four rows, with the boxes that hold their first parts at the start and at the end, and what is far from
// these at both times is passed by. Each row then goes over the places found. More than there is room for, and the rows go alone, by swept boxes.

#![tactic(auto)]

ghost use Rattle.std.specs.Prelude.{ℕ, ◌+◌, ◌*◌, ◌-◌, ◌≤◌, ◌<◌, List, ◌≡◌, length};
ghost use Rattle.sequences.specs.Gather.{gather};
ghost use Rattle.meaning.specs.Scene.{scene_of, vertex_count, vector_at};
ghost use Rattle.meaning.specs.MeshRows.{row_count, rows_in, mesh_entries};
ghost use Rattle.meaning.specs.declared.RowPairs.TheVariants.{Near};
ghost use Rattle.list_boxes.specs.Storing.{with_span, BoxStored};
ghost use Rattle.list_candidates.specs.Rows.{first_count};
ghost use Rattle.scene_seams.specs.Alone.{tabled, only_positions};
ghost use Rattle.frame_boxes.specs.Spots.{spot_span, vertex_box_at};
ghost use Rattle.mesh_entries.specs.Entering.{Entered};
ghost use Rattle.mesh_runs.specs.Runs.{kind_entries};
ghost use Rattle.near_boxes.specs.Far.{first_box_at};
ghost use Rattle.near_runs.specs.Held.{place_box, Widened, Known, Held};
ghost use Rattle.near_runs.specs.Near.{NearKind, NearForest};

use list_boxes::kept::store_joint_box;
use meaning::{Frame, Kind, RowPairs};
use mesh_parts::{edge_count, edge_end, triangle_count};
use mesh_runs::{behind, enter_alone, enter_run, first_second, kinds_meet};
use near_walk::find_near;
use pierced_pair::places::place_of;
use scene_parts::vertex_count;

// The rows of a run: of more of them the boxes of both times are so wide on cloth that falls that too few places are far.
const RUN_ROWS: usize = 4;

// The places that there is room for, the numbers of the boxes that are spread for a run, and their marks; and the numbers of a run's boxes: that of the
// start, that of the end, and one vertex's.
const RUN_PLACES: usize = 1024;

const RUN_SIX: usize = 1536;

const RUN_MARKS: usize = 256;

const OWN_NUMBERS: usize = 18;

// A coordinate is the low and the high of a span.
fn store_spot(positions: &[i32], from: usize, own: &mut [i32], at: usize)
    requires { (from < length positions.now) × (at + 3 < length own.old) }
    ensures { own.new ≡ with_span own.old at (spot_span positions.now from) }
{
    own[at] = positions[from];
    own[at + 3] = positions[from];
}

// The box of one place, under a number.
fn store_place(positions: &[i32], from: usize, own: &mut [i32], to: usize)
    requires { (from + 2 < length positions.now) × (6 * to + 5 < length own.old) }
    ensures { BoxStored own.old to (place_box (vector_at positions.now from)) own.new }
{
    let at = 6 * to;
    store_spot(positions, from, own, at);
    store_spot(positions, from + 1, own, at + 1);
    store_spot(positions, from + 2, own, at + 2);
}

// Box `to` is widened by the place of a vertex at a time.
fn widen(positions: &[i32], frame: Frame, v: usize, own: &mut [i32], to: usize)
    requires { (v < vertex_count (only_positions positions.now)) × (v < 1073741824) × (to < 2) × (18 ≤ length own.old) }
    ensures { (e t w : List ℕ) → Widened (vertex_box_at frame (scene_of positions.now e t w) v) own.old
        own.new to }
{
    let from = place_of(frame, v);
    store_place(positions, from, own, 2);
    store_joint_box(own, to, 2, to);
}

// Box `to` is widened by the first part in place i at a time: a vertex, or an edge.
fn widen_row(
    positions: &[i32],
    edges: &[u32],
    triangles: &[u32],
    stands: &[u32],
    kind: Kind,
    frame: Frame,
    i: usize,
    own: &mut [i32],
    to: usize,
)
    requires { Known (tabled positions.now edges.now triangles.now stands.now)
        × (i < first_count (tabled positions.now edges.now triangles.now stands.now) kind) × (to < 2) × (18 ≤ length own.old) }
    ensures { Widened (first_box_at frame (tabled positions.now edges.now triangles.now stands.now) kind i) own.old
        own.new to }
{
    match kind {
        Kind::PointTriangle => widen(positions, frame, i, own, to),
        Kind::EdgeEdge => {
            let a = edge_end(edges, i, 0);
            let b = edge_end(edges, i, 1);
            widen(positions, frame, a, own, to);
            widen(positions, frame, b, own, to);
        }
    }
}

// A span that holds nothing yet: whatever it is joined with is no wider for it.
fn empty_span(own: &mut [i32], at: usize)
    requires { at + 3 < length own.old }
    ensures { length own.new ≡ length own.old }
{
    own[at] = 2147483647;
    own[at + 3] = -2147483647;
}

// A box that holds nothing yet.
fn empty_box(own: &mut [i32], at: usize)
    requires { at + 5 < length own.old }
    ensures { length own.new ≡ length own.old }
{
    empty_span(own, at);
    empty_span(own, at + 1);
    empty_span(own, at + 2);
}

// Boxes 0 and 1 become boxes that hold the first parts of a run at the start and at the end.
fn hold_run(
    positions: &[i32],
    edges: &[u32],
    triangles: &[u32],
    stands: &[u32],
    kind: Kind,
    first: usize,
    end: usize,
    own: &mut [i32],
)
    requires { Known (tabled positions.now edges.now triangles.now stands.now) × (first ≤ end)
        × (end ≤ first_count (tabled positions.now edges.now triangles.now stands.now) kind) × (18 ≤ length own.old)
        × (end ≤ 1073741824) }
    ensures { Held (tabled positions.now edges.now triangles.now stands.now) kind first end own.new
        × (length own.new ≡ length own.old) }
{
    empty_box(own, 0);
    empty_box(own, 6);
    for i in first..end {
        widen_row(
            positions,
            edges,
            triangles,
            stands,
            kind,
            Frame::Start,
            i,
            own,
            0,
        );
        widen_row(
            positions,
            edges,
            triangles,
            stands,
            kind,
            Frame::End,
            i,
            own,
            1,
        );
    }
}

// A run of near rows: by the places that are not far from their boxes, or alone where these are more than there is room for.
fn walk_run(
    positions: &[i32],
    edges: &[u32],
    triangles: &[u32],
    stands: &[u32],
    boxes: &[i32],
    levels: &[usize],
    shift: usize,
    parts: usize,
    top: usize,
    kind: Kind,
    offset: usize,
    first: usize,
    end: usize,
    places: &mut [u32],
    six: &mut [i32],
    marks: &mut [bool],
    list: &mut [u64],
    most: usize,
    at: usize,
) -> usize
    requires near_kind { NearKind (tabled positions.now edges.now triangles.now stands.now) kind boxes.now levels.now shift parts top offset
        × (first < end) × (end ≤ first + 16) × (end ≤ first_count (tabled positions.now edges.now triangles.now stands.now) kind) }
    requires in_bounds { (1536 ≤ length six.old) × (256 ≤ length marks.old) }
    requires most_in_bounds { (most ≤ length list.old) × (at ≤ 2305843009213693952) }
    ensures { Entered most list.old at
        (gather (kind_entries Near (tabled positions.now edges.now triangles.now stands.now) kind) first end) list.new result }
{
    let mut own = [0i32; OWN_NUMBERS];
    hold_run(
        positions, edges, triangles, stands, kind, first, end, &mut own,
    );
    let from = first_second(kind, first);
    let count = find_near(
        &own, positions, edges, triangles, stands, boxes, levels, shift, parts, top, kind, from,
        places,
    );
    if count <= places.len() {
        enter_run(
            positions,
            edges,
            triangles,
            stands,
            boxes,
            levels[0],
            RowPairs::Near,
            kind,
            offset,
            first,
            end,
            places,
            count,
            six,
            marks,
            list,
            most,
            at,
        )
    } else {
        enter_alone(
            positions,
            edges,
            triangles,
            stands,
            boxes,
            levels,
            parts,
            top,
            RowPairs::Near,
            kind,
            offset,
            first,
            end,
            list,
            most,
            at,
        )
    }
}

// The near rows of a kind from one up to another, run by run.
fn walk_kind(
    positions: &[i32],
    edges: &[u32],
    triangles: &[u32],
    stands: &[u32],
    boxes: &[i32],
    levels: &[usize],
    shift: usize,
    parts: usize,
    top: usize,
    kind: Kind,
    offset: usize,
    first: usize,
    end: usize,
    places: &mut [u32],
    six: &mut [i32],
    marks: &mut [bool],
    list: &mut [u64],
    most: usize,
    at: usize,
) -> usize
    requires near_kind { NearKind (tabled positions.now edges.now triangles.now stands.now) kind boxes.now levels.now shift parts top offset
        × (first ≤ end)
        × (end ≤ first + (first_count (tabled positions.now edges.now triangles.now stands.now) kind - first)) }
    requires in_bounds { (1536 ≤ length six.old) × (256 ≤ length marks.old) }
    requires most_in_bounds { (most ≤ length list.old) × (at ≤ 1152921504606846976) }
    ensures { Entered most list.old at
        (gather (kind_entries Near (tabled positions.now edges.now triangles.now stands.now) kind) first end) list.new result }
{
    let mut k = at;
    for i in (first..end).step_by(RUN_ROWS) {
        let next = (i + RUN_ROWS).min(end);
        k = walk_run(
            positions, edges, triangles, stands, boxes, levels, shift, parts, top, kind, offset, i,
            next, places, six, marks, list, most, k,
        );
    }
    k
}

// The near rows from one up to another: all their pairs are counted, and entered in front of the list while there is room below a bound.
pub fn walk_near(
    positions: &[i32],
    edges: &[u32],
    triangles: &[u32],
    stands: &[u32],
    boxes: &[i32],
    edge_levels: &[usize],
    edge_top: usize,
    triangle_levels: &[usize],
    triangle_top: usize,
    shift: usize,
    first: usize,
    end: usize,
    list: &mut [u64],
    most: usize,
) -> usize
    requires near_forest { NearForest (tabled positions.now edges.now triangles.now stands.now) boxes.now edge_levels.now triangle_levels.now
        edge_top triangle_top shift × (first ≤ end) × (end ≤ row_count (tabled positions.now edges.now triangles.now stands.now)) }
    requires most_in_bounds { most ≤ length list.old }
    ensures { Entered most list.old 0
        (mesh_entries (rows_in Near (tabled positions.now edges.now triangles.now stands.now) first end)) list.new result }
{
    let mut places = [0u32; RUN_PLACES];
    let mut six = [0i32; RUN_SIX];
    let mut marks = [false; RUN_MARKS];
    let vertices = vertex_count(positions);
    let middle = kinds_meet(vertices, first, end);
    let k = walk_kind(
        positions,
        edges,
        triangles,
        stands,
        boxes,
        triangle_levels,
        shift,
        triangle_count(triangles),
        triangle_top,
        Kind::PointTriangle,
        0,
        first,
        middle,
        &mut places,
        &mut six,
        &mut marks,
        list,
        most,
        0,
    );
    walk_kind(
        positions,
        edges,
        triangles,
        stands,
        boxes,
        edge_levels,
        shift,
        edge_count(edges),
        edge_top,
        Kind::EdgeEdge,
        vertices,
        behind(middle, vertices),
        behind(end, vertices),
        &mut places,
        &mut six,
        &mut marks,
        list,
        most,
        k,
    )
}

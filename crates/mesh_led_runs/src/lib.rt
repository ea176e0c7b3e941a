// Rows in runs where an order of the second parts is lent: rows that stand near each other are sought together. The tree stands in that order, so a walk by
// their joint box finds places of the order: each is taken to the part that it leads to, and all are sorted once a run. The boxes of these parts are spread,
// worked out from those of their vertices, and each row finds its own among them. More parts than there is room for, and the rows go alone.

#![tactic(auto)]

pub mod alone; // alone.rt: the rows of a run one by one
pub mod boxes; // boxes.rt: boxes of parts from those of their vertices
pub mod ends; // ends.rt: where a run of rows ends

ghost use Rattle.scene_seams.specs.Alone.{tabled};
ghost use Rattle.std.specs.Prelude.{ℕ, ◌+◌, ◌*◌, ◌-◌, ◌≤◌, ◌<◌, ◌≡◌, length, get_or};
ghost use Rattle.sequences.specs.Gather.{gather};
ghost use Rattle.sequences.specs.Pick.{pick};
ghost use Rattle.meaning.specs.StoredBoxes.{box_at};
ghost use Rattle.list_candidates.specs.Rows.{first_count};
ghost use Rattle.mesh_orders.specs.Orders.{Order};
ghost use Rattle.mesh_walk.specs.Steps.{Tree, box_meets};
ghost use Rattle.mesh_entries.specs.Entering.{Entered};
ghost use Rattle.mesh_runs.specs.Runs.{kind_entries};
ghost use Rattle.mesh_order_rows.specs.Led.{second_box, LedTree};
ghost use Rattle.mesh_led_runs.specs.Leading.{Leading, RunFound};
ghost use Rattle.mesh_led_runs.specs.SpreadParts.{PartsSpread};
ghost use Rattle.mesh_led_runs.specs.RunRows.{LedRun};

use alone::enter_alone;
use boxes::{join_rows, spread_parts};
use ends::{near_end, reach_of};
use meaning::{Kind, RowPairs};
use mesh_marks::{mark_met, take_marked};
use mesh_runs::{enter_seconds, first_second};
use mesh_seams::wide;
use mesh_sort::sort_front;
use mesh_walk::sixteens::find_met;

// The boxes of 16 rows, one that covers them, and one that is used on the way.
const OWN_NUMBERS: usize = 108;

// The parts of a run whose boxes are spread, at most.
const SPREAD_PARTS: usize = 256;

// One more, if it counts.
fn one_more(n: usize, more: bool) -> usize
    requires { n < 9223372036854775808 }
    ensures { result ≡ pick more (n + 1) n }
{
    if more { n + 1 } else { n }
}

// Of the first places of a list, which are places of an order, each is taken to the part to which the order leads, and those from a part on are kept in
// front. No branch: every part is stored, and counted if it is kept.
fn lead_places(order: &[u32], places: &mut [u32], met: usize, from: usize) -> usize
    requires { (met ≤ length places.old) × (met ≤ 1073741824)
        × ((c : ℕ) → c < met → get_or places.old c 0 < length order.now) }
    ensures { Leading order.now from places.old places.new met result }
{
    let mut n = 0usize;
    for c in 0..met {
        let k = wide(places[c]);
        let j = order[k];
        places[n] = j;
        n = one_more(n, from <= wide(j));
    }
    n
}

// The parts from a part on whose boxes meet box 16 of a list, in front of a lent list, in order; what stands behind them is of no account.
fn find_run(
    own: &[i32],
    boxes: &[i32],
    levels: &[usize],
    parts: usize,
    top: usize,
    order: &[u32],
    from: usize,
    places: &mut [u32],
) -> usize
    requires { Tree boxes.now levels.now parts top × Order parts order.now × (parts ≤ 1073741824)
        × (102 ≤ length own.now) × (2 * parts ≤ length places.old) }
    ensures { RunFound (box_meets (box_at own.now 16) boxes.now levels.now) order.now parts from
        places.new result }
{
    let met = find_met(own, 16, boxes, levels, parts, top, 0, places);
    let count = lead_places(order, places, met, from);
    sort_front(places, count, parts);
    count
}

// The rows of a run, each by those of the parts found that its own box meets.
fn enter_near(
    positions: &[i32],
    edges: &[u32],
    triangles: &[u32],
    stands: &[u32],
    own: &[i32],
    which: RowPairs,
    kind: Kind,
    first: usize,
    end: usize,
    places: &[u32],
    count: usize,
    six: &[i32],
    marks: &mut [bool],
    list: &mut [u64],
    most: usize,
    at: usize,
) -> usize
    requires led_run { LedRun (tabled positions.now edges.now triangles.now stands.now) kind first end own.now places.now count
        × (first ≤ end) × (end ≤ first + 16) × (end ≤ 1073741824) × (102 ≤ length own.now) }
    requires parts_spread { PartsSpread (second_box (tabled positions.now edges.now triangles.now stands.now) kind) places.now count six.now
        × (count ≤ 256) × (1536 ≤ length six.now) × (256 ≤ length marks.old) }
    requires most_in_bounds { (most ≤ length list.old) × (at ≤ 2305843009213693952) }
    ensures { Entered most list.old at
        (gather (kind_entries which (tabled positions.now edges.now triangles.now stands.now) kind) first end) list.new result }
{
    let mut seconds = [0u32; SPREAD_PARTS];
    let mut k = at;
    for i in first..end {
        let from = first_second(kind, i);
        mark_met(own, i - first, six, count, marks);
        let n = take_marked(places, count, marks, from, &mut seconds);
        k = enter_seconds(
            positions, edges, triangles, stands, which, kind, i, &seconds, n, list, most, k,
        );
    }
    k
}

// A run of rows: by the parts that their joint box meets, or alone where these are more than there is room for.
fn walk_run(
    positions: &[i32],
    edges: &[u32],
    triangles: &[u32],
    stands: &[u32],
    boxes: &[i32],
    levels: &[usize],
    parts: usize,
    top: usize,
    which: RowPairs,
    kind: Kind,
    order: &[u32],
    first: usize,
    end: usize,
    places: &mut [u32],
    six: &mut [i32],
    marks: &mut [bool],
    list: &mut [u64],
    most: usize,
    at: usize,
) -> usize
    requires led_tree { LedTree (tabled positions.now edges.now triangles.now stands.now) kind boxes.now levels.now parts top order.now
        × (first < end) × (end ≤ first + 16) × (end ≤ first_count (tabled positions.now edges.now triangles.now stands.now) kind) }
    requires parts_in_bounds { (2 * parts ≤ length places.old) × (1536 ≤ length six.old) × (256 ≤ length marks.old) }
    requires most_in_bounds { (most ≤ length list.old) × (at ≤ 2305843009213693952) }
    ensures { Entered most list.old at
        (gather (kind_entries which (tabled positions.now edges.now triangles.now stands.now) kind) first end) list.new result }
{
    let mut own = [0i32; OWN_NUMBERS];
    join_rows(edges, boxes, kind, first, end - first, &mut own);
    let from = first_second(kind, first);
    let count = find_run(&own, boxes, levels, parts, top, order, from, places);
    if count <= SPREAD_PARTS {
        spread_parts(edges, triangles, boxes, kind, places, count, six);
        enter_near(
            positions, edges, triangles, stands, &own, which, kind, first, end, places, count, six,
            marks, list, most, at,
        )
    } else {
        enter_alone(
            positions, edges, triangles, stands, boxes, levels, parts, top, which, kind, order,
            first, end, places, list, most, at,
        )
    }
}

// The rows of a kind from one up to another by a lent order, run by run: all their pairs are counted, and entered while there is room below a bound. What
// stands in `places`, `six` and `marks` afterwards is of no account.
pub fn walk_led_runs(
    positions: &[i32],
    edges: &[u32],
    triangles: &[u32],
    stands: &[u32],
    boxes: &[i32],
    levels: &[usize],
    parts: usize,
    top: usize,
    which: RowPairs,
    kind: Kind,
    order: &[u32],
    first: usize,
    end: usize,
    places: &mut [u32],
    six: &mut [i32],
    marks: &mut [bool],
    list: &mut [u64],
    most: usize,
    at: usize,
) -> usize
    requires led_tree { LedTree (tabled positions.now edges.now triangles.now stands.now) kind boxes.now levels.now parts top order.now
        × (first ≤ end)
        × (end ≤ first + (first_count (tabled positions.now edges.now triangles.now stands.now) kind - first)) }
    requires parts_in_bounds { (2 * parts ≤ length places.old) × (1536 ≤ length six.old) × (256 ≤ length marks.old) }
    requires most_in_bounds { (most ≤ length list.old) × (at ≤ 1152921504606846976) }
    ensures { Entered most list.old at
        (gather (kind_entries which (tabled positions.now edges.now triangles.now stands.now) kind) first end) list.new result }
{
    let reach = reach_of(boxes, levels, parts, top);
    let mut k = at;
    let mut i = first;
    // A `while`, because each run says where the next begins.
    while i < end {
        let next = near_end(edges, boxes, kind, i, end, reach);
        k = walk_run(
            positions, edges, triangles, stands, boxes, levels, parts, top, which, kind, order, i,
            next, places, six, marks, list, most, k,
        );
        i = next;
    }
    k
}

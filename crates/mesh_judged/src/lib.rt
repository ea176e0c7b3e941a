// A stretch of rows of a mesh, judged: all pairs are counted by their words, and those whose word is asked for are entered. In arrays of one's own first:
// where these hold all that are kept, no pair is judged twice.

#![tactic(auto)]

ghost use Rattle.scene_seams.specs.Alone.{tabled};
ghost use Rattle.std.specs.Prelude.{◌≤◌, ◌≡◌, length, take};
ghost use Rattle.sequences.specs.Wrote.{written};
ghost use Rattle.meaning.specs.MeshRows.{row_count};
ghost use Rattle.scene_checks.specs.Facts.{Sound};
ghost use Rattle.mesh_trees.specs.Forest.{Forest};
ghost use Rattle.mesh_ordered.specs.Either.{OrdersLent};
ghost use Rattle.near_either.specs.Ready.{NodesReady};
ghost use Rattle.mesh_judged.specs.Judged.{none_yet, told_of, KeptInto, KeptOwn};

use meaning::{KeptRows, RowPairs, Wanted};
use mesh_keep::Going;
use mesh_wanted::keep_stretch;
use tally::Tally;

// How many entries and words the arrays of one's own hold.
pub const OWN_ENTRIES: usize = 8192;

// Nothing is judged yet.
fn none_yet() -> Going
    ensures { result ≡ none_yet }
{
    Going {
        count: 0,
        tally: Tally {
            listed: 0,
            hits: 0,
            misses: 0,
            touches: 0,
            aparts: 0,
        },
    }
}

// What was counted, as an answer tells it.
fn told(going: Going) -> KeptRows
    ensures { result ≡ told_of going }
{
    let tally = going.tally;
    KeptRows {
        count: going.count,
        listed: tally.listed,
        hits: tally.hits,
        misses: tally.misses,
        touches: tally.touches,
        aparts: tally.aparts,
    }
}

// All pairs of the rows are judged and counted, and those that are kept are entered below a bound.
pub fn keep_into(
    positions: &[i32],
    edges: &[u32],
    triangles: &[u32],
    stands: &[u32],
    edge_order: &[u32],
    triangle_order: &[u32],
    boxes: &[i32],
    edge_levels: &[usize],
    edge_top: usize,
    triangle_levels: &[usize],
    triangle_top: usize,
    shift: usize,
    which: RowPairs,
    first: usize,
    end: usize,
    places: &mut [u32],
    wanted: Wanted,
    list: &mut [u64],
    words: &mut [u8],
    most: usize,
) -> KeptRows
    requires forest { Forest (tabled positions.now edges.now triangles.now stands.now) edge_order.now triangle_order.now boxes.now
        edge_levels.now triangle_levels.now edge_top triangle_top × (first ≤ end)
        × (end ≤ row_count (tabled positions.now edges.now triangles.now stands.now))
        × NodesReady which (tabled positions.now edges.now triangles.now stands.now) boxes.now edge_levels.now triangle_levels.now
        edge_top triangle_top shift }
    requires orders_lent { OrdersLent (tabled positions.now edges.now triangles.now stands.now) edge_order.now triangle_order.now (length places.old) }
    requires sound { Sound (tabled positions.now edges.now triangles.now stands.now) × (most ≤ length list.old)
        × (most ≤ length words.old) }
    ensures { KeptInto which wanted (tabled positions.now edges.now triangles.now stands.now) first end most list.old
        words.old list.new words.new result }
{
    let start = none_yet();
    let going = keep_stretch(
        positions,
        edges,
        triangles,
        stands,
        edge_order,
        triangle_order,
        boxes,
        edge_levels,
        edge_top,
        triangle_levels,
        triangle_top,
        shift,
        which,
        first,
        end,
        places,
        wanted,
        list,
        words,
        most,
        start,
    );
    told(going)
}

// The first entries and words of one's own, in front of the lent lists.
fn copy_kept(own: &[u64], marks: &[u8], list: &mut [u64], words: &mut [u8], count: usize)
    requires { (count ≤ length own.now) × (count ≤ length marks.now) × (count ≤ length list.old)
        × (count ≤ length words.old) }
    ensures { (list.new ≡ written (take count own.now) list.old)
        × (words.new ≡ written (take count marks.now) words.old) }
{
    for k in 0..count {
        list[k] = own[k];
        words[k] = marks[k];
    }
}

// All pairs of the rows are judged and counted. Those that are kept are written to the lent lists where these have so much room and one's own arrays hold
// all of them; else the lent lists stay as they are.
pub fn keep_own(
    positions: &[i32],
    edges: &[u32],
    triangles: &[u32],
    stands: &[u32],
    edge_order: &[u32],
    triangle_order: &[u32],
    boxes: &[i32],
    edge_levels: &[usize],
    edge_top: usize,
    triangle_levels: &[usize],
    triangle_top: usize,
    shift: usize,
    which: RowPairs,
    first: usize,
    end: usize,
    places: &mut [u32],
    wanted: Wanted,
    list: &mut [u64],
    words: &mut [u8],
    room: usize,
) -> KeptRows
    requires forest { Forest (tabled positions.now edges.now triangles.now stands.now) edge_order.now triangle_order.now boxes.now
        edge_levels.now triangle_levels.now edge_top triangle_top × (first ≤ end)
        × (end ≤ row_count (tabled positions.now edges.now triangles.now stands.now))
        × NodesReady which (tabled positions.now edges.now triangles.now stands.now) boxes.now edge_levels.now triangle_levels.now
        edge_top triangle_top shift }
    requires orders_lent { OrdersLent (tabled positions.now edges.now triangles.now stands.now) edge_order.now triangle_order.now (length places.old) }
    requires sound { Sound (tabled positions.now edges.now triangles.now stands.now) × (room ≤ length list.old)
        × (room ≤ length words.old) }
    ensures { KeptOwn which wanted (tabled positions.now edges.now triangles.now stands.now) first end 8192 room
        list.old words.old list.new words.new result }
{
    let mut own = [0u64; OWN_ENTRIES];
    let mut marks = [0u8; OWN_ENTRIES];
    let counted = keep_into(
        positions,
        edges,
        triangles,
        stands,
        edge_order,
        triangle_order,
        boxes,
        edge_levels,
        edge_top,
        triangle_levels,
        triangle_top,
        shift,
        which,
        first,
        end,
        places,
        wanted,
        &mut own,
        &mut marks,
        OWN_ENTRIES,
    );
    if counted.count <= room.min(OWN_ENTRIES) {
        copy_kept(&own, &marks, list, words, counted.count);
    }
    counted
}

// A stretch of rows of a mesh whose seams stand in a table: the scratch is prepared, the rows are walked, and their entries are written where there is room
// for all of them. Nothing is written to the list before that is known: until then they are held in scratch, and where that is too short for them they are
// walked again. Near rows of cloth that falls go by nodes of both times where the scratch has room for these.

#![tactic(auto)]

ghost use Rattle.scene_seams.specs.Alone.{tabled};
ghost use Rattle.std.specs.Prelude.{◌+◌, ◌*◌, ◌≤◌, ◌<◌, true, ◌≡◌, length};
ghost use Rattle.meaning.specs.MeshRows.{row_count, rows_in, mesh_entries};
ghost use Rattle.mesh_trees.specs.Planting.{Plantable};
ghost use Rattle.mesh_trees.specs.Forest.{Forest};
ghost use Rattle.mesh_entries.specs.Entering.{Entered};
ghost use Rattle.mesh_ordered.specs.Either.{OrdersLent, OrdersRoomed};
ghost use Rattle.near_either.specs.Ready.{NodesReady};
ghost use Rattle.mesh_stretch.specs.Stretching.{IsRowCount, StretchListed};
ghost use Rattle.mesh_stretch.specs.Holding.{KeptFrom, BlockHeld, RowsHeld};

use meaning::{Refusal, Refused, RowPairs};
use mesh_held::{Walked, hold_walked, take_held};
use mesh_trees::plant;
use near_either::{plant_nodes, walk_ready};

// Where a level of a tree begins and how many nodes it has, for each of its levels.
const LEVEL_NUMBERS: usize = 34;

// The pairs that there is room for in a block of rows; and cloth is thin, or thick, where a row has fewer than these, or not fewer.
const BLOCK_PAIRS: usize = 4096;

const THIN: usize = 32;

const THICK: usize = 256;

// How many pairs the rows have, by a walk that enters none.
fn count_grown(
    positions: &[i32],
    edges: &[u32],
    triangles: &[u32],
    stands: &[u32],
    edge_order: &[u32],
    triangle_order: &[u32],
    boxes: &[i32],
    edge_levels: &[usize],
    edge_top: usize,
    triangle_levels: &[usize],
    triangle_top: usize,
    shift: usize,
    which: RowPairs,
    first: usize,
    end: usize,
    places: &mut [u32],
) -> usize
    requires forest { Forest (tabled positions.now edges.now triangles.now stands.now) edge_order.now triangle_order.now boxes.now
        edge_levels.now triangle_levels.now edge_top triangle_top × (first ≤ end)
        × (end ≤ row_count (tabled positions.now edges.now triangles.now stands.now))
        × NodesReady which (tabled positions.now edges.now triangles.now stands.now) boxes.now edge_levels.now triangle_levels.now
        edge_top triangle_top shift }
    requires orders_lent { OrdersLent (tabled positions.now edges.now triangles.now stands.now) edge_order.now triangle_order.now (length places.old) }
    ensures { IsRowCount which (tabled positions.now edges.now triangles.now stands.now) first end result }
{
    let mut none = [0u64; 0];
    walk_ready(
        positions,
        edges,
        triangles,
        stands,
        edge_order,
        triangle_order,
        boxes,
        edge_levels,
        edge_top,
        triangle_levels,
        triangle_top,
        shift,
        which,
        first,
        end,
        places,
        &mut none,
        0,
    )
}

// Where the block ends that begins with a row.
fn block_end(first: usize, end: usize, rows: usize) -> usize
    requires { (first < end) × (end ≤ 4294967296) × (0 < rows) × (rows ≤ 64) }
    ensures { (first < result) × (result ≤ end) }
{
    (first + rows).min(end)
}

// The rows of the next block, by the pairs that the last one had: on thin cloth a block of many rows saves calls, on thick cloth it would have more pairs than
// there is room for.
fn block_rows(rows: usize, pairs: usize) -> usize
    requires { rows ≤ 4294967296 }
    ensures { (0 < result) × (result ≤ 64) }
{
    if pairs < THIN * rows {
        return 64;
    }
    if pairs < THICK * rows { 8 } else { 2 }
}

// A block of rows is walked in the front of the scratch; what is held behind it stays.
fn walk_block(
    positions: &[i32],
    edges: &[u32],
    triangles: &[u32],
    stands: &[u32],
    edge_order: &[u32],
    triangle_order: &[u32],
    boxes: &[i32],
    edge_levels: &[usize],
    edge_top: usize,
    triangle_levels: &[usize],
    triangle_top: usize,
    shift: usize,
    which: RowPairs,
    first: usize,
    end: usize,
    places: &mut [u32],
    front: usize,
    own: &mut [u64],
) -> usize
    requires forest { Forest (tabled positions.now edges.now triangles.now stands.now) edge_order.now triangle_order.now boxes.now
        edge_levels.now triangle_levels.now edge_top triangle_top × (first ≤ end)
        × (end ≤ row_count (tabled positions.now edges.now triangles.now stands.now))
        × NodesReady which (tabled positions.now edges.now triangles.now stands.now) boxes.now edge_levels.now triangle_levels.now
        edge_top triangle_top shift }
    requires orders_roomed { OrdersRoomed (tabled positions.now edges.now triangles.now stands.now) edge_order.now triangle_order.now front
        × (front ≤ length places.old) × (4096 ≤ length own.old) }
    ensures { Entered 4096 own.old 0 (mesh_entries (rows_in which (tabled positions.now edges.now triangles.now stands.now) first end))
        own.new result × KeptFrom front places.old places.new }
{
    walk_ready(
        positions,
        edges,
        triangles,
        stands,
        edge_order,
        triangle_order,
        boxes,
        edge_levels,
        edge_top,
        triangle_levels,
        triangle_top,
        shift,
        which,
        first,
        end,
        &mut places[..front],
        own,
        BLOCK_PAIRS,
    )
}

// A block of rows is walked and counted, and held behind the rows before it.
fn hold_block(
    positions: &[i32],
    edges: &[u32],
    triangles: &[u32],
    stands: &[u32],
    edge_order: &[u32],
    triangle_order: &[u32],
    boxes: &[i32],
    edge_levels: &[usize],
    edge_top: usize,
    triangle_levels: &[usize],
    triangle_top: usize,
    shift: usize,
    which: RowPairs,
    first: usize,
    end: usize,
    places: &mut [u32],
    front: usize,
    own: &mut [u64],
    before: Walked,
) -> Walked
    requires forest { Forest (tabled positions.now edges.now triangles.now stands.now) edge_order.now triangle_order.now boxes.now
        edge_levels.now triangle_levels.now edge_top triangle_top × (first ≤ end)
        × (end ≤ row_count (tabled positions.now edges.now triangles.now stands.now))
        × NodesReady which (tabled positions.now edges.now triangles.now stands.now) boxes.now edge_levels.now triangle_levels.now
        edge_top triangle_top shift }
    requires orders_roomed { OrdersRoomed (tabled positions.now edges.now triangles.now stands.now) edge_order.now triangle_order.now front
        × (front ≤ length places.old) × (4096 ≡ length own.old) × (before.count < 4611686018427387904)
        × (before.held ≡ true → front + 2 * before.count ≤ length places.old) }
    ensures { BlockHeld which (tabled positions.now edges.now triangles.now stands.now) first end places.old places.new front
        before result }
{
    let more = walk_block(
        positions,
        edges,
        triangles,
        stands,
        edge_order,
        triangle_order,
        boxes,
        edge_levels,
        edge_top,
        triangle_levels,
        triangle_top,
        shift,
        which,
        first,
        end,
        places,
        front,
        own,
    );
    let held = hold_walked(own, more, before.held, places, front + 2 * before.count);
    Walked {
        count: before.count + more,
        held,
    }
}

// The rows are walked once, block by block, and what they have is counted, and held behind the front of the scratch while there is room for it.
fn hold_rows(
    positions: &[i32],
    edges: &[u32],
    triangles: &[u32],
    stands: &[u32],
    edge_order: &[u32],
    triangle_order: &[u32],
    boxes: &[i32],
    edge_levels: &[usize],
    edge_top: usize,
    triangle_levels: &[usize],
    triangle_top: usize,
    shift: usize,
    which: RowPairs,
    first: usize,
    end: usize,
    places: &mut [u32],
    front: usize,
) -> Walked
    requires forest { Forest (tabled positions.now edges.now triangles.now stands.now) edge_order.now triangle_order.now boxes.now
        edge_levels.now triangle_levels.now edge_top triangle_top × (first ≤ end)
        × (end ≤ row_count (tabled positions.now edges.now triangles.now stands.now))
        × NodesReady which (tabled positions.now edges.now triangles.now stands.now) boxes.now edge_levels.now triangle_levels.now
        edge_top triangle_top shift }
    requires orders_roomed { OrdersRoomed (tabled positions.now edges.now triangles.now stands.now) edge_order.now triangle_order.now front
        × (front ≤ length places.old) }
    ensures { RowsHeld which (tabled positions.now edges.now triangles.now stands.now) first end places.new front result.count result.held }
{
    let mut own = [0u64; BLOCK_PAIRS];
    let mut so_far = Walked {
        count: 0,
        held: true,
    };
    let mut rows = 2usize;
    let mut row = first;
    // A `while`: a `for` would be no plainer, because each block tells where the next one begins and how many rows it has.
    while row < end {
        let next = block_end(row, end, rows);
        let walked = hold_block(
            positions,
            edges,
            triangles,
            stands,
            edge_order,
            triangle_order,
            boxes,
            edge_levels,
            edge_top,
            triangle_levels,
            triangle_top,
            shift,
            which,
            row,
            next,
            places,
            front,
            &mut own,
            so_far,
        );
        rows = block_rows(next - row, walked.count - so_far.count);
        so_far = walked;
        row = next;
    }
    so_far
}

// The rows are walked, and their entries written where there is room: from where they are held, or by another walk.
fn list_grown(
    positions: &[i32],
    edges: &[u32],
    triangles: &[u32],
    stands: &[u32],
    edge_order: &[u32],
    triangle_order: &[u32],
    boxes: &[i32],
    edge_levels: &[usize],
    edge_top: usize,
    triangle_levels: &[usize],
    triangle_top: usize,
    shift: usize,
    which: RowPairs,
    first: usize,
    end: usize,
    places: &mut [u32],
    list: &mut [u64],
    room: usize,
) -> Result<usize, Refused>
    requires forest { Forest (tabled positions.now edges.now triangles.now stands.now) edge_order.now triangle_order.now boxes.now
        edge_levels.now triangle_levels.now edge_top triangle_top × (first ≤ end)
        × (end ≤ row_count (tabled positions.now edges.now triangles.now stands.now))
        × NodesReady which (tabled positions.now edges.now triangles.now stands.now) boxes.now edge_levels.now triangle_levels.now
        edge_top triangle_top shift }
    requires orders_lent { OrdersLent (tabled positions.now edges.now triangles.now stands.now) edge_order.now triangle_order.now (length places.old) }
    requires room_in_bounds { room ≤ length list.old }
    ensures { StretchListed which (tabled positions.now edges.now triangles.now stands.now) first end room list.old
        list.new result }
{
    let front = 2 * (edge_order.len() + triangle_order.len());
    let walked = hold_rows(
        positions,
        edges,
        triangles,
        stands,
        edge_order,
        triangle_order,
        boxes,
        edge_levels,
        edge_top,
        triangle_levels,
        triangle_top,
        shift,
        which,
        first,
        end,
        places,
        front,
    );
    let count = walked.count;
    if room < count {
        return Err(Refused {
            why: Refusal::NoRoom,
            carries: count,
        });
    }
    if walked.held {
        take_held(places, front, count, list);
        return Ok(count);
    }
    walk_ready(
        positions,
        edges,
        triangles,
        stands,
        edge_order,
        triangle_order,
        boxes,
        edge_levels,
        edge_top,
        triangle_levels,
        triangle_top,
        shift,
        which,
        first,
        end,
        places,
        list,
        room,
    );
    Ok(count)
}

// How many pairs a stretch of rows has.
pub fn count_stretch(
    positions: &[i32],
    edges: &[u32],
    triangles: &[u32],
    stands: &[u32],
    edge_order: &[u32],
    triangle_order: &[u32],
    places: &mut [u32],
    boxes: &mut [i32],
    which: RowPairs,
    first: usize,
    end: usize,
) -> usize
    requires plantable { Plantable (tabled positions.now edges.now triangles.now stands.now) boxes.old × (first ≤ end)
        × (end ≤ row_count (tabled positions.now edges.now triangles.now stands.now)) }
    requires orders_lent { OrdersLent (tabled positions.now edges.now triangles.now stands.now) edge_order.now triangle_order.now (length places.old) }
    ensures { IsRowCount which (tabled positions.now edges.now triangles.now stands.now) first end result }
{
    let mut edge_levels = [0usize; LEVEL_NUMBERS];
    let mut triangle_levels = [0usize; LEVEL_NUMBERS];
    let shift = plant_nodes(
        positions,
        edges,
        triangles,
        edge_order,
        triangle_order,
        boxes,
        which,
    );
    let tops = plant(
        positions,
        edges,
        triangles,
        edge_order,
        triangle_order,
        boxes,
        &mut edge_levels,
        &mut triangle_levels,
    );
    count_grown(
        positions,
        edges,
        triangles,
        stands,
        edge_order,
        triangle_order,
        boxes,
        &edge_levels,
        tops.edges,
        &triangle_levels,
        tops.triangles,
        shift,
        which,
        first,
        end,
        places,
    )
}

// The entries of a stretch of rows, in front of a lent list with so much room; 7 with their count where they are more.
pub fn list_stretch(
    positions: &[i32],
    edges: &[u32],
    triangles: &[u32],
    stands: &[u32],
    edge_order: &[u32],
    triangle_order: &[u32],
    places: &mut [u32],
    boxes: &mut [i32],
    which: RowPairs,
    first: usize,
    end: usize,
    list: &mut [u64],
    room: usize,
) -> Result<usize, Refused>
    requires plantable { Plantable (tabled positions.now edges.now triangles.now stands.now) boxes.old × (first ≤ end)
        × (end ≤ row_count (tabled positions.now edges.now triangles.now stands.now)) }
    requires orders_lent { OrdersLent (tabled positions.now edges.now triangles.now stands.now) edge_order.now triangle_order.now (length places.old) }
    requires room_in_bounds { room ≤ length list.old }
    ensures { StretchListed which (tabled positions.now edges.now triangles.now stands.now) first end room list.old
        list.new result }
{
    let mut edge_levels = [0usize; LEVEL_NUMBERS];
    let mut triangle_levels = [0usize; LEVEL_NUMBERS];
    let shift = plant_nodes(
        positions,
        edges,
        triangles,
        edge_order,
        triangle_order,
        boxes,
        which,
    );
    let tops = plant(
        positions,
        edges,
        triangles,
        edge_order,
        triangle_order,
        boxes,
        &mut edge_levels,
        &mut triangle_levels,
    );
    list_grown(
        positions,
        edges,
        triangles,
        stands,
        edge_order,
        triangle_order,
        boxes,
        &edge_levels,
        tops.edges,
        &triangle_levels,
        tops.triangles,
        shift,
        which,
        first,
        end,
        places,
        list,
        room,
    )
}

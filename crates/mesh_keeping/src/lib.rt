// Of a stretch of rows of a mesh the pairs whose words are asked for, in one call: their entries, a byte for the word of each, and the counts of all words.
// Nothing is written to the lent lists before it is known that they have room for all that are kept.

#![tactic(auto)]

ghost use Rattle.scene_seams.specs.Alone.{tabled};
ghost use Rattle.meaning.specs.Scene.{scene_of};
ghost use Rattle.std.specs.Prelude.{◌≤◌, length};
ghost use Rattle.meaning.specs.MeshRows.{lent_of, row_count, RowsKept};
ghost use Rattle.scene_checks.specs.Facts.{Sound};
ghost use Rattle.mesh_trees.specs.Planting.{Plantable};
ghost use Rattle.mesh_trees.specs.Forest.{Forest};
ghost use Rattle.mesh_ordered.specs.Either.{OrdersLent};
ghost use Rattle.near_either.specs.Ready.{NodesReady};
ghost use Rattle.mesh_keeping.specs.Kept.{StretchKept};

use meaning::{KeptRows, Refusal, Refused, RowPairs, Wanted};
use mesh_asked::{ask_rows, row_count};
use mesh_judged::{OWN_ENTRIES, keep_into, keep_own};
use mesh_trees::plant;
use near_either::plant_nodes;

// Where a level of a tree begins and how many nodes it has, for each of its levels.
const LEVEL_NUMBERS: usize = 34;

// All pairs are judged once, and again where there is room and more are kept than one's own arrays hold.
fn keep_grown(
    positions: &[i32],
    edges: &[u32],
    triangles: &[u32],
    stands: &[u32],
    edge_order: &[u32],
    triangle_order: &[u32],
    boxes: &[i32],
    edge_levels: &[usize],
    edge_top: usize,
    triangle_levels: &[usize],
    triangle_top: usize,
    shift: usize,
    which: RowPairs,
    first: usize,
    end: usize,
    places: &mut [u32],
    wanted: Wanted,
    list: &mut [u64],
    words: &mut [u8],
    room: usize,
) -> Result<KeptRows, Refused>
    requires forest { Forest (tabled positions.now edges.now triangles.now stands.now) edge_order.now triangle_order.now boxes.now
        edge_levels.now triangle_levels.now edge_top triangle_top × (first ≤ end)
        × (end ≤ row_count (tabled positions.now edges.now triangles.now stands.now))
        × NodesReady which (tabled positions.now edges.now triangles.now stands.now) boxes.now edge_levels.now triangle_levels.now
        edge_top triangle_top shift }
    requires orders_lent { OrdersLent (tabled positions.now edges.now triangles.now stands.now) edge_order.now triangle_order.now (length places.old) }
    requires sound { Sound (tabled positions.now edges.now triangles.now stands.now) × (room ≤ length list.old)
        × (room ≤ length words.old) }
    ensures { StretchKept which wanted (tabled positions.now edges.now triangles.now stands.now) first end room list.old
        list.new words.old words.new result }
{
    let counted = keep_own(
        positions,
        edges,
        triangles,
        stands,
        edge_order,
        triangle_order,
        boxes,
        edge_levels,
        edge_top,
        triangle_levels,
        triangle_top,
        shift,
        which,
        first,
        end,
        places,
        wanted,
        list,
        words,
        room,
    );
    if room < counted.count {
        return Err(Refused {
            why: Refusal::NoRoom,
            carries: counted.count,
        });
    }
    if counted.count <= OWN_ENTRIES {
        return Ok(counted);
    }
    let kept = keep_into(
        positions,
        edges,
        triangles,
        stands,
        edge_order,
        triangle_order,
        boxes,
        edge_levels,
        edge_top,
        triangle_levels,
        triangle_top,
        shift,
        which,
        first,
        end,
        places,
        wanted,
        list,
        words,
        room,
    );
    Ok(kept)
}

// Of a mesh whose seams stand in a table, in lists with so much room: the scratch is prepared, and 7 carries the count of those that would be kept.
pub fn keep_there(
    positions: &[i32],
    edges: &[u32],
    triangles: &[u32],
    stands: &[u32],
    edge_order: &[u32],
    triangle_order: &[u32],
    places: &mut [u32],
    boxes: &mut [i32],
    which: RowPairs,
    wanted: Wanted,
    first: usize,
    end: usize,
    list: &mut [u64],
    words: &mut [u8],
    room: usize,
) -> Result<KeptRows, Refused>
    requires plantable { Plantable (tabled positions.now edges.now triangles.now stands.now) boxes.old × (first ≤ end)
        × (end ≤ row_count (tabled positions.now edges.now triangles.now stands.now)) }
    requires orders_lent { OrdersLent (tabled positions.now edges.now triangles.now stands.now) edge_order.now triangle_order.now (length places.old) }
    requires sound { Sound (tabled positions.now edges.now triangles.now stands.now) × (room ≤ length list.old)
        × (room ≤ length words.old) }
    ensures { StretchKept which wanted (tabled positions.now edges.now triangles.now stands.now) first end room list.old
        list.new words.old words.new result }
{
    let mut edge_levels = [0usize; LEVEL_NUMBERS];
    let mut triangle_levels = [0usize; LEVEL_NUMBERS];
    let shift = plant_nodes(
        positions,
        edges,
        triangles,
        edge_order,
        triangle_order,
        boxes,
        which,
    );
    let tops = plant(
        positions,
        edges,
        triangles,
        edge_order,
        triangle_order,
        boxes,
        &mut edge_levels,
        &mut triangle_levels,
    );
    keep_grown(
        positions,
        edges,
        triangles,
        stands,
        edge_order,
        triangle_order,
        boxes,
        &edge_levels,
        tops.edges,
        &triangle_levels,
        tops.triangles,
        shift,
        which,
        first,
        end,
        places,
        wanted,
        list,
        words,
        room,
    )
}

// Of the pairs of the rows from one up to another those whose words are asked for: their entries in front of a lent list, and their words in front of
// another; 7 where the smaller of the two has not room for all that are kept. What lies behind is unchanged.
pub fn keep_rows(
    positions: &[i32],
    edges: &[u32],
    triangles: &[u32],
    seams: &[u32],
    edge_order: &[u32],
    triangle_order: &[u32],
    table: &mut [u32],
    places: &mut [u32],
    boxes: &mut [i32],
    which: RowPairs,
    wanted: Wanted,
    first: usize,
    end: usize,
    list: &mut [u64],
    words: &mut [u8],
) -> Result<KeptRows, Refused>
    ensures { RowsKept which wanted (scene_of positions.now edges.now triangles.now seams.now)
        (lent_of edge_order.now triangle_order.now (length table.old) (length places.old) (length boxes.old)) first end list.old list.new
        words.old words.new result }
{
    let rows = row_count(positions, edges);
    let lent = boxes.len();
    ask_rows(
        positions,
        edges,
        triangles,
        seams,
        edge_order,
        triangle_order,
        table,
        places,
        lent,
        rows,
        first,
        end,
    )?;
    let room = list.len().min(words.len());
    keep_there(
        positions,
        edges,
        triangles,
        table,
        edge_order,
        triangle_order,
        places,
        boxes,
        which,
        wanted,
        first,
        end,
        list,
        words,
        room,
    )
}

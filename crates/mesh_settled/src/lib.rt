// A stretch of rows of a mesh, listed and judged in one call: the entries of its pairs and a byte for the word of each.

#![tactic(auto)]

ghost use Rattle.scene_seams.specs.Alone.{tabled};
ghost use Rattle.meaning.specs.Scene.{scene_of};
ghost use Rattle.std.specs.Prelude.{◌≤◌, min, length};
ghost use Rattle.meaning.specs.MeshRows.{lent_of, row_count, RowsSettled};
ghost use Rattle.scene_checks.specs.Facts.{Sound};
ghost use Rattle.mesh_trees.specs.Planting.{Plantable};
ghost use Rattle.mesh_ordered.specs.Either.{OrdersLent};
ghost use Rattle.mesh_settled.specs.Settling.{SettledThere};

use meaning::{Refused, RowPairs};
use mesh_asked::{ask_rows, row_count};
use mesh_stretch::list_stretch;
use mesh_words::settle_mesh_entries;

// Of an accepted mesh whose seams stand in a table.
fn settle_there(
    positions: &[i32],
    edges: &[u32],
    triangles: &[u32],
    stands: &[u32],
    edge_order: &[u32],
    triangle_order: &[u32],
    places: &mut [u32],
    boxes: &mut [i32],
    which: RowPairs,
    first: usize,
    end: usize,
    list: &mut [u64],
    words: &mut [u8],
) -> Result<usize, Refused>
    requires plantable { Plantable (tabled positions.now edges.now triangles.now stands.now) boxes.old × (first ≤ end)
        × (end ≤ row_count (tabled positions.now edges.now triangles.now stands.now)) }
    requires orders_lent { OrdersLent (tabled positions.now edges.now triangles.now stands.now) edge_order.now triangle_order.now (length places.old) }
    requires sound { Sound (tabled positions.now edges.now triangles.now stands.now) }
    ensures { SettledThere which (tabled positions.now edges.now triangles.now stands.now) first end
        (min (length list.old) (length words.old)) list.old list.new words.old
        words.new result }
{
    let room = list.len().min(words.len());
    let count = list_stretch(
        positions,
        edges,
        triangles,
        stands,
        edge_order,
        triangle_order,
        places,
        boxes,
        which,
        first,
        end,
        list,
        room,
    )?;
    settle_mesh_entries(positions, edges, triangles, stands, list, words, count);
    Ok(count)
}

// The entries of the pairs of the rows from one up to another, in front of a lent list, and their words in front of another; 7 where the smaller of the two
// has not room for all of them. What lies behind is unchanged.
pub fn settle_rows(
    positions: &[i32],
    edges: &[u32],
    triangles: &[u32],
    seams: &[u32],
    edge_order: &[u32],
    triangle_order: &[u32],
    table: &mut [u32],
    places: &mut [u32],
    boxes: &mut [i32],
    which: RowPairs,
    first: usize,
    end: usize,
    list: &mut [u64],
    words: &mut [u8],
) -> Result<usize, Refused>
    ensures { RowsSettled which (scene_of positions.now edges.now triangles.now seams.now)
        (lent_of edge_order.now triangle_order.now (length table.old) (length places.old) (length boxes.old)) first end list.old list.new
        words.old words.new result }
{
    let rows = row_count(positions, edges);
    let lent = boxes.len();
    ask_rows(
        positions,
        edges,
        triangles,
        seams,
        edge_order,
        triangle_order,
        table,
        places,
        lent,
        rows,
        first,
        end,
    )?;
    settle_there(
        positions,
        edges,
        triangles,
        table,
        edge_order,
        triangle_order,
        places,
        boxes,
        which,
        first,
        end,
        list,
        words,
    )
}

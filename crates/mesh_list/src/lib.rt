// The list of a mesh of any size, a stretch of rows at a time: checked, counted, and listed where there is room. 7 comes last, carries the count that the
// stretch needs, and nothing is written to the list before it is known that all of it fits.

#![tactic(auto)]

ghost use Rattle.meaning.specs.Scene.{scene_of};
ghost use Rattle.std.specs.Prelude.{length, [], ◌≡◌};
ghost use Rattle.meaning.specs.MeshRows.{lent_of, RowsCounted, RowsListed};

use meaning::{Refused, RowPairs};
use mesh_asked::{ask_rows, row_count};
use mesh_stretch::{count_stretch, list_stretch};

// How many pairs the rows from one up to another have: all that are listed, or the near ones.
pub fn count_rows(
    positions: &[i32],
    edges: &[u32],
    triangles: &[u32],
    seams: &[u32],
    edge_order: &[u32],
    triangle_order: &[u32],
    table: &mut [u32],
    places: &mut [u32],
    boxes: &mut [i32],
    which: RowPairs,
    first: usize,
    end: usize,
) -> Result<usize, Refused>
    ensures { RowsCounted which (scene_of positions.now edges.now triangles.now seams.now)
        (lent_of edge_order.now triangle_order.now (length table.old) (length places.old) (length boxes.old)) first end result }
{
    let rows = row_count(positions, edges);
    let lent = boxes.len();
    ask_rows(
        positions,
        edges,
        triangles,
        seams,
        edge_order,
        triangle_order,
        table,
        places,
        lent,
        rows,
        first,
        end,
    )?;
    Ok(count_stretch(
        positions,
        edges,
        triangles,
        table,
        edge_order,
        triangle_order,
        places,
        boxes,
        which,
        first,
        end,
    ))
}

// The entries of these pairs, in front of a lent list; the rest of it is unchanged.
pub fn list_rows(
    positions: &[i32],
    edges: &[u32],
    triangles: &[u32],
    seams: &[u32],
    edge_order: &[u32],
    triangle_order: &[u32],
    table: &mut [u32],
    places: &mut [u32],
    boxes: &mut [i32],
    which: RowPairs,
    first: usize,
    end: usize,
    list: &mut [u64],
) -> Result<usize, Refused>
    ensures { RowsListed which (scene_of positions.now edges.now triangles.now seams.now)
        (lent_of edge_order.now triangle_order.now (length table.old) (length places.old) (length boxes.old)) first end list.old list.new result }
{
    let rows = row_count(positions, edges);
    let lent = boxes.len();
    ask_rows(
        positions,
        edges,
        triangles,
        seams,
        edge_order,
        triangle_order,
        table,
        places,
        lent,
        rows,
        first,
        end,
    )?;
    let room = list.len();
    list_stretch(
        positions,
        edges,
        triangles,
        table,
        edge_order,
        triangle_order,
        places,
        boxes,
        which,
        first,
        end,
        list,
        room,
    )
}

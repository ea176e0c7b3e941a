// Which edges of a mesh of any size are through a triangle at the start, or at the end, a stretch of edges at a time: checked, counted, and listed where there
// is room. 7 comes last and carries the count, and nothing is written to the list before it is known that all of it fits.

#![tactic(auto)]

ghost use Rattle.std.specs.Prelude.{length};
ghost use Rattle.meaning.specs.MeshRows.{lent_of};
ghost use Rattle.meaning.specs.Scene.{scene_of};
ghost use Rattle.meaning.specs.PiercedRows.{PiercedListed};

use meaning::{Frame, Refused};
use mesh_asked::ask_rows;
use mesh_parts::edge_count;
use pierced_walk::stretch::list_through;

// The entries of the edges from one up to another and of the triangles that they are through at that time, in front of a lent list; the rest of it is
// unchanged. Asked are edges and triangles without a shared vertex: any other that is not listed is not pierced. Orders are checked, and no walk needs them.
pub fn pierced_rows(
    positions: &[i32],
    edges: &[u32],
    triangles: &[u32],
    seams: &[u32],
    edge_order: &[u32],
    triangle_order: &[u32],
    table: &mut [u32],
    places: &mut [u32],
    boxes: &mut [i32],
    frame: Frame,
    first: usize,
    end: usize,
    list: &mut [u64],
) -> Result<usize, Refused>
    ensures { PiercedListed frame (scene_of positions.now edges.now triangles.now seams.now)
        (lent_of edge_order.now triangle_order.now (length table.old) (length places.old) (length boxes.old)) first end list.old list.new result }
{
    let rows = edge_count(edges);
    let lent = boxes.len();
    ask_rows(
        positions,
        edges,
        triangles,
        seams,
        edge_order,
        triangle_order,
        table,
        places,
        lent,
        rows,
        first,
        end,
    )?;
    let room = list.len();
    list_through(
        positions, edges, triangles, table, frame, boxes, first, end, list, room,
    )
}

// Rows of a mesh are asked for: 12 for what is lent, 1, 2, 3, 15 and 4 for the mesh, 18 for the orders, 5 for the rows, each before the next. Every call over
// rows begins with this, and what else it refuses comes behind it.

#![tactic(auto)]

ghost use Rattle.std.specs.Prelude.{◌≤◌, [], ◌≡◌, length};
ghost use Rattle.meaning.specs.Scene.{scene_of, edge_count, triangle_count};
ghost use Rattle.meaning.specs.MeshRows.{lent_of, row_count, scratch_short, rows_gone};
ghost use Rattle.mesh_orders.specs.Told.{parts_only};
ghost use Rattle.mesh_asked.specs.Asking.{RowsThere, RowsAsked};

use meaning::Refusal;
use mesh_lent::{check_over, table_short};
use mesh_orders::wrong_order;
use mesh_parts::{edge_count, triangle_count};
use mesh_trees::scratch_room;
use scene_parts::vertex_count;

// 12: what is lent as scratch is too short.
fn lent_short(
    positions: &[i32],
    edges: &[u32],
    triangles: &[u32],
    seams: &[u32],
    edge_order: &[u32],
    triangle_order: &[u32],
    table: &[u32],
    places: usize,
    boxes: usize,
) -> bool
    ensures { result ≡ scratch_short (scene_of positions.now edges.now triangles.now seams.now)
        (lent_of edge_order.now triangle_order.now (length table.now) places boxes) }
{
    let parts = edge_count(edges) + triangle_count(triangles);
    let room = parts + 2 * (edge_order.len() + triangle_order.len());
    let short = table_short(positions, seams, table);
    short | (places < room) | (boxes < scratch_room(positions, edges, triangles))
}

// How many rows the list of a mesh has: one for each vertex and each edge.
pub fn row_count(positions: &[i32], edges: &[u32]) -> usize
    ensures { result ≡ row_count (scene_of positions.now edges.now [] []) }
{
    vertex_count(positions) + edge_count(edges)
}

// 5: rows that are not there.
fn rows_gone(rows: usize, first: usize, end: usize) -> bool
    ensures { result ≡ rows_gone rows first end }
{
    (end < first) | (rows < end)
}

// Of an accepted mesh: 18, then 5.
fn ask_there(
    edges: &[u32],
    triangles: &[u32],
    edge_order: &[u32],
    triangle_order: &[u32],
    places: &mut [u32],
    rows: usize,
    first: usize,
    end: usize,
) -> Result<(), Refusal>
    requires edge_order_in_bounds { (length edge_order.now ≤ length places.old) × (length triangle_order.now ≤ length places.old) }
    requires triangles_bound { (edge_count (parts_only edges.now triangles.now) ≤ 1073741824)
        × (triangle_count (parts_only edges.now triangles.now) ≤ 1073741824) }
    ensures { RowsThere edges.now triangles.now edge_order.now triangle_order.now rows first end result }
{
    if wrong_order(edges, triangles, edge_order, triangle_order, places) {
        return Err(Refusal::WrongOrder);
    }
    if rows_gone(rows, first, end) {
        Err(Refusal::NotThere)
    } else {
        Ok(())
    }
}

// May these rows of this mesh be looked at? `rows` is how many there are, `boxes` how many numbers are lent for boxes. Where it is so, the mesh's seams stand
// in the table.
pub fn ask_rows(
    positions: &[i32],
    edges: &[u32],
    triangles: &[u32],
    seams: &[u32],
    edge_order: &[u32],
    triangle_order: &[u32],
    table: &mut [u32],
    places: &mut [u32],
    boxes: usize,
    rows: usize,
    first: usize,
    end: usize,
) -> Result<(), Refusal>
    ensures { RowsAsked (scene_of positions.now edges.now triangles.now seams.now)
        (lent_of edge_order.now triangle_order.now (length table.old) (length places.old) boxes)
        rows first end table.new result }
{
    let lent = places.len();
    if lent_short(
        positions,
        edges,
        triangles,
        seams,
        edge_order,
        triangle_order,
        table,
        lent,
        boxes,
    ) {
        return Err(Refusal::ShortBuffer);
    }
    check_over(positions, edges, triangles, seams, table)?;
    ask_there(
        edges,
        triangles,
        edge_order,
        triangle_order,
        places,
        rows,
        first,
        end,
    )
}

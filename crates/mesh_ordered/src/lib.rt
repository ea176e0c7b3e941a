// The rows of a mesh, whatever orders are lent: those of a kind go run by run, over a tree whose parts stand by their numbers, or over one whose parts stand
// in a lent order. The rows are the same by either way.

#![tactic(auto)]

ghost use Rattle.scene_seams.specs.Alone.{tabled};
ghost use Rattle.std.specs.Prelude.{◌+◌, ◌*◌, ◌-◌, ◌≤◌, ◌<◌, ◌≢◌, length};
ghost use Rattle.sequences.specs.Gather.{gather};
ghost use Rattle.meaning.specs.MeshRows.{row_count, mesh_row, rows_in, mesh_entries};
ghost use Rattle.list_candidates.specs.Rows.{first_count};
ghost use Rattle.mesh_trees.specs.Forest.{Forest};
ghost use Rattle.mesh_entries.specs.Entering.{Entered};
ghost use Rattle.mesh_rows.specs.Rows.{part_row, SecondsPut};
ghost use Rattle.mesh_runs.specs.Runs.{kind_entries};
ghost use Rattle.mesh_order_rows.specs.Led.{LedTree};
ghost use Rattle.mesh_ordered.specs.Either.{EitherTree, OrdersLent, OrdersRoomed};

use meaning::{Kind, RowPairs};
use mesh_led_runs::walk_led_runs;
use mesh_order_rows::order_places;
use mesh_parts::{edge_count, triangle_count};
use mesh_rows::place_row;
use mesh_runs::{behind, first_second, kinds_meet, walk_kind};
use scene_parts::vertex_count;

// The places that there is room for in a run of rows, the numbers of the boxes that are spread for it, and their marks.
const RUN_PLACES: usize = 1024;

const RUN_SIX: usize = 1536;

const RUN_MARKS: usize = 256;

// The rows of a kind from one up to another by a lent order.
fn walk_led(
    positions: &[i32],
    edges: &[u32],
    triangles: &[u32],
    stands: &[u32],
    boxes: &[i32],
    levels: &[usize],
    parts: usize,
    top: usize,
    which: RowPairs,
    kind: Kind,
    order: &[u32],
    first: usize,
    end: usize,
    places: &mut [u32],
    list: &mut [u64],
    most: usize,
    at: usize,
) -> usize
    requires led_tree { LedTree (tabled positions.now edges.now triangles.now stands.now) kind boxes.now levels.now parts top order.now
        × (first ≤ end)
        × (end ≤ first + (first_count (tabled positions.now edges.now triangles.now stands.now) kind - first)) }
    requires parts_in_bounds { (2 * parts ≤ length places.old) × (most ≤ length list.old) × (at ≤ 1152921504606846976) }
    ensures { Entered most list.old at
        (gather (kind_entries which (tabled positions.now edges.now triangles.now stands.now) kind) first end) list.new result }
{
    let mut six = [0i32; RUN_SIX];
    let mut marks = [false; RUN_MARKS];
    walk_led_runs(
        positions, edges, triangles, stands, boxes, levels, parts, top, which, kind, order, first,
        end, places, &mut six, &mut marks, list, most, at,
    )
}

// The rows of a kind from one up to another, by the order that is lent, or by their numbers where it is empty. Where there is no row no room is made.
fn walk_either(
    positions: &[i32],
    edges: &[u32],
    triangles: &[u32],
    stands: &[u32],
    boxes: &[i32],
    levels: &[usize],
    parts: usize,
    top: usize,
    which: RowPairs,
    kind: Kind,
    offset: usize,
    order: &[u32],
    first: usize,
    end: usize,
    places: &mut [u32],
    list: &mut [u64],
    most: usize,
    at: usize,
) -> usize
    requires either_tree { EitherTree (tabled positions.now edges.now triangles.now stands.now) kind boxes.now levels.now parts top offset order.now
        × (first ≤ end)
        × (end ≤ first + (first_count (tabled positions.now edges.now triangles.now stands.now) kind - first)) }
    requires parts_in_bounds { (length order.now ≢ 0 → 2 * parts ≤ length places.old) × (most ≤ length list.old)
        × (at ≤ 1152921504606846976) }
    ensures { Entered most list.old at
        (gather (kind_entries which (tabled positions.now edges.now triangles.now stands.now) kind) first end) list.new result }
{
    if end <= first {
        return at;
    }
    if order.len() == 0 {
        let mut near = [0u32; RUN_PLACES];
        let mut six = [0i32; RUN_SIX];
        let mut marks = [false; RUN_MARKS];
        walk_kind(
            positions, edges, triangles, stands, boxes, levels, parts, top, which, kind, offset,
            first, end, &mut near, &mut six, &mut marks, list, most, at,
        )
    } else {
        walk_led(
            positions, edges, triangles, stands, boxes, levels, parts, top, which, kind, order,
            first, end, places, list, most, at,
        )
    }
}

// The rows from one up to another: all their pairs are counted, and entered in front of the list while there is room below a bound. What stands in `places`
// afterwards is of no account.
pub fn walk_rows(
    positions: &[i32],
    edges: &[u32],
    triangles: &[u32],
    stands: &[u32],
    edge_order: &[u32],
    triangle_order: &[u32],
    boxes: &[i32],
    edge_levels: &[usize],
    edge_top: usize,
    triangle_levels: &[usize],
    triangle_top: usize,
    which: RowPairs,
    first: usize,
    end: usize,
    places: &mut [u32],
    list: &mut [u64],
    most: usize,
) -> usize
    requires forest { Forest (tabled positions.now edges.now triangles.now stands.now) edge_order.now triangle_order.now boxes.now
        edge_levels.now triangle_levels.now edge_top triangle_top × (first ≤ end)
        × (end ≤ row_count (tabled positions.now edges.now triangles.now stands.now)) }
    requires orders_roomed { OrdersRoomed (tabled positions.now edges.now triangles.now stands.now) edge_order.now triangle_order.now (length places.old)
        × (most ≤ length list.old) }
    ensures { Entered most list.old 0
        (mesh_entries (rows_in which (tabled positions.now edges.now triangles.now stands.now) first end)) list.new result }
{
    let vertices = vertex_count(positions);
    let middle = kinds_meet(vertices, first, end);
    let k = walk_either(
        positions,
        edges,
        triangles,
        stands,
        boxes,
        triangle_levels,
        triangle_count(triangles),
        triangle_top,
        which,
        Kind::PointTriangle,
        0,
        triangle_order,
        first,
        middle,
        places,
        list,
        most,
        0,
    );
    walk_either(
        positions,
        edges,
        triangles,
        stands,
        boxes,
        edge_levels,
        edge_count(edges),
        edge_top,
        which,
        Kind::EdgeEdge,
        vertices,
        edge_order,
        behind(middle, vertices),
        behind(end, vertices),
        places,
        list,
        most,
        k,
    )
}

// The second places of the row of one first part, by the order that is lent, or by the walk alone where it is empty.
fn place_either(
    positions: &[i32],
    edges: &[u32],
    triangles: &[u32],
    stands: &[u32],
    boxes: &[i32],
    levels: &[usize],
    parts: usize,
    top: usize,
    which: RowPairs,
    kind: Kind,
    offset: usize,
    order: &[u32],
    i: usize,
    places: &mut [u32],
) -> usize
    requires either_tree { EitherTree (tabled positions.now edges.now triangles.now stands.now) kind boxes.now levels.now parts top offset order.now
        × (i < first_count (tabled positions.now edges.now triangles.now stands.now) kind) }
    requires parts_in_bounds { (parts ≤ length places.old) × (length order.now ≢ 0 → 2 * parts ≤ length places.old) }
    ensures { SecondsPut (part_row which (tabled positions.now edges.now triangles.now stands.now) kind i) places.new
        places.new result }
{
    if order.len() == 0 {
        let from = first_second(kind, i);
        place_row(
            positions,
            edges,
            triangles,
            stands,
            boxes,
            levels,
            parts,
            top,
            which,
            kind,
            i,
            offset + i,
            from,
            places,
        )
    } else {
        order_places(
            positions, edges, triangles, stands, boxes, levels, parts, top, which, kind, i, order,
            places,
        )
    }
}

// The second places of the row of a number, in order, in front of a lent list; what stands behind them is of no account. Returned is how many.
pub fn row_places(
    positions: &[i32],
    edges: &[u32],
    triangles: &[u32],
    stands: &[u32],
    edge_order: &[u32],
    triangle_order: &[u32],
    boxes: &[i32],
    edge_levels: &[usize],
    edge_top: usize,
    triangle_levels: &[usize],
    triangle_top: usize,
    which: RowPairs,
    row: usize,
    places: &mut [u32],
) -> usize
    requires forest { Forest (tabled positions.now edges.now triangles.now stands.now) edge_order.now triangle_order.now boxes.now
        edge_levels.now triangle_levels.now edge_top triangle_top
        × (row < row_count (tabled positions.now edges.now triangles.now stands.now)) }
    requires orders_lent { OrdersLent (tabled positions.now edges.now triangles.now stands.now) edge_order.now triangle_order.now (length places.old) }
    ensures { SecondsPut (mesh_row which (tabled positions.now edges.now triangles.now stands.now) row) places.new
        places.new result }
{
    let vertices = vertex_count(positions);
    if vertices <= row {
        place_either(
            positions,
            edges,
            triangles,
            stands,
            boxes,
            edge_levels,
            edge_count(edges),
            edge_top,
            which,
            Kind::EdgeEdge,
            vertices,
            edge_order,
            row - vertices,
            places,
        )
    } else {
        place_either(
            positions,
            edges,
            triangles,
            stands,
            boxes,
            triangle_levels,
            triangle_count(triangles),
            triangle_top,
            which,
            Kind::PointTriangle,
            0,
            triangle_order,
            row,
            places,
        )
    }
}

// Of a stretch of rows of a mesh the pairs whose words are asked for: every pair is judged, and counted by its word; the entries and words of those that
// are kept are written where there is room for all of them.

#![tactic(auto)]

ghost use Rattle.scene_seams.specs.Alone.{tabled};
ghost use Rattle.std.specs.Prelude.{◌+◌, ◌≤◌, ◌<◌, length};
ghost use Rattle.meaning.specs.MeshRows.{row_count, mesh_row, rows_in};
ghost use Rattle.scene_checks.specs.Facts.{Sound};
ghost use Rattle.mesh_trees.specs.Forest.{Forest};
ghost use Rattle.mesh_ordered.specs.Either.{OrdersLent};
ghost use Rattle.mesh_keep.specs.Keeping.{KeptBy};
ghost use Rattle.near_either.specs.Ready.{NodesReady};

use meaning::{Kind, RowPairs, Wanted};
use mesh_keep::{Going, keep_entries, keep_row};
use mesh_ordered::row_places;
use near_either::walk_ready;
use scene_parts::vertex_count;
use tally::Tally;

// The pairs of a block that there is room for, and the rows of a block: a run of rows on cloth that moves far, and many where a row has few pairs.
const BLOCK_PAIRS: usize = 4096;

const FEW_ROWS: usize = 8;

const MANY_ROWS: usize = 64;

// How many pairs a row has where blocks are short.
const DENSE_PAIRS: u64 = 16;

// The pairs of the row of a number: its second places are put into scratch, and its pairs are judged one behind the other.
fn keep_numbered(
    positions: &[i32],
    edges: &[u32],
    triangles: &[u32],
    stands: &[u32],
    edge_order: &[u32],
    triangle_order: &[u32],
    boxes: &[i32],
    edge_levels: &[usize],
    edge_top: usize,
    triangle_levels: &[usize],
    triangle_top: usize,
    which: RowPairs,
    row: usize,
    places: &mut [u32],
    wanted: Wanted,
    list: &mut [u64],
    words: &mut [u8],
    most: usize,
    going: Going,
) -> Going
    requires forest { Forest (tabled positions.now edges.now triangles.now stands.now) edge_order.now triangle_order.now boxes.now
        edge_levels.now triangle_levels.now edge_top triangle_top
        × (row < row_count (tabled positions.now edges.now triangles.now stands.now)) }
    requires orders_lent { OrdersLent (tabled positions.now edges.now triangles.now stands.now) edge_order.now triangle_order.now (length places.old) }
    requires sound { Sound (tabled positions.now edges.now triangles.now stands.now) × (most ≤ length list.old) × (most ≤ length words.old)
        × (going.count < 4611686018427387904) }
    ensures { KeptBy (tabled positions.now edges.now triangles.now stands.now) wanted most
        (mesh_row which (tabled positions.now edges.now triangles.now stands.now) row) list.old words.old going
        list.new words.new result }
{
    let parts = row_places(
        positions,
        edges,
        triangles,
        stands,
        edge_order,
        triangle_order,
        boxes,
        edge_levels,
        edge_top,
        triangle_levels,
        triangle_top,
        which,
        row,
        places,
    );
    let vertices = vertex_count(positions);
    if row < vertices {
        keep_row(
            positions,
            edges,
            triangles,
            stands,
            Kind::PointTriangle,
            row,
            places,
            parts,
            wanted,
            list,
            words,
            most,
            going,
        )
    } else {
        keep_row(
            positions,
            edges,
            triangles,
            stands,
            Kind::EdgeEdge,
            row - vertices,
            places,
            parts,
            wanted,
            list,
            words,
            most,
            going,
        )
    }
}

// The rows of a block, one after the other.
fn keep_alone(
    positions: &[i32],
    edges: &[u32],
    triangles: &[u32],
    stands: &[u32],
    edge_order: &[u32],
    triangle_order: &[u32],
    boxes: &[i32],
    edge_levels: &[usize],
    edge_top: usize,
    triangle_levels: &[usize],
    triangle_top: usize,
    which: RowPairs,
    first: usize,
    end: usize,
    places: &mut [u32],
    wanted: Wanted,
    list: &mut [u64],
    words: &mut [u8],
    most: usize,
    going: Going,
) -> Going
    requires forest { Forest (tabled positions.now edges.now triangles.now stands.now) edge_order.now triangle_order.now boxes.now
        edge_levels.now triangle_levels.now edge_top triangle_top × (first ≤ end)
        × (end ≤ row_count (tabled positions.now edges.now triangles.now stands.now)) }
    requires orders_lent { OrdersLent (tabled positions.now edges.now triangles.now stands.now) edge_order.now triangle_order.now (length places.old) }
    requires sound { Sound (tabled positions.now edges.now triangles.now stands.now) × (most ≤ length list.old) × (most ≤ length words.old)
        × (going.count + length (rows_in which (tabled positions.now edges.now triangles.now stands.now) first end) < 4611686018427387904) }
    ensures { KeptBy (tabled positions.now edges.now triangles.now stands.now) wanted most
        (rows_in which (tabled positions.now edges.now triangles.now stands.now) first end) list.old words.old going
        list.new words.new result }
{
    let mut so_far = going;
    for row in first..end {
        so_far = keep_numbered(
            positions,
            edges,
            triangles,
            stands,
            edge_order,
            triangle_order,
            boxes,
            edge_levels,
            edge_top,
            triangle_levels,
            triangle_top,
            which,
            row,
            places,
            wanted,
            list,
            words,
            most,
            so_far,
        );
    }
    so_far
}

// A block of rows: their entries are listed in a lent array, as the rows of a list are found, and judged from there; alone where they are more than
// there is room for.
fn keep_block(
    positions: &[i32],
    edges: &[u32],
    triangles: &[u32],
    stands: &[u32],
    edge_order: &[u32],
    triangle_order: &[u32],
    boxes: &[i32],
    edge_levels: &[usize],
    edge_top: usize,
    triangle_levels: &[usize],
    triangle_top: usize,
    shift: usize,
    which: RowPairs,
    first: usize,
    end: usize,
    places: &mut [u32],
    own: &mut [u64],
    wanted: Wanted,
    list: &mut [u64],
    words: &mut [u8],
    most: usize,
    going: Going,
) -> Going
    requires forest { Forest (tabled positions.now edges.now triangles.now stands.now) edge_order.now triangle_order.now boxes.now
        edge_levels.now triangle_levels.now edge_top triangle_top × (first ≤ end)
        × (end ≤ row_count (tabled positions.now edges.now triangles.now stands.now))
        × NodesReady which (tabled positions.now edges.now triangles.now stands.now) boxes.now edge_levels.now triangle_levels.now
        edge_top triangle_top shift }
    requires orders_lent { OrdersLent (tabled positions.now edges.now triangles.now stands.now) edge_order.now triangle_order.now (length places.old) }
    requires sound { Sound (tabled positions.now edges.now triangles.now stands.now) × (most ≤ length list.old) × (most ≤ length words.old)
        × (going.count + length (rows_in which (tabled positions.now edges.now triangles.now stands.now) first end) < 4611686018427387904) }
    requires in_bounds { 4096 ≤ length own.old }
    ensures { KeptBy (tabled positions.now edges.now triangles.now stands.now) wanted most
        (rows_in which (tabled positions.now edges.now triangles.now stands.now) first end) list.old words.old going
        list.new words.new result }
{
    let count = walk_ready(
        positions,
        edges,
        triangles,
        stands,
        edge_order,
        triangle_order,
        boxes,
        edge_levels,
        edge_top,
        triangle_levels,
        triangle_top,
        shift,
        which,
        first,
        end,
        places,
        own,
        BLOCK_PAIRS,
    );
    if count <= BLOCK_PAIRS {
        keep_entries(
            positions, edges, triangles, stands, own, count, wanted, list, words, most, going,
        )
    } else {
        keep_alone(
            positions,
            edges,
            triangles,
            stands,
            edge_order,
            triangle_order,
            boxes,
            edge_levels,
            edge_top,
            triangle_levels,
            triangle_top,
            which,
            first,
            end,
            places,
            wanted,
            list,
            words,
            most,
            going,
        )
    }
}

// Where the block ends that begins with a row.
fn block_end(first: usize, rows: usize, end: usize) -> usize
    requires { (first < end) × (end ≤ 4294967296) × (0 < rows) × (rows ≤ 64) }
    ensures { (first < result) × (result ≤ end) }
{
    (first + rows).min(end)
}

// How many pairs are listed so far.
fn listed_so_far(going: Going) -> u64 {
    let counted: Tally = going.tally;
    counted.listed
}

// How many rows the next block has, by the rows of the last and what was listed before and after it. It is a guess at what is faster, and changes no answer.
fn block_rows(rows: usize, before: u64, after: u64) -> usize
    ensures { (0 < result) × (result ≤ 64) }
{
    if after < before {
        return FEW_ROWS;
    }
    if (after - before) / DENSE_PAIRS < rows as u64 {
        MANY_ROWS
    } else {
        FEW_ROWS
    }
}

// The rows of a stretch, block by block: each as long as the pairs of the last one make it. Near rows go by nodes of both times where their shift is
// not 0.
pub fn keep_stretch(
    positions: &[i32],
    edges: &[u32],
    triangles: &[u32],
    stands: &[u32],
    edge_order: &[u32],
    triangle_order: &[u32],
    boxes: &[i32],
    edge_levels: &[usize],
    edge_top: usize,
    triangle_levels: &[usize],
    triangle_top: usize,
    shift: usize,
    which: RowPairs,
    first: usize,
    end: usize,
    places: &mut [u32],
    wanted: Wanted,
    list: &mut [u64],
    words: &mut [u8],
    most: usize,
    going: Going,
) -> Going
    requires forest { Forest (tabled positions.now edges.now triangles.now stands.now) edge_order.now triangle_order.now boxes.now
        edge_levels.now triangle_levels.now edge_top triangle_top × (first ≤ end)
        × (end ≤ row_count (tabled positions.now edges.now triangles.now stands.now))
        × NodesReady which (tabled positions.now edges.now triangles.now stands.now) boxes.now edge_levels.now triangle_levels.now
        edge_top triangle_top shift }
    requires orders_lent { OrdersLent (tabled positions.now edges.now triangles.now stands.now) edge_order.now triangle_order.now (length places.old) }
    requires sound { Sound (tabled positions.now edges.now triangles.now stands.now) × (most ≤ length list.old) × (most ≤ length words.old)
        × (going.count ≤ 0) }
    ensures { KeptBy (tabled positions.now edges.now triangles.now stands.now) wanted most
        (rows_in which (tabled positions.now edges.now triangles.now stands.now) first end) list.old words.old going
        list.new words.new result }
{
    let mut own = [0u64; BLOCK_PAIRS];
    let mut so_far = going;
    let mut rows = FEW_ROWS;
    let mut row = first;
    // A `while`: a `for` would be no plainer, because each block tells where the next one begins and how many rows it has.
    while row < end {
        let next = block_end(row, rows, end);
        let before = listed_so_far(so_far);
        so_far = keep_block(
            positions,
            edges,
            triangles,
            stands,
            edge_order,
            triangle_order,
            boxes,
            edge_levels,
            edge_top,
            triangle_levels,
            triangle_top,
            shift,
            which,
            row,
            next,
            places,
            &mut own,
            wanted,
            list,
            words,
            most,
            so_far,
        );
        rows = block_rows(next - row, before, listed_so_far(so_far));
        row = next;
    }
    so_far
}

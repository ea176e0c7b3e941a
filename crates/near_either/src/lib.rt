// Rows by either of two walks: near rows of cloth that falls by nodes of both times, where the scratch has room for these, and all others by swept boxes.
// How far behind the nodes of the swept boxes those of both times stand is told as their shift, which is 0 where there are none.

#![tactic(auto)]

ghost use Rattle.scene_seams.specs.Alone.{tabled};
ghost use Rattle.std.specs.Prelude.{ℕ, ◌≤◌, Bool, true, ◌&&◌, List, ◌≡◌, ltb, length};
ghost use Rattle.meaning.specs.Scene.{unsewn_of, scene_of};
ghost use Rattle.meaning.specs.MeshRows.{row_count, rows_in, mesh_entries};
ghost use Rattle.mesh_entries.specs.Entering.{Entered};
ghost use Rattle.mesh_trees.specs.Planting.{Plantable};
ghost use Rattle.mesh_trees.specs.Forest.{Forest};
ghost use Rattle.mesh_ordered.specs.Either.{OrdersRoomed};
ghost use Rattle.near_either.specs.Ready.{GoesNear, NodesPlanted, NodesReady};

use meaning::RowPairs;
use mesh_ordered::walk_rows;
use near_falls::falls;
use near_runs::walk_near;
use near_trees::{frames_room, node_room, plant_frames};

// No order is lent.
fn unordered(edge_order: &[u32], triangle_order: &[u32]) -> bool
    ensures { result ≡ ltb (length edge_order.now) 1 && ltb (length triangle_order.now) 1 }
{
    (edge_order.len() < 1) & (triangle_order.len() < 1)
}

// Whether near rows are asked for and go by nodes of both times. Where an order is lent the rows go by that.
pub fn goes_near(
    positions: &[i32],
    edges: &[u32],
    triangles: &[u32],
    edge_order: &[u32],
    triangle_order: &[u32],
    boxes: &[i32],
    which: RowPairs,
) -> bool
    ensures { result ≡ true → GoesNear which (unsewn_of positions.now edges.now triangles.now) edge_order.now
        triangle_order.now boxes.now }
{
    let room = frames_room(positions, edges, triangles);
    match which {
        RowPairs::Listed => false,
        RowPairs::Near => unordered(edge_order, triangle_order)
            & falls(positions)
            & (room <= boxes.len()),
    }
}

// The nodes of both times are planted where rows go by them; then their shift, else 0. The trees of swept boxes are planted after them.
pub fn plant_nodes(
    positions: &[i32],
    edges: &[u32],
    triangles: &[u32],
    edge_order: &[u32],
    triangle_order: &[u32],
    boxes: &mut [i32],
    which: RowPairs,
) -> usize
    requires { Plantable (unsewn_of positions.now edges.now triangles.now) boxes.old }
    ensures { ((w : List ℕ) → NodesPlanted which (scene_of positions.now edges.now triangles.now w)
        edge_order.now triangle_order.now boxes.new result)
        × (length boxes.new ≡ length boxes.old) }
{
    if goes_near(
        positions,
        edges,
        triangles,
        edge_order,
        triangle_order,
        boxes,
        which,
    ) {
        plant_frames(positions, edges, triangles, boxes);
        node_room(positions, edges, triangles)
    } else {
        0
    }
}

// The rows from one up to another, by nodes of both times where these stand: all their pairs are counted, and entered in front of the list while there is
// room below a bound.
pub fn walk_ready(
    positions: &[i32],
    edges: &[u32],
    triangles: &[u32],
    stands: &[u32],
    edge_order: &[u32],
    triangle_order: &[u32],
    boxes: &[i32],
    edge_levels: &[usize],
    edge_top: usize,
    triangle_levels: &[usize],
    triangle_top: usize,
    shift: usize,
    which: RowPairs,
    first: usize,
    end: usize,
    places: &mut [u32],
    list: &mut [u64],
    most: usize,
) -> usize
    requires forest { Forest (tabled positions.now edges.now triangles.now stands.now) edge_order.now triangle_order.now boxes.now
        edge_levels.now triangle_levels.now edge_top triangle_top × (first ≤ end)
        × (end ≤ row_count (tabled positions.now edges.now triangles.now stands.now))
        × NodesReady which (tabled positions.now edges.now triangles.now stands.now) boxes.now edge_levels.now triangle_levels.now
        edge_top triangle_top shift }
    requires orders_roomed { OrdersRoomed (tabled positions.now edges.now triangles.now stands.now) edge_order.now triangle_order.now (length places.old)
        × (most ≤ length list.old) }
    ensures { Entered most list.old 0
        (mesh_entries (rows_in which (tabled positions.now edges.now triangles.now stands.now) first end)) list.new result }
{
    if 0 < shift {
        walk_near(
            positions,
            edges,
            triangles,
            stands,
            boxes,
            edge_levels,
            edge_top,
            triangle_levels,
            triangle_top,
            shift,
            first,
            end,
            list,
            most,
        )
    } else {
        walk_rows(
            positions,
            edges,
            triangles,
            stands,
            edge_order,
            triangle_order,
            boxes,
            edge_levels,
            edge_top,
            triangle_levels,
            triangle_top,
            which,
            first,
            end,
            places,
            list,
            most,
        )
    }
}

// Edges that were made outside: whether every side of every triangle is an edge, and none stands twice. Nothing is searched for: who made the edges
// lends for each side the number of its edge, and the order of the edges by their ends, and both are looked at here.

#![tactic(auto)]

ghost use Rattle.std.specs.Prelude.{◌+◌, ◌-◌, ◌*◌, ◌%◌, ◌≤◌, ◌<◌, false, [], ◌≡◌, length};
ghost use Rattle.meaning.specs.Scene.{scene_of, edge_count};
ghost use Rattle.meaning.specs.MeshEdges.{next_corner, joins, bare_side, ends_number, ends_fall, EdgesChecked};
ghost use Rattle.scene_seams.specs.Alone.{only_edges};
ghost use Rattle.mesh_edges.specs.First.{FirstWith};
ghost use Rattle.mesh_edges.specs.Ends.{EdgeOrder};
ghost use Rattle.mesh_edges.specs.Checking.{wrong_hints, ToldOf, LookedAt, hints_short};
ghost use Rattle.mesh_orders.specs.Told.{parts_only};

use meaning::{EdgesFound, Refusal};
use mesh_lent::{check_over, table_short};
use mesh_orders::is_order;
use mesh_parts::edge_end;
use mesh_seams::wide;

// The corner behind a corner, around its triangle.
fn next_corner(k: usize) -> usize
    requires { k < 18446744073709551615 }
    ensures { result ≡ next_corner k }
{
    if k % 3 == 2 { k - 2 } else { k + 1 }
}

// Whether an edge has these two ends, in either order.
fn joins_ends(edges: &[u32], edge: usize, a: usize, b: usize) -> bool
    requires { edge < edge_count (only_edges edges.now) }
    ensures { result ≡ joins (only_edges edges.now) edge a b }
{
    let c = edge_end(edges, edge, 0);
    let d = edge_end(edges, edge, 1);
    ((c == a) & (d == b)) | ((c == b) & (d == a))
}

// Whether side k, three to a triangle, has not the edge that is lent for it.
fn bare(edges: &[u32], triangles: &[u32], sides: &[u32], k: usize) -> bool
    requires { (k < length triangles.now) × (length triangles.now % 3 ≡ 0)
        × (length sides.now ≡ length triangles.now) }
    ensures { result ≡ bare_side (parts_only edges.now triangles.now) sides.now k }
{
    let edge = wide(sides[k]);
    let next = next_corner(k);
    if edge < edges.len() / 2 {
        !joins_ends(edges, edge, wide(triangles[k]), wide(triangles[next]))
    } else {
        true
    }
}

// The first side that has not the edge lent for it; as many as there are sides, where none is such.
pub fn first_bare(edges: &[u32], triangles: &[u32], sides: &[u32]) -> usize
    requires { (length triangles.now % 3 ≡ 0) × (length sides.now ≡ length triangles.now) }
    ensures { FirstWith (length triangles.now) (bare_side (parts_only edges.now triangles.now) sides.now) result }
{
    for k in 0..triangles.len() {
        if bare(edges, triangles, sides, k) {
            return k;
        }
    }
    triangles.len()
}

// Two vertex numbers in one.
fn joined(low: u32, high: u32) -> u64
    ensures { result ≡ 4294967296 * low + high }
{
    4294967296 * (low as u64) + (high as u64)
}

// The ends of an edge in one number, the lower in front: edges with the same ends have the same number.
fn ends_number(edges: &[u32], j: usize) -> u64
    requires { j < edge_count (only_edges edges.now) }
    ensures { result ≡ ends_number (only_edges edges.now) j }
{
    let a = edges[2 * j];
    let b = edges[2 * j + 1];
    joined(a.min(b), a.max(b))
}

// Whether the ends of the edge behind number k of the order do not come behind those of number k.
fn falls(edges: &[u32], order: &[u32], k: usize) -> bool
    requires { EdgeOrder edges.now order.now × (k + 1 < length order.now) }
    ensures { result ≡ ends_fall (only_edges edges.now) order.now k }
{
    ends_number(edges, wide(order[k + 1])) <= ends_number(edges, wide(order[k]))
}

// The first number of the order behind which the ends do not rise; the last one, where all rise.
pub fn first_fall(edges: &[u32], order: &[u32]) -> usize
    requires { EdgeOrder edges.now order.now }
    ensures { FirstWith (length order.now - 1) (ends_fall (only_edges edges.now) order.now) result }
{
    let last = order.len().saturating_sub(1);
    for k in 0..last {
        if falls(edges, order, k) {
            return k;
        }
    }
    last
}

// 18: a number for each side is not lent, or the order of the edges is none.
fn wrong_hints(
    edges: &[u32],
    triangles: &[u32],
    sides: &[u32],
    order: &[u32],
    places: &mut [u32],
) -> bool
    requires { (edge_count (only_edges edges.now) ≤ 1073741824) × (edge_count (only_edges edges.now) ≤ length places.old) }
    ensures { result ≡ wrong_hints (parts_only edges.now triangles.now) sides.now order.now }
{
    if sides.len() != triangles.len() {
        return true;
    }
    if order.len() != edges.len() / 2 {
        return true;
    }
    !is_order(order, places)
}

// What is told of edges with the right hints.
fn tell(
    edges: &[u32],
    triangles: &[u32],
    sides: &[u32],
    order: &[u32],
) -> Result<EdgesFound, Refusal>
    requires { (length triangles.now % 3 ≡ 0)
        × (wrong_hints (parts_only edges.now triangles.now) sides.now order.now ≡ false) }
    ensures { ToldOf edges.now triangles.now sides.now order.now result }
{
    let side = first_bare(edges, triangles, sides);
    if side < triangles.len() {
        return Ok(EdgesFound::Bare(side));
    }
    let fall = first_fall(edges, order);
    let last = order.len().saturating_sub(1);
    if fall < last {
        Ok(EdgesFound::Twice(fall))
    } else {
        Ok(EdgesFound::Whole)
    }
}

// Of an accepted mesh.
fn look(
    edges: &[u32],
    triangles: &[u32],
    sides: &[u32],
    order: &[u32],
    places: &mut [u32],
) -> Result<EdgesFound, Refusal>
    requires { ((length triangles.now % 3 ≡ 0) × (edge_count (only_edges edges.now) ≤ 1073741824))
        × (edge_count (only_edges edges.now) ≤ length places.old) }
    ensures { LookedAt edges.now triangles.now sides.now order.now result }
{
    if wrong_hints(edges, triangles, sides, order, places) {
        return Err(Refusal::WrongOrder);
    }
    tell(edges, triangles, sides, order)
}

// 12: the table of seams is too short, or there are fewer places than edges.
fn hints_short(
    positions: &[i32],
    edges: &[u32],
    seams: &[u32],
    table: &[u32],
    places: &[u32],
) -> bool
    ensures { result ≡ hints_short (scene_of positions.now edges.now [] seams.now) [] [] table.now places.now }
{
    table_short(positions, seams, table) | (places.len() < edges.len() / 2)
}

// Is every side of every triangle of a mesh an edge, and does none stand twice? For each side, three to a triangle, the number of its edge is lent, and the
// order of the edges by their ends; both are looked at. The first side that has not its edge is told; where all have one, the first number of the order
// behind which the ends do not rise.
pub fn check_edges(
    positions: &[i32],
    edges: &[u32],
    triangles: &[u32],
    seams: &[u32],
    sides: &[u32],
    order: &[u32],
    table: &mut [u32],
    places: &mut [u32],
) -> Result<EdgesFound, Refusal>
    ensures { EdgesChecked (scene_of positions.now edges.now triangles.now seams.now) sides.now order.now
        (length table.old) (length places.old) result }
{
    if hints_short(positions, edges, seams, table, places) {
        return Err(Refusal::ShortBuffer);
    }
    check_over(positions, edges, triangles, seams, table)?;
    look(edges, triangles, sides, order, places)
}

// An order of parts, lent as a hint: a list in which every number below its length stands, each once. Whether it is one is asked by its inverse,
// which is made in a lent list: then each leads to the other and back.

#![tactic(auto)]

ghost use Rattle.std.specs.Prelude.{◌≤◌, ◌<◌, ◌≡◌, length};
ghost use Rattle.meaning.specs.Scene.{some_below, edge_count, triangle_count};
ghost use Rattle.meaning.specs.MeshRows.{wrong_order};
ghost use Rattle.mesh_orders.specs.Orders.{placed, places_after, astray_at};
ghost use Rattle.mesh_orders.specs.Told.{OrderTold, wrong_for, parts_only, orders_only};

use mesh_parts::{edge_count, triangle_count};
use mesh_seams::wide;

// Where number k of the order leads, the inverse leads back to k. A number that no part has is passed by.
fn put_place(order: &[u32], inverse: &mut [u32], k: usize)
    requires { (k < length order.now) × (length order.now ≤ length inverse.old)
        × (length order.now ≤ 1073741824) }
    ensures { inverse.new ≡ placed order.now inverse.old k }
{
    let part = wide(order[k]);
    if part < order.len() {
        inverse[part] = k as u32;
    }
}

fn put_places(order: &[u32], inverse: &mut [u32])
    requires { (length order.now ≤ length inverse.old) × (length order.now ≤ 1073741824) }
    ensures { inverse.new ≡ places_after order.now inverse.old (length order.now) }
{
    for k in 0..order.len() {
        put_place(order, inverse, k);
    }
}

// Whether number k leads to no part, or to one that leads elsewhere.
fn astray(there: &[u32], back: &[u32], count: usize, k: usize) -> bool
    requires { (k < length there.now) × (count ≤ length back.now) }
    ensures { result ≡ astray_at there.now back.now count k }
{
    let part = wide(there[k]);
    if part < count {
        wide(back[part]) != k
    } else {
        true
    }
}

fn some_astray(there: &[u32], back: &[u32], count: usize) -> bool
    requires { (count ≤ length there.now) × (count ≤ length back.now) }
    ensures { result ≡ some_below count (astray_at there.now back.now count) }
{
    let mut found = false;
    for k in 0..count {
        found |= astray(there, back, count, k);
    }
    found
}

// Is this list an order? The front of the other list is its inverse then; the rest of that list is unchanged in any case.
pub fn is_order(order: &[u32], inverse: &mut [u32]) -> bool
    requires { (length order.now ≤ length inverse.old) × (length order.now ≤ 1073741824) }
    ensures { OrderTold order.now inverse.old inverse.new result }
{
    let count = order.len();
    put_places(order, inverse);
    let out = some_astray(order, inverse, count);
    let home = some_astray(inverse, order, count);
    !(out | home)
}

// A list that was lent as an order of so many parts is not empty, and no such order. What stands in the other list afterwards is of no account.
pub fn wrong_for(count: usize, order: &[u32], places: &mut [u32]) -> bool
    requires { (length order.now ≤ length places.old) × (count ≤ 1073741824) }
    ensures { (result ≡ wrong_for count order.now) × (length places.new ≡ length places.old) }
{
    if order.len() == 0 {
        return false;
    }
    if order.len() != count {
        return true;
    }
    !is_order(order, places)
}

// 18: an order of the edges or one of the triangles was lent that is none.
pub fn wrong_order(
    edges: &[u32],
    triangles: &[u32],
    edge_order: &[u32],
    triangle_order: &[u32],
    places: &mut [u32],
) -> bool
    requires edge_order_in_bounds { (length edge_order.now ≤ length places.old) × (length triangle_order.now ≤ length places.old) }
    requires triangles_bound { (edge_count (parts_only edges.now triangles.now) ≤ 1073741824)
        × (triangle_count (parts_only edges.now triangles.now) ≤ 1073741824) }
    ensures { (result ≡ wrong_order (parts_only edges.now triangles.now) (orders_only edge_order.now triangle_order.now))
        × (length places.new ≡ length places.old) }
{
    let edge = wrong_for(edge_count(edges), edge_order, places);
    let triangle = wrong_for(triangle_count(triangles), triangle_order, places);
    edge | triangle
}

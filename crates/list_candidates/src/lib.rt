// The pairs that can be listed, and the test of one of them.

#![tactic(auto)]

ghost use Rattle.scene_seams.specs.Alone.{tabled};
ghost use Rattle.std.specs.Prelude.{◌<◌, ◌≡◌};
ghost use Rattle.meaning.specs.Scene.{vertex_count, edge_count, triangle_count};
ghost use Rattle.meaning.specs.Boxes.{listed};
ghost use Rattle.meaning.specs.declared.Kind.TheVariants.{PointTriangle, EdgeEdge};
ghost use Rattle.meaning.specs.StoredBoxes.{Boxed};
ghost use Rattle.list_candidates.specs.Rows.{first_count, second_count, second_from};

use list_boxes::kept::boxes_meet;
use meaning::Kind;
use scene_parts::{edge_count, shares_ee, shares_pt, triangle_count, vertex_count};

// The boxes are tested first: most pairs are apart on an axis.
fn listed_pt(
    positions: &[i32],
    edges: &[u16],
    triangles: &[u16],
    stands: &[u16],
    boxes: &[i32],
    v: usize,
    j: usize,
) -> bool
    requires { Boxed (tabled positions.now edges.now triangles.now stands.now) boxes.now
        × (v < vertex_count (tabled positions.now edges.now triangles.now stands.now))
        × (j < triangle_count (tabled positions.now edges.now triangles.now stands.now)) }
    ensures { result ≡ listed (tabled positions.now edges.now triangles.now stands.now) PointTriangle v j }
{
    let place = vertex_count(positions) + edge_count(edges) + j;
    if boxes_meet(boxes, v, place) {
        !shares_pt(triangles, stands, v, j)
    } else {
        false
    }
}

fn listed_ee(
    positions: &[i32],
    edges: &[u16],
    triangles: &[u16],
    stands: &[u16],
    boxes: &[i32],
    i: usize,
    j: usize,
) -> bool
    requires { Boxed (tabled positions.now edges.now triangles.now stands.now) boxes.now
        × (i < edge_count (tabled positions.now edges.now triangles.now stands.now))
        × (j < edge_count (tabled positions.now edges.now triangles.now stands.now)) }
    ensures { result ≡ listed (tabled positions.now edges.now triangles.now stands.now) EdgeEdge i j }
{
    let first = vertex_count(positions);
    if boxes_meet(boxes, first + i, first + j) {
        !shares_ee(edges, stands, i, j)
    } else {
        false
    }
}

// Whether the pair of a kind and two places is listed.
pub fn is_listed(
    positions: &[i32],
    edges: &[u16],
    triangles: &[u16],
    stands: &[u16],
    boxes: &[i32],
    kind: Kind,
    i: usize,
    j: usize,
) -> bool
    requires { Boxed (tabled positions.now edges.now triangles.now stands.now) boxes.now
        × (i < first_count (tabled positions.now edges.now triangles.now stands.now) kind)
        × (j < second_count (tabled positions.now edges.now triangles.now stands.now) kind) }
    ensures { result ≡ listed (tabled positions.now edges.now triangles.now stands.now) kind i j }
{
    match kind {
        Kind::PointTriangle => listed_pt(positions, edges, triangles, stands, boxes, i, j),
        Kind::EdgeEdge => listed_ee(positions, edges, triangles, stands, boxes, i, j),
    }
}

// How many first places there are, and how many second places.
pub fn first_count(
    positions: &[i32],
    edges: &[u16],
    triangles: &[u16],
    stands: &[u16],
    kind: Kind,
) -> usize
    ensures { result ≡ first_count (tabled positions.now edges.now triangles.now stands.now) kind }
{
    match kind {
        Kind::PointTriangle => vertex_count(positions),
        Kind::EdgeEdge => edge_count(edges),
    }
}

// How many second places a kind has: triangles, or edges.
pub fn second_count(
    positions: &[i32],
    edges: &[u16],
    triangles: &[u16],
    stands: &[u16],
    kind: Kind,
) -> usize
    ensures { result ≡ second_count (tabled positions.now edges.now triangles.now stands.now) kind }
{
    match kind {
        Kind::PointTriangle => triangle_count(triangles),
        Kind::EdgeEdge => edge_count(edges),
    }
}

// The first second place: each two edges make one pair.
pub fn second_from(kind: Kind, i: usize) -> usize
    requires { i < 65536 }
    ensures { result ≡ second_from kind i }
{
    match kind {
        Kind::PointTriangle => 0,
        Kind::EdgeEdge => i + 1,
    }
}

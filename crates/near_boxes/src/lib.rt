// Far from boxes at the start and at the end: a node of a tree, which has its joint boxes at both times, or a part, by the positions of its corners. A run's
// own two boxes stand first in a list of their own, that of the start and then that of the end.

#![tactic(auto)]

ghost use Rattle.scene_seams.specs.Alone.{tabled};
ghost use Rattle.std.specs.Prelude.{◌+◌, ◌*◌, ◌/◌, ◌≤◌, ◌<◌, ◌&&◌, ◌≡◌, length};
ghost use Rattle.meaning.specs.StoredBoxes.{span_at, box_at};
ghost use Rattle.meaning.specs.Near.{under};
ghost use Rattle.meaning.specs.declared.Frame.TheVariants.{Start, End};
ghost use Rattle.near_boxes.specs.Far.{far_spans, far_boxes, second_box_at};
ghost use Rattle.near_boxes.specs.Parts.{over_at, under_at, three_far_at, two_far_at, three_far, two_far, Reached};

use meaning::Kind;
use mesh_parts::{corner, edge_end};

// On one axis: spans of a list at the places of their lows, one of the start and one of the end, above one's own at both times, and below them.
fn spans_over(own: &[i32], k: usize, boxes: &[i32], i: usize, j: usize) -> bool
    requires { (k + 9 < length own.now) × (i + 3 < length boxes.now) × (j + 3 < length boxes.now) }
    ensures { result ≡ under (span_at own.now k) (span_at boxes.now i)
        && under (span_at own.now (k + 6)) (span_at boxes.now j) }
{
    (own[k + 3] < boxes[i]) & (own[k + 6 + 3] < boxes[j])
}

fn spans_under(own: &[i32], k: usize, boxes: &[i32], i: usize, j: usize) -> bool
    requires { (k + 9 < length own.now) × (i + 3 < length boxes.now) × (j + 3 < length boxes.now) }
    ensures { result ≡ under (span_at boxes.now i) (span_at own.now k)
        && under (span_at boxes.now j) (span_at own.now (k + 6)) }
{
    (boxes[i + 3] < own[k]) & (boxes[j + 3] < own[k + 6])
}

fn spans_far(own: &[i32], k: usize, boxes: &[i32], i: usize, j: usize) -> bool
    requires { (k + 9 < length own.now) × (i + 3 < length boxes.now) × (j + 3 < length boxes.now) }
    ensures { result ≡ far_spans (span_at own.now k) (span_at own.now (k + 6)) (span_at boxes.now i)
        (span_at boxes.now j) }
{
    spans_over(own, k, boxes, i, j) | spans_under(own, k, boxes, i, j)
}

// Whether two boxes of a list, of the start and of the end, are far from one's own. The first axis on which they are decides.
pub fn boxes_far(own: &[i32], boxes: &[i32], a: usize, b: usize) -> bool
    requires { (12 ≤ length own.now) × (6 * a + 5 < length boxes.now) × (6 * b + 5 < length boxes.now) }
    ensures { result ≡ far_boxes (box_at own.now 0) (box_at own.now 1) (box_at boxes.now a)
        (box_at boxes.now b) }
{
    let i = 6 * a;
    let j = 6 * b;
    if spans_far(own, 0, boxes, i, j) {
        return true;
    }
    if spans_far(own, 1, boxes, i + 1, j + 1) {
        return true;
    }
    spans_far(own, 2, boxes, i + 2, j + 2)
}

// A vertex above one's own boxes on an axis at both times, and below them.
fn over_at(own: &[i32], positions: &[i32], k: usize, i: usize) -> bool
    requires { (k + 9 < length own.now) × (i + 3 < length positions.now) }
    ensures { result ≡ over_at own.now positions.now k i }
{
    (own[k + 3] < positions[i]) & (own[k + 6 + 3] < positions[i + 3])
}

fn under_at(own: &[i32], positions: &[i32], k: usize, i: usize) -> bool
    requires { (k + 9 < length own.now) × (i + 3 < length positions.now) }
    ensures { result ≡ under_at own.now positions.now k i }
{
    (positions[i] < own[k]) & (positions[i + 3] < own[k + 6])
}

fn three_far_at(own: &[i32], positions: &[i32], k: usize, a: usize, b: usize, c: usize) -> bool
    requires { (k + 9 < length own.now) × (a + 3 < length positions.now) × (b + 3 < length positions.now)
        × (c + 3 < length positions.now) }
    ensures { result ≡ three_far_at own.now positions.now k a b c }
{
    (over_at(own, positions, k, a) & over_at(own, positions, k, b) & over_at(own, positions, k, c))
        | (under_at(own, positions, k, a)
            & under_at(own, positions, k, b)
            & under_at(own, positions, k, c))
}

fn two_far_at(own: &[i32], positions: &[i32], k: usize, a: usize, b: usize) -> bool
    requires { (k + 9 < length own.now) × (a + 3 < length positions.now) × (b + 3 < length positions.now) }
    ensures { result ≡ two_far_at own.now positions.now k a b }
{
    (over_at(own, positions, k, a) & over_at(own, positions, k, b))
        | (under_at(own, positions, k, a) & under_at(own, positions, k, b))
}

// A triangle by its corners, and an edge by its ends.
fn three_far(own: &[i32], positions: &[i32], a: usize, b: usize, c: usize) -> bool
    requires { (12 ≤ length own.now) × (a < length positions.now / 6) × (b < length positions.now / 6)
        × (c < length positions.now / 6) }
    ensures { result ≡ three_far own.now positions.now a b c }
{
    let i = 6 * a;
    let j = 6 * b;
    let k = 6 * c;
    three_far_at(own, positions, 0, i, j, k)
        | three_far_at(own, positions, 1, i + 1, j + 1, k + 1)
        | three_far_at(own, positions, 2, i + 2, j + 2, k + 2)
}

fn two_far(own: &[i32], positions: &[i32], a: usize, b: usize) -> bool
    requires { (12 ≤ length own.now) × (a < length positions.now / 6) × (b < length positions.now / 6) }
    ensures { result ≡ two_far own.now positions.now a b }
{
    let i = 6 * a;
    let j = 6 * b;
    two_far_at(own, positions, 0, i, j)
        | two_far_at(own, positions, 1, i + 1, j + 1)
        | two_far_at(own, positions, 2, i + 2, j + 2)
}

// Whether the second part in place j of pairs of a kind is far from one's own boxes.
pub fn part_far(
    own: &[i32],
    positions: &[i32],
    edges: &[u32],
    triangles: &[u32],
    stands: &[u32],
    kind: Kind,
    j: usize,
) -> bool
    requires { (12 ≤ length own.now) × Reached (tabled positions.now edges.now triangles.now stands.now) kind j }
    ensures { result ≡ far_boxes (box_at own.now 0) (box_at own.now 1)
        (second_box_at Start (tabled positions.now edges.now triangles.now stands.now) kind j)
        (second_box_at End (tabled positions.now edges.now triangles.now stands.now) kind j) }
{
    match kind {
        Kind::PointTriangle => {
            let a = corner(triangles, j, 0);
            let b = corner(triangles, j, 1);
            three_far(own, positions, a, b, corner(triangles, j, 2))
        }
        Kind::EdgeEdge => {
            let a = edge_end(edges, j, 0);
            two_far(own, positions, a, edge_end(edges, j, 1))
        }
    }
}

// Whether a pair of a mesh is far: on one axis one part lies strictly below the other at the start and at the end, so that they never meet. A point is
// compared with each corner on all axes, without a branch; of edges the ends are put in order first, and the first axis on which they are apart decides.

#![tactic(auto)]

ghost use Rattle.std.specs.Prelude.{ℕ, ◌+◌, ◌/◌, ◌<◌, List, ◌≡◌, pos, length, get_or};
ghost use Rattle.std.specs.Int.Signed.{le_z};
ghost use Rattle.meaning.specs.Boxes.{smaller, larger};
ghost use Rattle.meaning.specs.Scene.{scene_of};
ghost use Rattle.meaning.specs.Near.{far};
ghost use Rattle.mesh_near.specs.Apart.{below_at, point_far_at, edge_under, edges_far_at, point_far, edges_far};
ghost use Rattle.mesh_near.specs.Spanned.{Spanned};

use meaning::Kind;
use mesh_parts::{corner, edge_end};

// Below at the start, and at the end, whose numbers stand three places behind.
fn below(positions: &[i32], i: usize, j: usize) -> bool
    requires { (i + 3 < length positions.now) × (j + 3 < length positions.now) }
    ensures { result ≡ below_at positions.now i j }
{
    (positions[i] < positions[j]) & (positions[i + 3] < positions[j + 3])
}

// A point and a triangle on one axis, by the places of their start values.
fn point_far_at(positions: &[i32], p: usize, a: usize, b: usize, c: usize) -> bool
    requires { (p + 3 < length positions.now) × (a + 3 < length positions.now)
        × (b + 3 < length positions.now) × (c + 3 < length positions.now) }
    ensures { result ≡ point_far_at positions.now p a b c }
{
    (below(positions, p, a) & below(positions, p, b) & below(positions, p, c))
        | (below(positions, a, p) & below(positions, b, p) & below(positions, c, p))
}

fn lower(positions: &[i32], i: usize, j: usize) -> i32
    requires { (i < length positions.now) × (j < length positions.now) }
    ensures { result ≡ smaller (get_or positions.now i (pos 0)) (get_or positions.now j (pos 0)) }
{
    positions[i].min(positions[j])
}

fn higher(positions: &[i32], i: usize, j: usize) -> i32
    requires { (i < length positions.now) × (j < length positions.now) }
    ensures { result ≡ larger (get_or positions.now i (pos 0)) (get_or positions.now j (pos 0)) }
{
    positions[i].max(positions[j])
}

// One edge below another at one time: four numbers are halved to two before they are compared.
fn edge_under(positions: &[i32], a: usize, b: usize, c: usize, d: usize) -> bool
    requires { (a < length positions.now) × (b < length positions.now) × (c < length positions.now)
        × (d < length positions.now) }
    ensures { result ≡ edge_under positions.now a b c d }
{
    higher(positions, a, b) < lower(positions, c, d)
}

// Two edges on one axis.
fn edges_far_at(positions: &[i32], a: usize, b: usize, c: usize, d: usize) -> bool
    requires { (a + 3 < length positions.now) × (b + 3 < length positions.now)
        × (c + 3 < length positions.now) × (d + 3 < length positions.now) }
    ensures { result ≡ edges_far_at positions.now a b c d }
{
    (edge_under(positions, a, b, c, d) & edge_under(positions, a + 3, b + 3, c + 3, d + 3))
        | (edge_under(positions, c, d, a, b) & edge_under(positions, c + 3, d + 3, a + 3, b + 3))
}

fn point_far(positions: &[i32], v: usize, a: usize, b: usize, c: usize) -> bool
    requires { (v < length positions.now / 6) × (a < length positions.now / 6)
        × (b < length positions.now / 6) × (c < length positions.now / 6) }
    ensures { result ≡ point_far positions.now v a b c }
{
    let p = 6 * v;
    let i = 6 * a;
    let j = 6 * b;
    let k = 6 * c;
    point_far_at(positions, p, i, j, k)
        | point_far_at(positions, p + 1, i + 1, j + 1, k + 1)
        | point_far_at(positions, p + 2, i + 2, j + 2, k + 2)
}

fn edges_far(positions: &[i32], a: usize, b: usize, c: usize, d: usize) -> bool
    requires { (a < length positions.now / 6) × (b < length positions.now / 6)
        × (c < length positions.now / 6) × (d < length positions.now / 6) }
    ensures { result ≡ edges_far positions.now a b c d }
{
    let i = 6 * a;
    let j = 6 * b;
    let k = 6 * c;
    let l = 6 * d;
    if edges_far_at(positions, i, j, k, l) {
        return true;
    }
    if edges_far_at(positions, i + 1, j + 1, k + 1, l + 1) {
        return true;
    }
    edges_far_at(positions, i + 2, j + 2, k + 2, l + 2)
}

// Whether the pair of a kind and two places is far. No box looks at a seam, so it is far in the mesh with any seams.
pub fn is_far(
    positions: &[i32],
    edges: &[u32],
    triangles: &[u32],
    kind: Kind,
    i: usize,
    j: usize,
) -> bool
    requires { Spanned positions.now edges.now triangles.now kind i j }
    ensures { (w : List ℕ) → result ≡ far (scene_of positions.now edges.now triangles.now w)
        kind i j }
{
    match kind {
        Kind::PointTriangle => {
            let a = corner(triangles, j, 0);
            let b = corner(triangles, j, 1);
            point_far(positions, i, a, b, corner(triangles, j, 2))
        }
        Kind::EdgeEdge => {
            let a = edge_end(edges, i, 0);
            let b = edge_end(edges, i, 1);
            let c = edge_end(edges, j, 0);
            edges_far(positions, a, b, c, edge_end(edges, j, 1))
        }
    }
}

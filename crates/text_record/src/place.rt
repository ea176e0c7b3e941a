// A record goes to its place in the buffers: coordinates, ends, corners, or the two vertices of a seam.
ghost use Rattle.meaning.specs.Scene.{scene_of};
ghost use Rattle.std.specs.Prelude.{◌+◌, ◌≤◌, length, [], ◌∷◌, ◌≡◌};
ghost use Rattle.sequences.specs.Wrote.{Wrote};
ghost use Rattle.meaning.specs.Limits.{coordinate_limit};
ghost use Rattle.text_record.specs.Putting.{signed_of, point_from, vertex_from, Near, Ready, Roomy, Put};

use meaning::SceneCounts;
use text_line::Sort;

// The coordinate of this sign and size.
fn coordinate(minus: bool, size: u64) -> i32
    requires { size ≤ coordinate_limit }
    ensures { result ≡ signed_of minus size }
{
    if minus {
        0 - (size as i32)
    } else {
        size as i32
    }
}

// Three coordinates, those from place k on, are put at a place of the positions.
pub fn put_point(out: &mut [i32], at: usize, sizes: &[u64], minus: &[bool], k: usize)
    requires at_in_bounds { at + 3 ≤ length out.old }
    requires k_in_bounds { k + 3 ≤ length sizes.now }
    requires k_in_bounds_2 { k + 3 ≤ length minus.now }
    requires near { Near sizes.now k }
    ensures { Wrote out.old at (point_from sizes.now minus.now k) out.new (at + 3) }
{
    out[at] = coordinate(minus[k], sizes[k]);
    out[at + 1] = coordinate(minus[k + 1], sizes[k + 1]);
    out[at + 2] = coordinate(minus[k + 2], sizes[k + 2]);
}

// A vertex: where it starts and where it ends.
fn put_vertex(out: &mut [i32], at: usize, sizes: &[u64], minus: &[bool])
    requires at_in_bounds { at + 6 ≤ length out.old }
    requires in_bounds { 6 ≤ length sizes.now }
    requires in_bounds_2 { 6 ≤ length minus.now }
    requires near { Near sizes.now 0 × Near sizes.now 3 }
    ensures { Wrote out.old at (vertex_from sizes.now minus.now) out.new (at + 6) }
{
    put_point(out, at, sizes, minus, 0);
    put_point(out, at + 3, sizes, minus, 3);
}

// An edge, or a seam.
fn put_two(out: &mut [u16], at: usize, a: u16, b: u16)
    requires { at + 2 ≤ length out.old }
    ensures { Wrote out.old at (a ∷ b ∷ []) out.new (at + 2) }
{
    out[at] = a;
    out[at + 1] = b;
}

fn put_triangle(out: &mut [u16], at: usize, a: u16, b: u16, d: u16)
    requires { at + 3 ≤ length out.old }
    ensures { Wrote out.old at (a ∷ b ∷ d ∷ []) out.new (at + 3) }
{
    out[at] = a;
    out[at + 1] = b;
    out[at + 2] = d;
}

// A record goes into its buffer, behind those that stand there.
pub(crate) fn put(
    sort: Sort,
    c: SceneCounts,
    sizes: &[u64],
    minus: &[bool],
    positions: &mut [i32],
    edges: &mut [u16],
    triangles: &mut [u16],
    seams: &mut [u16],
)
    requires ready { Ready sort c sizes.now minus.now }
    requires roomy { Roomy (scene_of positions.old edges.old triangles.old seams.old) }
    ensures { Put sort c sizes.now minus.now (scene_of positions.old edges.old triangles.old seams.old)
        (scene_of positions.new edges.new triangles.new seams.new) }
{
    match sort {
        Sort::Vertex => put_vertex(positions, 6 * c.vertices, sizes, minus),
        Sort::Edge => put_two(edges, 2 * c.edges, sizes[0] as u16, sizes[1] as u16),
        Sort::Triangle => put_triangle(
            triangles,
            3 * c.triangles,
            sizes[0] as u16,
            sizes[1] as u16,
            sizes[2] as u16,
        ),
        Sort::Seam => put_two(seams, 2 * c.seams, sizes[0] as u16, sizes[1] as u16),
    }
}

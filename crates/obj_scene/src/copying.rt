// Two drafts go into the lent buffers: where a vertex starts from the one, where it ends from the other, edges and triangles from the first.
ghost use Rattle.std.specs.Prelude.{◌+◌, ◌*◌, ◌≤◌, length, ◌≡◌};
ghost use Rattle.sequences.specs.Wrote.{Wrote, written};
ghost use Rattle.obj_scene.specs.Between.{three_at, between};
ghost use Rattle.text_line.specs.Above.{Bounded};
ghost use Rattle.obj_scene.specs.Ending.{Lent, Drafts, PairCopied};

use meaning::SceneCounts;
use text_scene::copying::copy_numbers;

// Three coordinates, those at a place.
fn copy_three(own: &[i32], lent: &mut [i32], at: usize)
    requires { (at + 3 ≤ length own.now) × (at + 3 ≤ length lent.old) }
    ensures { Wrote lent.old at (three_at own.now at) lent.new (at + 3) }
{
    lent[at] = own[at];
    lent[at + 1] = own[at + 1];
    lent[at + 2] = own[at + 2];
}

fn copy_positions(p: &[i32], q: &[i32], lent: &mut [i32], count: usize)
    requires { (6 * count ≤ length p.now) × (6 * count ≤ length q.now) × (6 * count ≤ length lent.old) }
    ensures { lent.new ≡ written (between p.now q.now count) lent.old }
{
    for v in 0..count {
        copy_three(p, lent, 6 * v);
        copy_three(q, lent, 6 * v + 3);
    }
}

pub(crate) fn copy_pair(
    c: SceneCounts,
    p: &[i32],
    q: &[i32],
    e: &[u16],
    t: &[u16],
    positions: &mut [i32],
    edges: &mut [u16],
    triangles: &mut [u16],
)
    requires bounded { Bounded c }
    requires drafts { Drafts p.now q.now e.now t.now }
    requires lent { Lent positions.old edges.old triangles.old }
    ensures { PairCopied c p.now q.now e.now t.now positions.old edges.old
        triangles.old positions.new edges.new triangles.new }
{
    copy_positions(p, q, positions, c.vertices);
    copy_numbers(e, edges, 2 * c.edges);
    copy_numbers(t, triangles, 3 * c.triangles);
}

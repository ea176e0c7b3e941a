// A draft goes into the lent buffers: its scene in front, and what lies behind it is unchanged.
ghost use Rattle.meaning.specs.Scene.{scene_of};
ghost use Rattle.std.specs.Prelude.{◌≤◌, length, take, ◌≡◌};
ghost use Rattle.sequences.specs.Wrote.{written};
ghost use Rattle.text_line.specs.Above.{Bounded};
ghost use Rattle.text_record.specs.Putting.{Roomy};
ghost use Rattle.text_scene.specs.Answering.{Copied};

use meaning::SceneCounts;

fn copy_positions(own: &[i32], lent: &mut [i32], count: usize)
    requires { (count ≤ length own.now) × (count ≤ length lent.old) }
    ensures { lent.new ≡ written (take count own.now) lent.old }
{
    for k in 0..count {
        lent[k] = own[k];
    }
}

// The front of one buffer goes to the front of another.
pub fn copy_numbers(own: &[u16], lent: &mut [u16], count: usize)
    requires { (count ≤ length own.now) × (count ≤ length lent.old) }
    ensures { lent.new ≡ written (take count own.now) lent.old }
{
    for k in 0..count {
        lent[k] = own[k];
    }
}

// The scene with these counts, from the four buffers of a draft to the four that are lent.
pub fn copy_scene(
    c: SceneCounts,
    p: &[i32],
    e: &[u16],
    t: &[u16],
    w: &[u16],
    positions: &mut [i32],
    edges: &mut [u16],
    triangles: &mut [u16],
    seams: &mut [u16],
)
    requires bounded { Bounded c }
    requires roomy { Roomy (scene_of p.now e.now t.now w.now) }
    requires roomy_2 { Roomy (scene_of positions.old edges.old triangles.old seams.old) }
    ensures { Copied c (scene_of p.now e.now t.now w.now) (scene_of positions.old edges.old triangles.old seams.old)
        (scene_of positions.new edges.new triangles.new seams.new) }
{
    copy_positions(p, positions, 6 * c.vertices);
    copy_numbers(e, edges, 2 * c.edges);
    copy_numbers(t, triangles, 3 * c.triangles);
    copy_numbers(w, seams, 2 * c.seams);
}

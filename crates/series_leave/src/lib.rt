// The last step of a series goes from the draft into the lent buffers: its scene, its boxes and its list, and what lies behind is unchanged.

#![tactic(auto)]

ghost use Rattle.meaning.specs.Scene.{scene_of};
ghost use Rattle.std.specs.Prelude.{◌≡◌};
ghost use Rattle.series_leave.specs.Leaving.{count_of, LeaveReady, LastLeft};

use list_boxes::filling::fill;
use list_pairs::accepted::list_accepted;
use meaning::{Refused, SceneCounts};
use text_scene::copying::copy_scene;

// How many pairs a list has that was made, or that had no room.
fn count_of(listed: Result<usize, Refused>) -> usize
    ensures { result ≡ count_of listed }
{
    match listed {
        Ok(count) => count,
        Err(refused) => refused.carries,
    }
}

// How many pairs the last step lists is returned.
#[inline(never)] // inlined, the boxes of its list would stand on the stack beside those of the steps, and the two take more than MAKHNODRI_STACK
pub fn leave_last(
    c: SceneCounts,
    p: &[i32],
    e: &[u16],
    t: &[u16],
    w: &[u16],
    stands: &[u16],
    positions: &mut [i32],
    edges: &mut [u16],
    triangles: &mut [u16],
    seams: &mut [u16],
    boxes: &mut [i32],
    list: &mut [u32],
) -> usize
    requires { LeaveReady c (scene_of p.now e.now t.now w.now) stands.now (scene_of positions.old edges.old triangles.old seams.old) boxes.old
        list.old }
    ensures { LastLeft c (scene_of p.now e.now t.now w.now) (scene_of positions.old edges.old triangles.old seams.old)
        (scene_of positions.new edges.new triangles.new seams.new) boxes.old boxes.new list.old list.new result }
{
    copy_scene(c, p, e, t, w, positions, edges, triangles, seams);
    let np = 6 * c.vertices;
    let ne = 2 * c.edges;
    let nt = 3 * c.triangles;
    fill(&p[..np], &e[..ne], &t[..nt], boxes);
    let room = list.len();
    let mut tests = [0usize; 1];
    let listed = list_accepted(&p[..np], &e[..ne], &t[..nt], stands, list, room, &mut tests);
    count_of(listed)
}

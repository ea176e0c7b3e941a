// A seam that has been put in its place is held to 15, and then, by the table that it changed, every edge and triangle to 4.
ghost use Rattle.meaning.specs.Scene.{scene_of};
ghost use Rattle.std.specs.Prelude.{◌+◌, ◌*◌, ◌≤◌, length, take, ◌≡◌};
ghost use Rattle.scene_seams.specs.Sewing.{least_after};
ghost use Rattle.text_record.specs.Holding.{AtSeam, SeamHeld, HoldReady, Held};
ghost use Rattle.meaning.specs.Refusals.{outcome_alone};

use meaning::{Refusal, SceneCounts};
use scene_checks::faults::repeated_vertex;
use scene_seams::sew_next;
use text_line::Sort;

fn above(v: u16) -> usize
    ensures { result ≡ v + 1 }
{
    v as usize + 1
}

// The lowest number that the first vertex of a seam behind so many may have.
fn least_after(seams: &[u16], count: usize) -> usize
    requires { 2 * count ≤ length seams.now }
    ensures { result ≡ least_after (take (2 * count) seams.now) }
{
    if 0 < count {
        return above(seams[2 * count - 2]);
    }
    0
}

// The seam behind so many: the table has it then.
fn hold_seam(
    c: SceneCounts,
    positions: &[i32],
    edges: &[u16],
    triangles: &[u16],
    seams: &[u16],
    stands: &mut [u16],
) -> Result<(), Refusal>
    requires { AtSeam c (scene_of positions.now edges.now triangles.now seams.now) }
    ensures { SeamHeld c (scene_of positions.now edges.now triangles.now seams.now) stands.old stands.new
        (outcome_alone result) }
{
    let p = 6 * c.vertices;
    let e = 2 * c.edges;
    let t = 3 * c.triangles;
    let k = 2 * c.seams;
    let least = least_after(seams, c.seams);
    let broken = sew_next(&positions[..p], stands, least, seams[k], seams[k + 1]);
    let repeated = repeated_vertex(&edges[..e], &triangles[..t], stands);
    if broken {
        return Err(Refusal::BrokenSeam);
    }
    if repeated {
        return Err(Refusal::RepeatedVertex);
    }
    Ok(())
}

// The record that was put last: only a seam is still to be held to something.
pub(crate) fn hold(
    sort: Sort,
    c: SceneCounts,
    positions: &[i32],
    edges: &[u16],
    triangles: &[u16],
    seams: &[u16],
    stands: &mut [u16],
) -> Result<(), Refusal>
    requires { HoldReady sort c (scene_of positions.now edges.now triangles.now seams.now) }
    ensures { Held sort c (scene_of positions.now edges.now triangles.now seams.now) stands.old stands.new
        (outcome_alone result) }
{
    match sort {
        Sort::Vertex => Ok(()),
        Sort::Edge => Ok(()),
        Sort::Triangle => Ok(()),
        Sort::Seam => hold_seam(c, positions, edges, triangles, seams, stands),
    }
}

// The checks 1, 2, 3, 15 and 4 of scene slices.

#![tactic(auto)]

pub mod faults; // faults.rt: what each of the other checks asks

ghost use Rattle.meaning.specs.Scene.{scene_of};
ghost use Rattle.meaning.specs.Refusals.{SceneChecked};
ghost use Rattle.scene_seams.specs.Sewing.{Blank};
ghost use Rattle.scene_checks.specs.Checking.{Checked};

use faults::{out_of_range, repeated_vertex, unknown_vertex, wrong_shape};
use meaning::{Refusal, VERTEX_LIMIT};
use scene_seams::sew_all;

// May this scene be used? The shape comes first, so that the other checks read no more than the sizes allow; the seams are taken into the table
// once their numbers are known to be vertices.
pub fn check_into(
    positions: &[i32],
    edges: &[u16],
    triangles: &[u16],
    seams: &[u16],
    stands: &mut [u16],
) -> Result<(), Refusal>
    requires { Blank seams.now stands.old }
    ensures { Checked (scene_of positions.now edges.now triangles.now seams.now) stands.old stands.new result }
{
    if wrong_shape(positions, edges, triangles, seams) {
        return Err(Refusal::Shape);
    }
    let outside = out_of_range(positions);
    let unknown = unknown_vertex(positions, edges, triangles, seams);
    if outside {
        return Err(Refusal::Coordinate);
    }
    if unknown {
        return Err(Refusal::UnknownVertex);
    }
    let broken = sew_all(positions, seams, stands);
    let repeated = repeated_vertex(edges, triangles, stands);
    if broken {
        return Err(Refusal::BrokenSeam);
    }
    if repeated {
        Err(Refusal::RepeatedVertex)
    } else {
        Ok(())
    }
}

// Whether a scene is accepted, or the first check that it fails, in the table's order. The table of seams is made here and goes with the call.
pub fn check_scene(
    positions: &[i32],
    edges: &[u16],
    triangles: &[u16],
    seams: &[u16],
) -> Result<(), Refusal>
    ensures { SceneChecked (scene_of positions.now edges.now triangles.now seams.now) result }
{
    if seams.len() == 0 {
        let mut none = [0u16; 0];
        return check_into(positions, edges, triangles, seams, &mut none);
    }
    let mut stands = [0u16; VERTEX_LIMIT];
    check_into(positions, edges, triangles, seams, &mut stands)
}

// The checks 1, 2, 3, 15 and 4 of a lent mesh of any size, over a lent table of seams: scratch, in which the mesh's seams stand once it is accepted.

#![tactic(auto)]

pub mod faults; // faults.rt: what each of the other checks asks

ghost use Rattle.meaning.specs.Scene.{scene_of, vertex_count};
ghost use Rattle.scene_seams.specs.Alone.{only_positions};
ghost use Rattle.mesh_seams.specs.Sewing.{MeshBlank};
ghost use Rattle.mesh_checks.specs.Checking.{CheckedInto};

use faults::{repeated_vertex, unknown_vertex, wrong_shape};
use meaning::Refusal;
use mesh_seams::sew_all;
use scene_checks::faults::out_of_range;

// May this mesh be used? The shape comes first, so that the other checks read no more than the sizes allow; the seams are taken into the table
// once their numbers are known to be vertices.
pub fn check_mesh_into(
    positions: &[i32],
    edges: &[u32],
    triangles: &[u32],
    seams: &[u32],
    stands: &mut [u32],
) -> Result<(), Refusal>
    requires { MeshBlank (vertex_count (only_positions positions.now)) seams.now stands.old }
    ensures { CheckedInto (scene_of positions.now edges.now triangles.now seams.now) stands.old stands.new result }
{
    if wrong_shape(positions, edges, triangles, seams) {
        return Err(Refusal::Shape);
    }
    let outside = out_of_range(positions);
    let unknown = unknown_vertex(positions, edges, triangles, seams);
    if outside {
        return Err(Refusal::Coordinate);
    }
    if unknown {
        return Err(Refusal::UnknownVertex);
    }
    let broken = sew_all(positions, seams, stands);
    let repeated = repeated_vertex(edges, triangles, stands);
    if broken {
        return Err(Refusal::BrokenSeam);
    }
    if repeated {
        Err(Refusal::RepeatedVertex)
    } else {
        Ok(())
    }
}

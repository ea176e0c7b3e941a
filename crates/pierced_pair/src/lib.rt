// Whether an edge is through a triangle at one time, for an edge and a triangle that are asked for; and the refusals 5 and 6 of such a pair.

#![tactic(auto)]

pub mod places; // places.rt: an edge and a triangle by their places in the positions
pub mod accepted; // accepted.rt: an edge and a triangle of a scene that was checked already

ghost use Rattle.meaning.specs.Scene.{scene_of};
ghost use Rattle.meaning.specs.Pierced.{PiercedDecided};
ghost use Rattle.scene_seams.specs.Sewing.{Blank};
ghost use Rattle.scene_checks.specs.Checking.{Stitched};

use meaning::{Frame, Refusal, VERTEX_LIMIT};

// As `pierced_pair`, over a lent table without seams, which is that of the scene's seams afterwards.
fn pierced_into(
    positions: &[i32],
    edges: &[u16],
    triangles: &[u16],
    seams: &[u16],
    stands: &mut [u16],
    frame: Frame,
    edge: usize,
    triangle: usize,
) -> Result<bool, Refusal>
    requires { Blank seams.now stands.old }
    ensures { PiercedDecided (scene_of positions.now edges.now triangles.now seams.now) frame edge triangle result
        × Stitched (scene_of positions.now edges.now triangles.now seams.now) stands.old stands.new }
{
    scene_checks::check_into(positions, edges, triangles, seams, stands)?;
    accepted::answer(positions, edges, triangles, stands, frame, edge, triangle)
}

// Is this edge through this triangle at that time? For a scene that may be anything: its refusals come first, then 5, then 6.
pub fn pierced_pair(
    positions: &[i32],
    edges: &[u16],
    triangles: &[u16],
    seams: &[u16],
    frame: Frame,
    edge: usize,
    triangle: usize,
) -> Result<bool, Refusal>
    ensures { PiercedDecided (scene_of positions.now edges.now triangles.now seams.now) frame edge triangle result }
{
    if seams.len() == 0 {
        let mut none = [0u16; 0];
        return pierced_into(
            positions, edges, triangles, seams, &mut none, frame, edge, triangle,
        );
    }
    let mut stands = [0u16; VERTEX_LIMIT];
    pierced_into(
        positions,
        edges,
        triangles,
        seams,
        &mut stands,
        frame,
        edge,
        triangle,
    )
}

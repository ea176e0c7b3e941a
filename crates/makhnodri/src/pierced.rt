// An edge that is through a triangle already, for C and for Rust.

ghost use Rattle.meaning.specs.Refusals.{outcome_alone};
ghost use Rattle.meaning.specs.Scene.{scene_of};
ghost use Rattle.meaning.specs.Claims.{answer_byte};
ghost use Rattle.meaning.specs.Numbers.{Numbered, number_for};
ghost use Rattle.meaning.specs.Pierced.{PiercedDecided};
ghost use Rattle.meaning.specs.declared.Frame.TheVariants.{Start, End};

use c_meshes::pierced_number;
use meaning::Frame;
use pierced_pair::pierced_pair;

// Is this edge through this triangle at the start?
#[unsafe(no_mangle)]
pub extern "C" fn makhnodri_pierced_at_start_slices(
    positions: &[i32],
    edges: &[u16],
    triangles: &[u16],
    seams: &[u16],
    edge: usize,
    triangle: usize,
) -> u64
    ensures { Numbered (λ a. number_for answer_byte (outcome_alone a))
        (PiercedDecided (scene_of positions.now edges.now triangles.now seams.now) Start edge triangle) result }
{
    let frame = Frame::Start;
    pierced_number(pierced_pair(positions, edges, triangles, seams, frame, edge, triangle))
}

// The same at the end.
#[unsafe(no_mangle)]
pub extern "C" fn makhnodri_pierced_at_end_slices(
    positions: &[i32],
    edges: &[u16],
    triangles: &[u16],
    seams: &[u16],
    edge: usize,
    triangle: usize,
) -> u64
    ensures { Numbered (λ a. number_for answer_byte (outcome_alone a))
        (PiercedDecided (scene_of positions.now edges.now triangles.now seams.now) End edge triangle) result }
{
    let frame = Frame::End;
    pierced_number(pierced_pair(positions, edges, triangles, seams, frame, edge, triangle))
}

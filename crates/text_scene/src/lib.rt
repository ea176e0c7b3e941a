// The reader of scene texts. It goes over the bytes once, into a draft of its own; where no line is at fault it copies the draft into
// the lent buffers, so that a refusal has touched none of them.

#![tactic(auto)]

ghost use Rattle.meaning.specs.Scene.{scene_of};
ghost use Rattle.std.specs.Prelude.{◌≡◌};
ghost use Rattle.meaning.specs.Text.{TextRead};

pub mod copying; // copying.rt: from the draft to the lent buffers

use copying::copy_scene;
use meaning::{
    EDGE_NUMBERS, POSITION_NUMBERS, Refusal, Refused, SEAM_NUMBERS, SceneCounts, TEXT_LIMIT,
    TRIANGLE_NUMBERS, VERTEX_LIMIT,
};
use text_draft::draft_text;

// Reads a scene text into the lent buffers. The answer is the counts of the scene that then stands in front of them, or the refusal with
// its line; a refusal changes none of them.
pub fn read_scene(
    text: &[u8],
    positions: &mut [i32],
    edges: &mut [u16],
    triangles: &mut [u16],
    seams: &mut [u16],
) -> Result<SceneCounts, Refused>
    ensures { TextRead text.now (scene_of positions.old edges.old triangles.old seams.old)
        (scene_of positions.new edges.new triangles.new seams.new) result }
{
    let few = (positions.len() < POSITION_NUMBERS) | (edges.len() < EDGE_NUMBERS);
    if few | (triangles.len() < TRIANGLE_NUMBERS) | (seams.len() < SEAM_NUMBERS) {
        return Err(Refused::from(Refusal::ShortBuffer));
    }
    if TEXT_LIMIT < text.len() {
        return Err(Refused::from(Refusal::LongText));
    }
    let mut p = [0i32; POSITION_NUMBERS];
    let mut e = [0u16; EDGE_NUMBERS];
    let mut t = [0u16; TRIANGLE_NUMBERS];
    let mut w = [0u16; SEAM_NUMBERS];
    let mut stands = [0u16; VERTEX_LIMIT];
    let counts = draft_text(text, &mut p, &mut e, &mut t, &mut w, &mut stands)?;
    copy_scene(counts, &p, &e, &t, &w, positions, edges, triangles, seams);
    Ok(counts)
}

// One line of a scene text is read into a draft: arrays of the reader's own that hold the scene of the lines above in front, and the table of
// its seams. Nothing that was lent is touched here.

#![tactic(auto)]

ghost use Rattle.meaning.specs.Scene.{scene_of};
ghost use Rattle.text_record.specs.Drafting.{LineReady, LineTaken};

pub mod place; // place.rt: a record goes to its place in the buffers
mod sewing; // sewing.rt: a seam that was put there is held to 15 and 4

use meaning::{Refusal, SceneCounts};
use place::put;
use sewing::hold;
use text_line::next_line;

// A line that was taken: the counts of the scene with its record, which the draft then holds, and the place of the next line.
#[derive(Clone, Copy, Debug, PartialEq, Eq)]
pub struct Taken {
    pub counts: SceneCounts,
    pub next: usize,
}

// One line: its record goes into the draft.
pub fn take_line(
    text: &[u8],
    at: usize,
    c: SceneCounts,
    sizes: &mut [u64],
    minus: &mut [bool],
    positions: &mut [i32],
    edges: &mut [u16],
    triangles: &mut [u16],
    seams: &mut [u16],
    stands: &mut [u16],
) -> Result<Taken, Refusal>
    requires { LineReady text.now at c sizes.old minus.old (scene_of positions.old edges.old triangles.old seams.old)
        stands.old }
    ensures { LineTaken text.now at c (scene_of positions.old edges.old triangles.old seams.old) stands.old
        (scene_of positions.new edges.new triangles.new seams.new) stands.new result }
{
    let step = next_line(text, at, c, sizes, minus)?;
    put(
        step.sort, c, sizes, minus, positions, edges, triangles, seams,
    );
    hold(step.sort, c, positions, edges, triangles, seams, stands)?;
    Ok(Taken {
        counts: step.counts,
        next: step.next,
    })
}

// The front of a series is its scene: a scene text up to the first `n`, read into a draft in one pass. Nothing that was lent is touched here.

#![tactic(auto)]

ghost use Rattle.meaning.specs.Scene.{scene_of};
ghost use Rattle.text_record.specs.Putting.{Roomy};
ghost use Rattle.text_draft.specs.Reading.{BlankTable};
ghost use Rattle.series_front.specs.Fronts.{FrontIs};

use meaning::Refused;
use series_line::next_here;
use text_draft::{Lines, draft_lines, line_number};

// A series is a scene up to its first line at fault; where an `n` stands there it begins as it should. The front gives the lines of the scene, which
// the draft then holds, with the place behind them, where an `n` stands or the text ends; or its fault with its line.
pub fn draft_front(
    text: &[u8],
    positions: &mut [i32],
    edges: &mut [u16],
    triangles: &mut [u16],
    seams: &mut [u16],
    stands: &mut [u16],
) -> Result<Lines, Refused>
    requires roomy { Roomy (scene_of positions.old edges.old triangles.old seams.old) }
    requires blank_table { BlankTable stands.old }
    ensures { FrontIs text.now (scene_of positions.new edges.new triangles.new seams.new) stands.new result }
{
    match draft_lines(text, positions, edges, triangles, seams, stands) {
        Ok(lines) => Ok(lines),
        Err(stopped) => {
            let above = stopped.above;
            if next_here(text, above.at) {
                Ok(above)
            } else {
                Err(Refused {
                    why: stopped.why,
                    carries: line_number(above.counts),
                })
            }
        }
    }
}

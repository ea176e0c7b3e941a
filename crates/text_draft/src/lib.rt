// A scene text is read into a draft, line by line in one pass. Nothing that was lent is touched here.

#![tactic(auto)]

ghost use Rattle.meaning.specs.Scene.{scene_of};
ghost use Rattle.std.specs.Prelude.{◌+◌, ◌≡◌};
ghost use Rattle.text_line.specs.Above.{Bounded};
ghost use Rattle.text_record.specs.Putting.{Roomy};
ghost use Rattle.text_draft.specs.Reading.{BlankTable, DraftIs, LinesAre, total};

use meaning::{Refusal, Refused, SceneCounts};
use text_record::take_line;

// The number of the line below so many records, counted from 1: each line above it holds one.
pub fn line_number(c: SceneCounts) -> usize
    requires { Bounded c }
    ensures { result ≡ total c + 1 }
{
    c.vertices + c.edges + c.triangles + c.seams + 1
}

// The lines of a text, or those that were taken: the counts of their scene, and the place behind them.
#[derive(Clone, Copy, Debug, PartialEq, Eq)]
pub struct Lines {
    pub counts: SceneCounts,
    pub at: usize,
}

// The first line at fault: why, and the lines above it.
#[derive(Clone, Copy, Debug, PartialEq, Eq)]
pub struct Stopped {
    pub why: Refusal,
    pub above: Lines,
}

// The lines of a text in one pass, down to the first at fault: the draft then holds the scene of those that were taken. A scene's text and the front of
// a series are both read here, so that this loop alone takes lines.
pub fn draft_lines(
    text: &[u8],
    positions: &mut [i32],
    edges: &mut [u16],
    triangles: &mut [u16],
    seams: &mut [u16],
    stands: &mut [u16],
) -> Result<Lines, Stopped>
    requires roomy { Roomy (scene_of positions.old edges.old triangles.old seams.old) }
    requires blank_table { BlankTable stands.old }
    ensures { LinesAre text.now (scene_of positions.new edges.new triangles.new seams.new) stands.new result }
{
    let mut sizes = [0u64; 6];
    let mut minus = [false; 6];
    let mut c = SceneCounts {
        vertices: 0,
        edges: 0,
        triangles: 0,
        seams: 0,
    };
    let mut at = 0;
    // `while`, because each line says where the next one begins: there is no range to go over.
    while at < text.len() {
        match take_line(
            text, at, c, &mut sizes, &mut minus, positions, edges, triangles, seams, stands,
        ) {
            Err(why) => {
                return Err(Stopped {
                    why,
                    above: Lines { counts: c, at },
                });
            }
            Ok(taken) => {
                c = taken.counts;
                at = taken.next;
            }
        }
    }
    Ok(Lines { counts: c, at })
}

// The whole text of a scene: its counts, and the draft then holds it; or the first faulty line with its fault.
pub fn draft_text(
    text: &[u8],
    positions: &mut [i32],
    edges: &mut [u16],
    triangles: &mut [u16],
    seams: &mut [u16],
    stands: &mut [u16],
) -> Result<SceneCounts, Refused>
    requires roomy { Roomy (scene_of positions.old edges.old triangles.old seams.old) }
    requires blank_table { BlankTable stands.old }
    ensures { DraftIs text.now (scene_of positions.new edges.new triangles.new seams.new) stands.new result }
{
    // `match`, because the number of the line is only counted where one is at fault.
    match draft_lines(text, positions, edges, triangles, seams, stands) {
        Err(stopped) => Err(Refused {
            why: stopped.why,
            carries: line_number(stopped.above.counts),
        }),
        Ok(lines) => Ok(lines.counts),
    }
}

// An OBJ file is read into a draft, in one pass: arrays of the reader's own that hold the scene of the lines above in front, and a table of its edges.

#![tactic(auto)]

ghost use Rattle.obj_edges.specs.Chains.{Knows};
ghost use Rattle.obj_draft.specs.Drafting.{DraftRoom, LineReady, LineTaken};
ghost use Rattle.obj_draft.specs.Reading.{DraftIs};

use meaning::{ObjLine, Refusal, Refused, SceneCounts};
use obj_line::line_of;
use obj_numbers::place_of;
use obj_records::{add_face, add_vertex};

// What a line gives: the counts of the scene with what it says, which the draft then holds, and the place of the next line.
#[derive(Clone, Copy, Debug, PartialEq, Eq)]
struct Taken {
    counts: SceneCounts,
    next: usize,
}

// One line, or its fault.
fn take_line(
    text: &[u8],
    at: usize,
    c: SceneCounts,
    positions: &mut [i32],
    edges: &mut [u16],
    triangles: &mut [u16],
) -> Result<Taken, Refusal>
    requires { LineReady text.now at c positions.old edges.old triangles.old }
    ensures { LineTaken text.now at c positions.old edges.old triangles.old
        positions.new edges.new triangles.new result }
{
    let stop = at + place_of(&text[at..], b'\n');
    if text.len() <= stop {
        return Err(Refusal::BadLine);
    }
    let next = stop + 1;
    match line_of(&text[at..stop]) {
        ObjLine::Bad => Err(Refusal::BadLine),
        ObjLine::Skipped => Ok(Taken { counts: c, next }),
        ObjLine::Vertex(x, y, z) => {
            let counts = add_vertex(c, x, y, z, positions)?;
            Ok(Taken { counts, next })
        }
        ObjLine::Face(a, b, d) => {
            let counts = add_face(c, a, b, d, edges, triangles)?;
            Ok(Taken { counts, next })
        }
    }
}

// The whole file, in one pass: the counts of its scene, which the draft then holds; or the first faulty line with its fault.
pub fn draft_file(
    text: &[u8],
    positions: &mut [i32],
    edges: &mut [u16],
    triangles: &mut [u16],
) -> Result<SceneCounts, Refused>
    requires draft_room { DraftRoom positions.old edges.old triangles.old }
    requires knows { Knows edges.old 0 }
    ensures { DraftIs text.now positions.new edges.new triangles.new result }
{
    let mut c = SceneCounts {
        vertices: 0,
        edges: 0,
        triangles: 0,
        seams: 0,
    };
    let mut at = 0;
    let mut line = 1;
    // A `while`, because each line says where the next one begins.
    while at < text.len() {
        match take_line(text, at, c, positions, edges, triangles) {
            Err(why) => return Err(Refused { why, carries: line }),
            Ok(taken) => {
                c = taken.counts;
                at = taken.next;
                line += 1;
            }
        }
    }
    Ok(c)
}

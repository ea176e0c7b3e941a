// A series in one call: its text is read step by step into arrays of the call's own, each step is told, and only where nothing refuses do the
// lent buffers get the last step. So a refusal has touched none of them.

#![tactic(auto)]

ghost use Rattle.meaning.specs.Scene.{scene_of};
ghost use Rattle.std.specs.Prelude.{◌≤◌, ◌≡◌, length};
ghost use Rattle.meaning.specs.Limits.{text_limit};
ghost use Rattle.text_record.specs.Putting.{Roomy};
ghost use Rattle.series_front.specs.Fronts.{FrontRead};
ghost use Rattle.meaning.specs.SeriesCall.{SeriesCalled, SeriesCounted};
ghost use Rattle.series_walk.specs.Telling.{refused_with};
ghost use Rattle.series_call.specs.Answering.{AllLent, DraftTold, TextTold};

use meaning::{
    BOX_NUMBERS, EDGE_NUMBERS, POSITION_NUMBERS, Refusal, Refused, SEAM_NUMBERS, SceneCounts,
    SeriesAnswer, SeriesListed, TEXT_LIMIT, TRIANGLE_NUMBERS, VERTEX_LIMIT,
};
use series_front::draft_front;
use series_leave::leave_last;
use series_walk::tell_steps;

// A refusal, with its line or count; nothing is told and nothing listed.
fn refused(why: Refused) -> SeriesListed
    ensures { result ≡ record { answer = refused_with why; count = 0 } }
{
    SeriesListed {
        answer: series_walk::refused(why),
        count: 0,
    }
}

// The steps of a text whose scene stands in front of the draft; its positions then hold the last step.
fn tell_draft(
    text: &[u8],
    at: usize,
    c: SceneCounts,
    p: &mut [i32],
    e: &[u16],
    t: &[u16],
    w: &[u16],
    stands: &[u16],
    room: usize,
) -> SeriesAnswer
    requires { FrontRead text.now (scene_of p.old e.now t.now w.now) stands.now c at × Roomy (scene_of p.old e.now t.now w.now)
        × (length text.now ≤ text_limit) }
    ensures { DraftTold text.now room (scene_of p.new e.now t.now w.now) c result }
{
    let line = c.vertices + c.edges + c.triangles + c.seams;
    let np = 6 * c.vertices;
    let ne = 2 * c.edges;
    let nt = 3 * c.triangles;
    let nw = 2 * c.seams;
    tell_steps(
        text,
        at,
        line,
        c,
        &mut p[..np],
        &e[..ne],
        &t[..nt],
        &w[..nw],
        stands,
        room,
    )
}

// A text that is not too long, with lent buffers that are large enough.
fn tell_text(
    text: &[u8],
    positions: &mut [i32],
    edges: &mut [u16],
    triangles: &mut [u16],
    seams: &mut [u16],
    boxes: &mut [i32],
    list: &mut [u32],
) -> SeriesListed
    requires { AllLent text.now (scene_of positions.old edges.old triangles.old seams.old) boxes.old }
    ensures { TextTold text.now (scene_of positions.old edges.old triangles.old seams.old)
        (scene_of positions.new edges.new triangles.new seams.new) boxes.old boxes.new list.old list.new
        result.answer result.count }
{
    let mut p = [0i32; POSITION_NUMBERS];
    let mut e = [0u16; EDGE_NUMBERS];
    let mut t = [0u16; TRIANGLE_NUMBERS];
    let mut w = [0u16; SEAM_NUMBERS];
    let mut stands = [0u16; VERTEX_LIMIT];
    match draft_front(text, &mut p, &mut e, &mut t, &mut w, &mut stands) {
        Err(why) => refused(why),
        Ok(lines) => {
            let c = lines.counts;
            let room = list.len();
            let answer = tell_draft(text, lines.at, c, &mut p, &e, &t, &w, &stands, room);
            match answer.outcome {
                Err(_) => SeriesListed { answer, count: 0 },
                Ok(_) => {
                    let count = leave_last(
                        c, &p, &e, &t, &w, &stands, positions, edges, triangles, seams, boxes, list,
                    );
                    SeriesListed { answer, count }
                }
            }
        }
    }
}

// Tells a series. The answer is what is told and the counts of the last step, which the lent buffers then hold with its boxes and its list; or
// the refusal with its line or the count needed, and then none of them has changed. Beside it stands how many pairs the last step lists.
pub fn tell_series(
    text: &[u8],
    positions: &mut [i32],
    edges: &mut [u16],
    triangles: &mut [u16],
    seams: &mut [u16],
    boxes: &mut [i32],
    list: &mut [u32],
) -> SeriesListed
    ensures { SeriesCounted text.now (scene_of positions.old edges.old triangles.old seams.old)
        (scene_of positions.new edges.new triangles.new seams.new) boxes.old boxes.new list.old list.new result }
{
    let few = (positions.len() < POSITION_NUMBERS) | (edges.len() < EDGE_NUMBERS);
    let short = few | (triangles.len() < TRIANGLE_NUMBERS) | (seams.len() < SEAM_NUMBERS);
    if (boxes.len() < BOX_NUMBERS) | short {
        return refused(Refused::from(Refusal::ShortBuffer));
    }
    if TEXT_LIMIT < text.len() {
        return refused(Refused::from(Refusal::LongText));
    }
    tell_text(text, positions, edges, triangles, seams, boxes, list)
}

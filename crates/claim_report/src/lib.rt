// The answers to claims as bytes: a line `yes` or `no` for each; or the one line of a refusal.

#![tactic(auto)]

ghost use Rattle.meaning.specs.Scene.{scene_of};
ghost use Rattle.std.specs.Prelude.{ℕ, ◌≤◌, ◌<◌, ◌≡◌, List, length};
ghost use Rattle.sequences.specs.Gather.{gather};
ghost use Rattle.sequences.specs.Wrote.{Wrote};
ghost use Rattle.meaning.specs.Limits.{claim_room, text_limit};
ghost use Rattle.meaning.specs.Report.{OfAllRead};
ghost use Rattle.meaning.specs.Claims.{AnswersReported};
ghost use Rattle.claim_report.specs.Printed.{answers_length, line_at, SceneAnswered};

use answers::number_of;
use meaning::{
    CLAIM_ROOM, EDGE_NUMBERS, POSITION_NUMBERS, READ_BYTES, SEAM_NUMBERS, TRIANGLE_NUMBERS,
};
use report_words::lines::{answer_line, refused_line};

// The bytes that hold the answers to any claims: `yes` and LF for each.
pub const ANSWERS_BYTES: usize = 4 * CLAIM_ROOM;

// A line for each of the first `count` answers.
fn answer_lines(answers: &[u8], count: usize, out: &mut [u8]) -> usize
    requires { (count ≤ length answers.now) × (count ≤ claim_room) × (length out.old ≡ answers_length) }
    ensures { Wrote out.old 0 (gather (line_at answers.now) 0 count) out.new result }
{
    let mut next = 0;
    for k in 0..count {
        next = answer_line(out, next, answers[k] == 1);
    }
    next
}

// The answers to claims beside a scene.
fn scene_answers(
    positions: &[i32],
    edges: &[u16],
    triangles: &[u16],
    seams: &[u16],
    claims: &[u8],
    out: &mut [u8],
) -> usize
    requires { length out.old ≡ answers_length }
    ensures { SceneAnswered (scene_of positions.now edges.now triangles.now seams.now) claims.now out.old
        out.new result }
{
    let mut answers = [0u8; CLAIM_ROOM];
    match claim_answers::check_claims(positions, edges, triangles, seams, claims, &mut answers) {
        Ok(count) => answer_lines(&answers, count, out),
        Err(refused) => refused_line(out, 0, number_of(refused.why), refused.carries as u64),
    }
}

// The answers to the claims of one text beside the scene of another.
pub fn write_answers(scene: &[u8], claims: &[u8], out: &mut [u8; ANSWERS_BYTES]) -> usize
    ensures { AnswersReported scene.now claims.now out.old out.new result }
{
    let mut positions = [0i32; POSITION_NUMBERS];
    let mut edges = [0u16; EDGE_NUMBERS];
    let mut triangles = [0u16; TRIANGLE_NUMBERS];
    let mut seams = [0u16; SEAM_NUMBERS];
    match text_scene::read_scene(
        scene,
        &mut positions,
        &mut edges,
        &mut triangles,
        &mut seams,
    ) {
        Ok(counts) => {
            let p = 6 * counts.vertices;
            let e = 2 * counts.edges;
            let t = 3 * counts.triangles;
            let w = 2 * counts.seams;
            scene_answers(
                &positions[..p],
                &edges[..e],
                &triangles[..t],
                &seams[..w],
                claims,
                out,
            )
        }
        Err(refused) => refused_line(out, 0, number_of(refused.why), refused.carries as u64),
    }
}

// The answers of what was read of two texts into buffers that are longer than a text may be. Where it fills its buffer, a text is too long however
// it goes on; else it is the text.
fn front_answers(
    scene: &[u8],
    count: usize,
    claims: &[u8],
    claimed: usize,
    out: &mut [u8; ANSWERS_BYTES],
) -> usize
    requires { (text_limit < length scene.now) × (text_limit < length claims.now) }
    ensures { OfAllRead (λ (s : List ℕ). OfAllRead (λ (t : List ℕ). AnswersReported s t out.old out.new result)
        claims.now claimed) scene.now count }
{
    let first = count.min(scene.len());
    let second = claimed.min(claims.len());
    write_answers(&scene[..first], &claims[..second], out)
}

// The answers of what a program read: the first `count` bytes of the scene's buffer, and the first `claimed` of the claims'.
pub fn answers_read(
    scene: &[u8; READ_BYTES],
    count: usize,
    claims: &[u8; READ_BYTES],
    claimed: usize,
    out: &mut [u8; ANSWERS_BYTES],
) -> usize
    ensures { OfAllRead (λ (s : List ℕ). OfAllRead (λ (t : List ℕ). AnswersReported s t out.old out.new result)
        claims.now claimed) scene.now count }
{
    front_answers(scene, count, claims, claimed, out)
}

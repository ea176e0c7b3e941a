// The answers to a text of claims beside a scene. It goes over the claims twice: first it looks at every line, and only where none is at
// fault and there is room it answers them.

#![tactic(auto)]

ghost use Rattle.scene_seams.specs.Alone.{tabled};
ghost use Rattle.std.specs.Prelude.{◌≤◌, length, get_or, ◌≡◌, false};
ghost use Rattle.meaning.specs.Scene.{scene_of, Accepted};
ghost use Rattle.meaning.specs.Pieces.{piece_of};
ghost use Rattle.meaning.specs.Refusals.{not_there};
ghost use Rattle.meaning.specs.Claims.{AnswerIs, answer_byte, ClaimsChecked};
ghost use Rattle.scene_seams.specs.Sewing.{Blank};
ghost use Rattle.scene_checks.specs.Checking.{Stitched};
ghost use Rattle.claim_answers.specs.Inspecting.{Inspected};
ghost use Rattle.claim_answers.specs.Weighing.{weights_from};
ghost use Rattle.claim_answers.specs.Answering.{Roomy, Answered};

use answers_order::{first_of, refused_if};
use claim_line::next_claim;
use claim_sums::borne_out;
use four_words::six::six_of;
use meaning::{Kind, Refusal, Refused, TEXT_LIMIT, VERTEX_LIMIT};

// The first pass: how many claims there are, or the first faulty line with its fault.
fn inspect(
    positions: &[i32],
    edges: &[u16],
    triangles: &[u16],
    stands: &[u16],
    text: &[u8],
) -> Result<usize, Refused>
    ensures { Inspected (tabled positions.now edges.now triangles.now stands.now) text.now result }
{
    let mut sizes = [0u64; 9];
    let mut minus = [false; 9];
    let mut count: usize = 0;
    let mut at = 0;
    // `while`, because each line says where the next one begins: there is no range to go over.
    while at < text.len() {
        match next_claim(
            positions, edges, triangles, stands, text, at, &mut sizes, &mut minus,
        ) {
            Err(why) => {
                return Err(Refused {
                    why,
                    carries: count + 1,
                });
            }
            Ok(claim) => {
                count += 1;
                at = claim.next;
            }
        }
    }
    Ok(count)
}

// Is the claim of this kind with these numbers borne out? They are two places, the piece, six weights.
fn answer(
    positions: &[i32],
    edges: &[u16],
    triangles: &[u16],
    stands: &[u16],
    kind: Kind,
    numbers: &[u64; 9],
) -> bool
    requires accepted { Accepted (tabled positions.now edges.now triangles.now stands.now) }
    requires numbers_value { not_there (tabled positions.now edges.now triangles.now stands.now) kind (get_or numbers.now 0 0)
        (get_or numbers.now 1 0) ≡ false }
    ensures { AnswerIs (piece_of (tabled positions.now edges.now triangles.now stands.now) kind
        (get_or numbers.now 0 0) (get_or numbers.now 1 0) (get_or numbers.now 2 0))
        (weights_from numbers.now) result }
{
    let i = numbers[0] as usize;
    let j = numbers[1] as usize;
    let k = numbers[2] as usize;
    let six = six_of(positions, edges, triangles, stands, kind, i, j, k);
    let weights = [
        numbers[3], numbers[4], numbers[5], numbers[6], numbers[7], numbers[8],
    ];
    borne_out(positions, six, &weights)
}

// An answer as a byte: no is 0, yes is 1.
fn byte_of(yes: bool) -> u8
    ensures { result ≡ answer_byte yes }
{
    if yes { 1 } else { 0 }
}

// The second pass, over claims none of which is at fault: the buffer then holds their answers in front.
fn answer_all(
    positions: &[i32],
    edges: &[u16],
    triangles: &[u16],
    stands: &[u16],
    text: &[u8],
    answers: &mut [u8],
)
    requires accepted { Accepted (tabled positions.now edges.now triangles.now stands.now) }
    requires roomy { Roomy (tabled positions.now edges.now triangles.now stands.now) text.now answers.old }
    ensures { Answered (tabled positions.now edges.now triangles.now stands.now) text.now answers.old
        answers.new }
{
    let mut sizes = [0u64; 9];
    let mut minus = [false; 9];
    let mut count: usize = 0;
    let mut at = 0;
    // `while`, because each line says where the next one begins: there is no range to go over.
    while at < text.len() {
        match next_claim(
            positions, edges, triangles, stands, text, at, &mut sizes, &mut minus,
        ) {
            Err(_) => {
                return;
            }
            Ok(claim) => {
                answers[count] = byte_of(answer(
                    positions, edges, triangles, stands, claim.kind, &sizes,
                ));
                count += 1;
                at = claim.next;
            }
        }
    }
}

// As `check_claims`, over a lent table without seams, which is that of the scene's seams afterwards.
fn check_into(
    positions: &[i32],
    edges: &[u16],
    triangles: &[u16],
    seams: &[u16],
    stands: &mut [u16],
    text: &[u8],
    answers: &mut [u8],
) -> Result<usize, Refused>
    requires { Blank seams.now stands.old }
    ensures { ClaimsChecked (scene_of positions.now edges.now triangles.now seams.now) text.now answers.old
        answers.new result × Stitched (scene_of positions.now edges.now triangles.now seams.now) stands.old stands.new }
{
    let scene = scene_checks::check_into(positions, edges, triangles, seams, stands);
    let brief = refused_if(TEXT_LIMIT < text.len(), Refusal::LongText);
    first_of(scene, brief)?;
    let count = inspect(positions, edges, triangles, stands, text)?;
    if answers.len() < count {
        return Err(Refused {
            why: Refusal::NoRoom,
            carries: count,
        });
    }
    answer_all(positions, edges, triangles, stands, text, answers);
    Ok(count)
}

// Checks a text of claims beside a scene. The answer is how many there are, and the lent buffer then holds a byte for each in front, 1
// for yes and 0 for no; or a refusal, and no claim is answered.
pub fn check_claims(
    positions: &[i32],
    edges: &[u16],
    triangles: &[u16],
    seams: &[u16],
    text: &[u8],
    answers: &mut [u8],
) -> Result<usize, Refused>
    ensures { ClaimsChecked (scene_of positions.now edges.now triangles.now seams.now) text.now answers.old
        answers.new result }
{
    if seams.len() == 0 {
        let mut none = [0u16; 0];
        return check_into(positions, edges, triangles, seams, &mut none, text, answers);
    }
    let mut stands = [0u16; VERTEX_LIMIT];
    check_into(
        positions,
        edges,
        triangles,
        seams,
        &mut stands,
        text,
        answers,
    )
}

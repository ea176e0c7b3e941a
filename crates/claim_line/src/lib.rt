// One line of a text of claims: the claim that stands there, and its first fault.

#![tactic(auto)]

ghost use Rattle.scene_seams.specs.Alone.{tabled};
ghost use Rattle.std.specs.Prelude.{◌≤◌, ◌<◌, length, ◌≡◌};
ghost use Rattle.claim_line.specs.Reading.{wide_in, NumbersRead, LineRead};
ghost use Rattle.claim_line.specs.Stepping.{AskedIs, Stepped};
ghost use Rattle.meaning.specs.Refusals.{outcome_alone};

use meaning::{Kind, Refusal, WEIGHT_DIGITS};
use scene_parts::asked;
use text_fields::Form;

// A place or a piece has at most nine digits.
const PLACE_LIMIT: u64 = 1000000000;

// A claim that stands in a line: its kind, and the place of the next line.
#[derive(Clone, Copy, Debug, PartialEq, Eq)]
pub struct Line {
    pub kind: Kind,
    pub next: usize,
}

// Has one of the first three numbers more than nine digits?
fn wide(sizes: &[u64]) -> bool
    requires { 9 ≤ length sizes.now }
    ensures { result ≡ wide_in sizes.now }
{
    (PLACE_LIMIT <= sizes[0]) | (PLACE_LIMIT <= sizes[1]) | (PLACE_LIMIT <= sizes[2])
}

// The nine numbers of a claim, behind its word: all are read as weights are, and the first three are then held to nine digits. Where the next
// line begins, if they stand there.
fn read_numbers(text: &[u8], at: usize, sizes: &mut [u64], minus: &mut [bool]) -> Option<usize>
    requires in_bounds { 9 ≤ length sizes.old }
    requires in_bounds_2 { 9 ≤ length minus.old }
    ensures { NumbersRead text.now at sizes.new minus.new result }
{
    let form = Form {
        separator: b'\t',
        signed: false,
        most: WEIGHT_DIGITS,
    };
    let ending = text_fields::read_row(text, at, form, 9, sizes, minus);
    if wide(sizes) {
        return None;
    }
    ending
}

// The claim at a place of the text, if one stands there. Its numbers are then in front of the buffers: two places, the piece, six weights.
fn read_line(text: &[u8], at: usize, sizes: &mut [u64], minus: &mut [bool]) -> Option<Line>
    requires at_in_bounds { at < length text.now }
    requires in_bounds { 9 ≤ length sizes.old }
    requires in_bounds_2 { 9 ≤ length minus.old }
    ensures { LineRead text.now at sizes.new minus.new result }
{
    let first = decimals::byte_at(text, at);
    let second = decimals::byte_at(text, at + 1);
    if (first == b'p') & (second == b't') {
        let next = read_numbers(text, at + 2, sizes, minus)?;
        return Some(Line {
            kind: Kind::PointTriangle,
            next,
        });
    }
    if (first == b'e') & (second == b'e') {
        let next = read_numbers(text, at + 2, sizes, minus)?;
        return Some(Line {
            kind: Kind::EdgeEdge,
            next,
        });
    }
    None
}

// 5, then 6, of the piece that a claim names.
fn judge(
    positions: &[i32],
    edges: &[u16],
    triangles: &[u16],
    stands: &[u16],
    kind: Kind,
    i: usize,
    j: usize,
    k: usize,
) -> Result<(), Refusal>
    ensures { AskedIs (tabled positions.now edges.now triangles.now stands.now) kind i j k (outcome_alone result) }
{
    if asked::not_there(positions, edges, triangles, kind, i, j) {
        return Err(Refusal::NotThere);
    }
    let past = asked::piece_count(kind) <= k;
    let shared = asked::shares_vertex(positions, edges, triangles, stands, kind, i, j);
    if past {
        return Err(Refusal::NotThere);
    }
    if shared {
        return Err(Refusal::SharedVertex);
    }
    Ok(())
}

// One line of claims beside a scene. Both passes go by it.
pub fn next_claim(
    positions: &[i32],
    edges: &[u16],
    triangles: &[u16],
    stands: &[u16],
    text: &[u8],
    at: usize,
    sizes: &mut [u64],
    minus: &mut [bool],
) -> Result<Line, Refusal>
    requires at_in_bounds { at < length text.now }
    requires in_bounds { 9 ≤ length sizes.old }
    requires in_bounds_2 { 9 ≤ length minus.old }
    ensures { Stepped (tabled positions.now edges.now triangles.now stands.now) text.now at sizes.new
        minus.new result }
{
    let line = read_line(text, at, sizes, minus).ok_or(Refusal::BadLine)?;
    let i = sizes[0] as usize;
    let j = sizes[1] as usize;
    let k = sizes[2] as usize;
    judge(positions, edges, triangles, stands, line.kind, i, j, k)?;
    Ok(line)
}

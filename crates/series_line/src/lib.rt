// One line of a series: the line `n`, and what stands in a line of a block.

#![tactic(auto)]

ghost use Rattle.std.specs.Prelude.{Err, ◌≤◌, ◌<◌, length, ◌≡◌};
ghost use Rattle.series_line.specs.Reading.{next_here, part_found, OtherHere, BlockLineRead};

use meaning::DIGIT_LIMIT;
use text_fields::Form;

// What stands in a line below an `n`: the next end of a vertex, or another `n`, each with the place of the line behind it.
#[derive(Clone, Copy, Debug, PartialEq, Eq)]
pub enum BlockLine {
    Ends(usize),
    Next(usize),
}

// What may be wrong with such a line: it is a record that may not stand there, or nothing of a series.
#[derive(Clone, Copy, Debug, PartialEq, Eq)]
pub enum LineFault {
    Late,
    Bad,
}

// Whether the line `n` stands at a place.
pub fn next_here(text: &[u8], at: usize) -> bool
    requires { at < length text.now }
    ensures { result ≡ next_here text.now at }
{
    let letter = decimals::byte_at(text, at);
    let behind = decimals::byte_at(text, at + 1);
    (letter == b'n') & (behind == b'\n')
}

fn part_found(ending: Option<usize>) -> LineFault
    ensures { result ≡ part_found ending }
{
    match ending {
        Some(_) => LineFault::Late,
        None => LineFault::Bad,
    }
}

// A line that is no `v` line and no `n`: whether it is a record of a scene is all that is asked. It is not asked of the reader of scenes, whose loop
// would be slower if its lines were read from here too.
fn other_line(text: &[u8], at: usize, sizes: &mut [u64], minus: &mut [bool]) -> LineFault
    requires other_here { OtherHere text.now at }
    requires in_bounds { 6 ≤ length sizes.old }
    requires in_bounds_2 { 6 ≤ length minus.old }
    ensures { BlockLineRead text.now at sizes.new minus.new (Err result) }
{
    let letter = text[at];
    let form = Form {
        separator: b'\t',
        signed: false,
        most: DIGIT_LIMIT,
    };
    if letter == b'e' {
        return part_found(text_fields::read_row(text, at + 1, form, 2, sizes, minus));
    }
    if letter == b't' {
        return part_found(text_fields::read_row(text, at + 1, form, 3, sizes, minus));
    }
    if letter == b'w' {
        return part_found(text_fields::read_row(text, at + 1, form, 2, sizes, minus));
    }
    LineFault::Bad
}

// The line at a place below an `n`. The numbers of a `v` line are then in front of the buffers.
pub fn block_line(
    text: &[u8],
    at: usize,
    sizes: &mut [u64],
    minus: &mut [bool],
) -> Result<BlockLine, LineFault>
    requires at_in_bounds { at < length text.now }
    requires in_bounds { 6 ≤ length sizes.old }
    requires in_bounds_2 { 6 ≤ length minus.old }
    ensures { BlockLineRead text.now at sizes.new minus.new result }
{
    if next_here(text, at) {
        return Ok(BlockLine::Next(at + 2));
    }
    let letter = text[at];
    if letter == b'v' {
        let form = Form {
            separator: b'\t',
            signed: true,
            most: DIGIT_LIMIT,
        };
        let next = text_fields::read_row(text, at + 1, form, 3, sizes, minus).ok_or(
            LineFault::Bad,
        )?;
        return Ok(BlockLine::Ends(next));
    }
    Err(other_line(text, at, sizes, minus))
}

// A block of a series is read into the draft: each vertex goes on to its next end, where it stands in the reader's own positions. Nothing that was
// lent is touched here.

#![tactic(auto)]

mod moving; // moving.rt: a vertex goes on, and what may be wrong with its next end

ghost use Rattle.std.specs.Prelude.{◌+◌, ◌≤◌, length, ◌≡◌};
ghost use Rattle.series_block.specs.Taking.{fault_of, closed_or, LineAsked, BlockTaken};
ghost use Rattle.series_block.specs.Reading.{AtSomeStep, ends_at_once, BlockRead};

use moving::take_end;
use series_line::{BlockLine, LineFault, block_line};

// What may be wrong with a line of a block: 9, 10, 13, 2, 15.
#[derive(Clone, Copy, Debug, PartialEq, Eq)]
pub enum BlockFault {
    Form,
    Late,
    Length,
    Far,
    Apart,
}

impl From<LineFault> for BlockFault {
    ghost from_gives = { λ line fault. fault ≡ fault_of line };

    fn from(line: LineFault) -> BlockFault {
        match line {
            LineFault::Late => BlockFault::Late,
            LineFault::Bad => BlockFault::Form,
        }
    }
}

// What a line that is not at fault does: it is an `n`, and the block above it is whole; or the next vertex has gone on, and this is the place
// of the line behind it. No `Option`, because both are good ends of a line: `None` would say that one of them is missing.
#[derive(Clone, Copy, Debug, PartialEq, Eq)]
pub enum LineTaken {
    Closed,
    Moved(usize),
}

// An `n` behind so many lines of a block.
fn closed_or(vertices: usize, k: usize) -> Result<LineTaken, BlockFault>
    ensures { result ≡ closed_or vertices k }
{
    if vertices <= k {
        Ok(LineTaken::Closed)
    } else {
        Err(BlockFault::Length)
    }
}

// The line behind k lines of a block.
fn take_block_line(
    text: &[u8],
    at: usize,
    k: usize,
    positions: &mut [i32],
    seams: &[u16],
    sizes: &mut [u64],
    minus: &mut [bool],
) -> Result<LineTaken, BlockFault>
    requires { LineAsked text.now at k positions.old seams.now sizes.old minus.old }
    ensures { BlockTaken text.now at k positions.old positions.new seams.now result }
{
    match block_line(text, at, sizes, minus)? {
        BlockLine::Next(_) => closed_or(positions.len() / 6, k),
        BlockLine::Ends(next) => {
            take_end(text.len() <= next, k, positions, seams, sizes, minus)?;
            Ok(LineTaken::Moved(next))
        }
    }
}

// A block that was read: the place behind it, where another `n` stands or the text ends, and the number of its last line.
#[derive(Clone, Copy, Debug, PartialEq, Eq)]
pub struct Block {
    pub next: usize,
    pub last: usize,
}

// What is wrong with a line of a block, and the number of the line.
#[derive(Clone, Copy, Debug, PartialEq, Eq)]
pub struct FaultyLine {
    pub fault: BlockFault,
    pub line: usize,
}

// Whether the text ends behind the `n` at a place, and vertices are still to come.
fn ends_at_once(text: &[u8], at: usize, positions: &[i32]) -> bool
    requires { at + 2 ≤ length text.now }
    ensures { result ≡ ends_at_once text.now at positions.now }
{
    (text.len() <= at + 2) & (0 < positions.len() / 6)
}

// The block of the `n` at a place, which is the line of this number, up to the next `n` or to the end of the text. The positions are then those of
// its step.
pub fn read_block(
    text: &[u8],
    at: usize,
    line: usize,
    positions: &mut [i32],
    seams: &[u16],
) -> Result<Block, FaultyLine>
    requires { AtSomeStep text.now at line positions.old seams.now }
    ensures { BlockRead text.now at line positions.old positions.new seams.now result }
{
    if ends_at_once(text, at, positions) {
        return Err(FaultyLine {
            fault: BlockFault::Length,
            line,
        });
    }
    let mut sizes = [0u64; 6];
    let mut minus = [false; 6];
    let mut k = 0;
    let mut next = at + 2;
    let mut read = line;
    // `while`, because each line says where the next one begins: there is no range to go over.
    while next < text.len() {
        match take_block_line(text, next, k, positions, seams, &mut sizes, &mut minus) {
            Err(fault) => {
                return Err(FaultyLine {
                    fault,
                    line: read + 1,
                });
            }
            Ok(LineTaken::Closed) => {
                return Ok(Block { next, last: read });
            }
            Ok(LineTaken::Moved(after)) => {
                k += 1;
                next = after;
                read += 1;
            }
        }
    }
    Ok(Block { next, last: read })
}

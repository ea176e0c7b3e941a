// The steps of a series, told one behind the other as their blocks are read. All of it stands in arrays of the caller's own.

#![tactic(auto)]

ghost use Rattle.scene_seams.specs.Alone.{tabled};
ghost use Rattle.std.specs.Prelude.{◌≡◌};
ghost use Rattle.meaning.specs.Scene.{Accepted};
ghost use Rattle.meaning.specs.Refusals.{number_of};
ghost use Rattle.series_block.specs.Moving.{fault_number};
ghost use Rattle.series_walk.specs.Telling.{StepAdded, refused_with, RoomAnswer};
ghost use Rattle.series_walk.specs.Reading.{FirstStep, StepsAre};

use meaning::{Refusal, Refused, SceneCounts, SeriesAnswer, SeriesTold};
use series_block::{BlockFault, read_block};
use series_step::tell_step;
use series_words::nothing_told;

// What is told so far, and 0, or the count of the first step whose list has no room. Once there is such a step, nothing more is told.
#[derive(Clone, Copy, Debug, PartialEq, Eq)]
pub struct Telling {
    pub told: SeriesTold,
    pub needed: usize,
}

// The refusal of a fault in a block.
fn refusal_of(fault: BlockFault) -> Refusal
    ensures { number_of result ≡ fault_number fault }
{
    match fault {
        BlockFault::Form => Refusal::BadLine,
        BlockFault::Late => Refusal::LateRecord,
        BlockFault::Length => Refusal::BlockLength,
        BlockFault::Far => Refusal::Coordinate,
        BlockFault::Apart => Refusal::BrokenSeam,
    }
}

// The step of this number goes behind those that were told.
fn tell_next(
    positions: &[i32],
    edges: &[u16],
    triangles: &[u16],
    stands: &[u16],
    step: usize,
    room: usize,
    past: Telling,
) -> Telling
    requires { Accepted (tabled positions.now edges.now triangles.now stands.now) }
    ensures { StepAdded room step (tabled positions.now edges.now triangles.now stands.now) past result }
{
    if 0 < past.needed {
        return past;
    }
    let next = tell_step(positions, edges, triangles, stands, step, past.told);
    if room < next.count {
        return Telling {
            told: next.told,
            needed: next.count,
        };
    }
    Telling {
        told: next.told,
        needed: 0,
    }
}

// A refusal, with its line or count; nothing is told, whatever was told before it.
pub fn refused(why: Refused) -> SeriesAnswer
    ensures { result ≡ refused_with why }
{
    SeriesAnswer {
        outcome: Err(why),
        told: nothing_told(),
    }
}

// After the last step: 7 where a step had no room, else what is told.
fn room_answer(c: SceneCounts, all: Telling) -> SeriesAnswer
    ensures { result ≡ RoomAnswer c all }
{
    if 0 < all.needed {
        return refused(Refused {
            why: Refusal::NoRoom,
            carries: all.needed,
        });
    }
    SeriesAnswer {
        outcome: Ok(c),
        told: all.told,
    }
}

// From the scene of a series, whose lines end at a place, to its last step, which the positions then hold; or the first faulty line; or 7.
pub fn tell_steps(
    text: &[u8],
    at: usize,
    line: usize,
    c: SceneCounts,
    positions: &mut [i32],
    edges: &[u16],
    triangles: &[u16],
    seams: &[u16],
    stands: &[u16],
    room: usize,
) -> SeriesAnswer
    requires { FirstStep text.now at line positions.old edges.now triangles.now seams.now stands.now }
    ensures { StepsAre text.now room positions.new edges.now triangles.now
        seams.now c result.outcome result.told }
{
    let none = Telling {
        told: nothing_told(),
        needed: 0,
    };
    let mut past = tell_next(positions, edges, triangles, stands, 1, room, none);
    let mut step = 1;
    let mut next = at;
    let mut read = line;
    // `while`, because each block says where the next one begins: there is no range to go over.
    while next < text.len() {
        match read_block(text, next, read + 1, positions, seams) {
            Err(faulty) => {
                return refused(Refused {
                    why: refusal_of(faulty.fault),
                    carries: faulty.line,
                });
            }
            Ok(block) => {
                step += 1;
                next = block.next;
                read = block.last;
                past = tell_next(positions, edges, triangles, stands, step, room, past);
            }
        }
    }
    room_answer(c, past)
}

// What is told of a series, as numbers in lent arrays: neither a struct nor an enum crosses to C.

#![tactic(auto)]

ghost use Rattle.meaning.specs.Scene.{scene_of};
ghost use Rattle.std.specs.Prelude.{◌+◌, ◌*◌, ◌≤◌, ◌<◌, [], ◌∷◌, ◌≡◌, length, set, take};
ghost use Rattle.sequences.specs.Wrote.{written};
ghost use Rattle.meaning.specs.Series.{log_limit};
ghost use Rattle.meaning.specs.SeriesNumbers.{row_step, row_entry, rows_of, told_numbers, refused_number};
ghost use Rattle.meaning.specs.SeriesNumbers.{SeriesInto};

use answers::number_of;
use meaning::{LOG_ROOM, Log, PLACE_STEP, Refusal, Refused, SceneCounts, SeriesTold, StepHit};

// A place in an entry is below this.
const PLACES: usize = PLACE_STEP as usize;

// Two numbers for each entry of a log: its step, and the number of its pair as a list has it.
pub const LOG_NUMBERS: usize = 2 * LOG_ROOM;

fn put_row(hit: StepHit, rows: &mut [u32], at: usize)
    requires { at + 1 < length rows.old }
    ensures { rows.new ≡ set (set rows.old at (row_step hit)) (at + 1) (row_entry hit) }
{
    let kind = hit.kind;
    let entry = list_entries::number_of(kind, hit.first % PLACES, hit.second % PLACES);
    rows[at] = (hit.step % 4294967296) as u32;
    rows[at + 1] = entry;
}

// A row for each entry, and the rows behind them unchanged.
fn put_log(log: Log, rows: &mut [u32])
    requires { (2 * log_limit ≤ length rows.old) × (log.held ≤ log_limit) }
    ensures { rows.new ≡ written (rows_of (take log.held log.hits)) rows.old }
{
    let held = log.held;
    for k in 0..held {
        let hit = log.hits[k];
        put_row(hit, rows, 2 * k);
    }
}

// Held, later, listed, hits, misses, touches, aparts, first.
fn put_told(told: SeriesTold, numbers: &mut [u64; 8])
    ensures { numbers.new ≡ told_numbers told }
{
    let log = told.log;
    *numbers = [
        log.held as u64,
        log.later,
        told.listed,
        told.hits,
        told.misses,
        told.touches,
        told.aparts,
        told.first as u64,
    ];
}

fn put_counts(c: SceneCounts, counts: &mut [usize; 4])
    ensures { counts.new ≡ c.vertices ∷ c.edges ∷ c.triangles ∷ c.seams ∷ [] }
{
    *counts = [c.vertices, c.edges, c.triangles, c.seams];
}

// The refusal's number times 2^32, with its line or the count needed.
fn refused(why: Refusal, carries: usize) -> u64
    ensures { result ≡ refused_number why carries }
{
    number_of(why) * 4294967296 + (carries % 4294967296) as u64
}

// Tells a series: the counts of its last step, its log in rows of two numbers, and what is told beside it, in lent arrays; the answer is how many
// pairs the last step lists. A refusal changes none of them.
pub fn tell_series(
    text: &[u8],
    positions: &mut [i32],
    edges: &mut [u16],
    triangles: &mut [u16],
    seams: &mut [u16],
    boxes: &mut [i32],
    list: &mut [u32],
    counts: &mut [usize; 4],
    log: &mut [u32; LOG_NUMBERS],
    told: &mut [u64; 8],
) -> u64
    ensures { SeriesInto text.now (scene_of positions.old edges.old triangles.old seams.old)
        (scene_of positions.new edges.new triangles.new seams.new) boxes.old boxes.new list.old list.new
        counts.old counts.new log.old log.new told.old told.new result }
{
    let all = series_call::tell_series(text, positions, edges, triangles, seams, boxes, list);
    let answer = all.answer;
    let outcome = answer.outcome;
    let all_told = answer.told;
    match outcome {
        Err(Refused { why, carries }) => refused(why, carries),
        Ok(c) => {
            put_counts(c, counts);
            put_log(all_told.log, log);
            put_told(all_told, told);
            all.count as u64
        }
    }
}

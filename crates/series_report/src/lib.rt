// What is told of a series as bytes: a line for each entry of the log, the count of later hits, the totals over all steps, and last the first step
// with a hit; or the one line of a refusal.

#![tactic(auto)]

mod lines; // lines.rt: one line

ghost use Rattle.std.specs.Prelude.{◌+◌, ◌*◌, ◌≤◌, ◌<◌, ◌≡◌, length};
ghost use Rattle.sequences.specs.Wrote.{Wrote};
ghost use Rattle.meaning.specs.Limits.{text_limit};
ghost use Rattle.meaning.specs.Series.{log_limit};
ghost use Rattle.meaning.specs.SeriesAnswers.{hit_of, entries_of};
ghost use Rattle.meaning.specs.SeriesAnswers.{told_says, outcome_says};
ghost use Rattle.meaning.specs.SeriesLines.{hit_line, hit_lines, told_lines, SeriesReported, SeriesRead};
ghost use Rattle.series_report.specs.Sizes.{series_length};
ghost use Rattle.series_report.specs.Whole.{answer_lines};

use answers::number_of;
use lines::{hit_line, number_line};
use meaning::{
    BOX_NUMBERS, EDGE_NUMBERS, LOG_ROOM, Log, POSITION_NUMBERS, READ_BYTES, REPORT_ROOM, Refused,
    SEAM_NUMBERS, SceneCounts, SeriesTold, StepHit, TRIANGLE_NUMBERS,
};
use report_words::lines::{refused_line, total_line};
use series_call::tell_series;

// The bytes that hold the lines of any series: 64 of at most 70, and 256 for those behind them.
pub const SERIES_BYTES: usize = 70 * LOG_ROOM + 256;

// The line of one entry.
fn entry_line(hit: StepHit, out: &mut [u8], at: usize) -> usize
    requires { at + 70 ≤ length out.old }
    ensures { Wrote out.old at (hit_line (hit_of hit)) out.new result × (result ≤ at + 70) }
{
    let kind = hit.kind;
    hit_line(
        out,
        at,
        hit.step as u64,
        kind,
        hit.first as u64,
        hit.second as u64,
    )
}

// A line for each entry of the log: no more than a log has room for.
fn log_lines(log: Log, out: &mut [u8]) -> usize
    requires { length out.old ≡ series_length }
    ensures { Wrote out.old 0 (hit_lines (entries_of log)) out.new result × (result ≤ 70 * log_limit) }
{
    let held = log.held.min(LOG_ROOM);
    let mut next = 0;
    for k in 0..held {
        let hit = log.hits[k];
        next = entry_line(hit, out, next);
    }
    next
}

// The lines of what is told, in front of a buffer that has room for them.
fn told_lines(told: SeriesTold, out: &mut [u8]) -> usize
    requires { length out.old ≡ series_length }
    ensures { Wrote out.old 0 (told_lines (told_says told)) out.new result }
{
    let log = told.log;
    let mut next = log_lines(log, out);
    next = number_line(out, next, b"later", log.later);
    next = total_line(
        out,
        next,
        told.listed,
        told.hits,
        told.misses,
        told.touches,
        told.aparts,
    );
    number_line(out, next, b"first", told.first as u64)
}

// The lines of an answer: what is told, or the one line of a refusal.
fn answer_lines(outcome: Result<SceneCounts, Refused>, told: SeriesTold, out: &mut [u8]) -> usize
    requires { length out.old ≡ series_length }
    ensures { Wrote out.old 0 (answer_lines (outcome_says outcome (told_says told))) out.new result }
{
    match outcome {
        Ok(_) => told_lines(told, out),
        Err(refused) => refused_line(out, 0, number_of(refused.why), refused.carries as u64),
    }
}

// What is printed for the text of a series: what is told of it, or its refusal.
pub fn write_series(text: &[u8], out: &mut [u8; SERIES_BYTES]) -> usize
    ensures { SeriesReported text.now out.old out.new result }
{
    let mut positions = [0i32; POSITION_NUMBERS];
    let mut edges = [0u16; EDGE_NUMBERS];
    let mut triangles = [0u16; TRIANGLE_NUMBERS];
    let mut seams = [0u16; SEAM_NUMBERS];
    let mut boxes = [0i32; BOX_NUMBERS];
    let mut list = [0u32; REPORT_ROOM];
    let all = tell_series(
        text,
        &mut positions,
        &mut edges,
        &mut triangles,
        &mut seams,
        &mut boxes,
        &mut list,
    );
    let answer = all.answer;
    let outcome = answer.outcome;
    let told = answer.told;
    answer_lines(outcome, told, out)
}

// The same for what was read of a text into a buffer that is longer than a text may be. Where it fills the buffer, the text is too long however it
// goes on; else it is the text.
fn front_series(read: &[u8], count: usize, out: &mut [u8; SERIES_BYTES]) -> usize
    requires { text_limit < length read.now }
    ensures { SeriesRead read.now count out.old out.new result }
{
    if count < read.len() {
        return write_series(&read[..count], out);
    }
    refused_line(out, 0, 8, 0)
}

// The same for what a program read: the first `count` bytes of its buffer.
pub fn series_read(read: &[u8; READ_BYTES], count: usize, out: &mut [u8; SERIES_BYTES]) -> usize
    ensures { SeriesRead read.now count out.old out.new result }
{
    front_series(read, count, out)
}

// The lines of the pairs of a list, from its entries and the bytes of their verdicts, then the totals.

#![tactic(auto)]

ghost use Rattle.std.specs.Prelude.{◌+◌, ◌*◌, ◌≤◌, ◌<◌, ◌≡◌, ◌++◌, length, get_or};
ghost use Rattle.sequences.specs.Gather.{gather};
ghost use Rattle.sequences.specs.Wrote.{Wrote};
ghost use Rattle.meaning.specs.Limits.{report_room};
ghost use Rattle.meaning.specs.List.{room_of};
ghost use Rattle.meaning.specs.Report.{total_line};
ghost use Rattle.list_words.specs.Listed.{WordByte};
ghost use Rattle.tally.specs.Counted.{TallyOf};
ghost use Rattle.pair_report.specs.Rendered.{verdict_at, line_at, verdicts_in};
ghost use Rattle.pair_report.specs.Sizes.{report_length, Words, Held};

use meaning::Settled;
use report_words::lines::{pair_line, total_line};
use tally::Tally;

// The word of the k-th byte, which stands for one.
fn verdict_at(verdicts: &[u8], k: usize) -> Settled
    requires { (k < length verdicts.now) × WordByte (get_or verdicts.now k 0) }
    ensures { result ≡ verdict_at verdicts.now k }
{
    let Some(word) = list_words::word_of(verdicts[k]) else {
        return Settled::Apart; // never: the byte stands for a word
    };
    word
}

// The line of one entry.
fn entry_line(list: &[u32], verdicts: &[u8], k: usize, out: &mut [u8], at: usize) -> usize
    requires { (k < room_of list.now) × (k < length verdicts.now) × WordByte (get_or verdicts.now k 0)
        × (at + 51 ≤ length out.old) }
    ensures { Wrote out.old at (line_at list.now verdicts.now k) out.new result }
{
    let entry = list[k];
    let kind = list_entries::kind_of(entry);
    let first = list_entries::first_of(entry);
    let second = list_entries::second_of(entry);
    let verdict = verdict_at(verdicts, k);
    pair_line(out, at, kind, first as u64, second as u64, verdict)
}

// A line for each of the first `count` entries.
fn pair_lines(list: &[u32], verdicts: &[u8], count: usize, out: &mut [u8]) -> usize
    requires { Held list.now verdicts.now count × (length out.old ≡ report_length) }
    ensures { Wrote out.old 0 (gather (line_at list.now verdicts.now) 0 count) out.new result
        × (result ≤ 21 * report_room) }
{
    let mut next = 0;
    for k in 0..count {
        next = entry_line(list, verdicts, k, out, next);
    }
    next
}

// How many the first `count` are, and how many of them have each verdict.
fn tally_of(verdicts: &[u8], count: usize) -> Tally
    requires { Words verdicts.now count × (count ≤ report_room) }
    ensures { TallyOf (verdicts_in verdicts.now 0 count) result }
{
    let mut tally = Tally {
        listed: 0,
        hits: 0,
        misses: 0,
        touches: 0,
        aparts: 0,
    };
    for k in 0..count {
        tally = tally.add(verdict_at(verdicts, k));
    }
    tally
}

// The lines of the pairs, then the totals.
pub fn pairs_report(list: &[u32], verdicts: &[u8], count: usize, out: &mut [u8]) -> usize
    requires { Held list.now verdicts.now count × (length out.old ≡ report_length) }
    ensures { Wrote out.old 0
        (gather (line_at list.now verdicts.now) 0 count ++ total_line
        (verdicts_in verdicts.now 0 count)) out.new result }
{
    let next = pair_lines(list, verdicts, count, out);
    let tally = tally_of(verdicts, count);
    total_line(
        out,
        next,
        tally.listed,
        tally.hits,
        tally.misses,
        tally.touches,
        tally.aparts,
    )
}

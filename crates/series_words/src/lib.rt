// The words of some pairs of a step go into what is told of a series: the log takes each hit, and the totals each word.

#![tactic(auto)]

ghost use Rattle.std.specs.Prelude.{◌≤◌, ◌≡◌, length};
ghost use Rattle.list_entries.specs.Entries.{pair_of};
ghost use Rattle.meaning.specs.Series.{hit_at};
ghost use Rattle.list_words.specs.Listed.{word_of_byte, pairs_in};
ghost use Rattle.meaning.specs.SeriesAnswers.{hit_of};
ghost use Rattle.series_words.specs.Telling.{words_in, LogGoes, TallyGoes, FirstIs, Further};
ghost use Rattle.meaning.specs.SeriesAnswers.{nothing_told};

use list_words::byte_of;
use meaning::{LOG_ROOM, Log, SeriesTold, Settled, StepHit};
use series_log::{add_hit, empty_log, one_more};
use tally::Tally;

// The word that a byte stands for; where it stands for none, the last.
fn word_in(byte: u8) -> Settled
    ensures { result ≡ word_of_byte byte }
{
    list_words::word_of(byte).unwrap_or(Settled::Apart)
}

// The pair of an entry, hit in a step.
fn hit_of(step: usize, entry: u32) -> StepHit
    ensures { hit_of result ≡ hit_at step (pair_of entry) }
{
    StepHit {
        step: step,
        kind: list_entries::kind_of(entry),
        first: list_entries::first_of(entry),
        second: list_entries::second_of(entry),
    }
}

// The log takes each of the first `count` entries whose byte says hit. Where it is full it only counts, so that it need not be copied.
fn log_hits(list: &[u32], bytes: &[u8], count: usize, step: usize, log: Log) -> Log
    requires { (count ≤ length list.now) × (count ≤ length bytes.now) }
    ensures { LogGoes step (pairs_in count list.now) (words_in count bytes.now) log result }
{
    let hit = byte_of(Settled::Hit);
    let mut next = log;
    for k in 0..count {
        if bytes[k] == hit {
            if next.held < LOG_ROOM {
                next = add_hit(next, hit_of(step, list[k]));
            } else {
                next.later = one_more(next.later);
            }
        }
    }
    next
}

// The tally takes each of the first `count` words.
fn tally_words(bytes: &[u8], count: usize, tally: Tally) -> Tally
    requires { count ≤ length bytes.now }
    ensures { TallyGoes (words_in count bytes.now) tally result }
{
    let mut next = tally;
    for k in 0..count {
        next = next.add(word_in(bytes[k]));
    }
    next
}

// The step of the oldest entry, or 0 where there is none.
fn first_in(log: Log) -> usize
    ensures { FirstIs log result }
{
    if log.held == 0 {
        return 0;
    }
    let oldest = log.hits[0];
    oldest.step
}

// What is told before the first step.
pub fn nothing_told() -> SeriesTold
    ensures { result ≡ nothing_told }
{
    SeriesTold {
        log: empty_log(),
        listed: 0,
        hits: 0,
        misses: 0,
        touches: 0,
        aparts: 0,
        first: 0,
    }
}

// The first `count` pairs of a list, with their words as bytes, are told behind what was told.
pub fn tell_words(
    list: &[u32],
    bytes: &[u8],
    count: usize,
    step: usize,
    told: SeriesTold,
) -> SeriesTold
    requires { (count ≤ length list.now) × (count ≤ length bytes.now) }
    ensures { Further step (pairs_in count list.now) (words_in count bytes.now) told result }
{
    let before = Tally {
        listed: told.listed,
        hits: told.hits,
        misses: told.misses,
        touches: told.touches,
        aparts: told.aparts,
    };
    let tally = tally_words(bytes, count, before);
    let log = log_hits(list, bytes, count, step, told.log);
    let first = first_in(log);
    SeriesTold {
        log: log,
        listed: tally.listed,
        hits: tally.hits,
        misses: tally.misses,
        touches: tally.touches,
        aparts: tally.aparts,
        first: first,
    }
}

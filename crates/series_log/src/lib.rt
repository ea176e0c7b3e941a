// The log of a series: the first hits, and how many came after them. The oldest entry is the first cause, so that no entry is ever replaced.

#![tactic(auto)]

ghost use Rattle.std.specs.Prelude.{◌≡◌};
ghost use Rattle.series_log.specs.Logged.{one_more, logged};
ghost use Rattle.meaning.specs.SeriesAnswers.{empty_log};

use meaning::{Kind, LOG_ROOM, Log, StepHit};

// One more, but a count at its largest value stays there.
pub fn one_more(n: u64) -> u64
    ensures { result ≡ one_more n }
{
    n.saturating_add(1)
}

// A log that has taken no hit.
pub fn empty_log() -> Log
    ensures { result ≡ empty_log }
{
    let none = StepHit {
        step: 0,
        kind: Kind::PointTriangle,
        first: 0,
        second: 0,
    };
    let hits = [none; LOG_ROOM];
    Log {
        hits: hits,
        held: 0,
        later: 0,
    }
}

// Takes one hit and hands back the log after it.
pub fn add_hit(log: Log, hit: StepHit) -> Log
    ensures { result ≡ logged log hit }
{
    let mut next = log;
    let held = log.held;
    if held < LOG_ROOM {
        next.hits[held] = hit;
        next.held = held + 1;
        return next;
    }
    next.later = one_more(log.later);
    next
}

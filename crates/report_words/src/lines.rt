// The lines of the report, written into a lent buffer from a place on.

ghost use Rattle.std.specs.Prelude.{◌+◌, ◌≤◌, length, [], ◌∷◌};
ghost use Rattle.decimals.specs.Digits.{digits};
ghost use Rattle.sequences.specs.Wrote.{Wrote};
ghost use Rattle.meaning.specs.List.{pair};
ghost use Rattle.meaning.specs.Claims.{answer_line};
ghost use Rattle.meaning.specs.Report.{kind_word, verdict_word, total_word, report_line, pair_line, refused_line};

use crate::words::{put_byte, put_number, put_word};
use meaning::{Kind, Settled};

// The first field of a line, pt or ee.
pub fn put_kind(out: &mut [u8], at: usize, kind: Kind) -> usize
    requires { at + 2 ≤ length out.old }
    ensures { Wrote out.old at (kind_word kind) out.new result }
{
    match kind {
        Kind::PointTriangle => put_word(out, at, b"pt"),
        Kind::EdgeEdge => put_word(out, at, b"ee"),
    }
}

fn put_verdict(out: &mut [u8], at: usize, verdict: Settled) -> usize
    requires { at + 5 ≤ length out.old }
    ensures { Wrote out.old at (verdict_word verdict) out.new result }
{
    match verdict {
        Settled::Hit => put_word(out, at, b"hit"),
        Settled::Miss => put_word(out, at, b"miss"),
        Settled::Touch => put_word(out, at, b"touch"),
        Settled::Apart => put_word(out, at, b"apart"),
    }
}

// `pt` or `ee`, the two places, the verdict.
pub fn pair_line(
    out: &mut [u8],
    at: usize,
    kind: Kind,
    first: u64,
    second: u64,
    verdict: Settled,
) -> usize
    requires { at + 51 ≤ length out.old }
    ensures { Wrote out.old at (pair_line (pair kind first second) verdict) out.new result }
{
    let mut next = put_kind(out, at, kind);
    next = put_number(out, next, first);
    next = put_number(out, next, second);
    next = put_byte(out, next, 9);
    next = put_verdict(out, next, verdict);
    put_byte(out, next, 10)
}

// `total`, listed, hits, misses, touch, apart.
pub fn total_line(
    out: &mut [u8],
    at: usize,
    listed: u64,
    hits: u64,
    misses: u64,
    touches: u64,
    aparts: u64,
) -> usize
    requires { at + 111 ≤ length out.old }
    ensures { Wrote out.old at
        (report_line total_word (digits listed ∷ digits hits ∷ digits misses ∷ digits touches ∷ digits aparts ∷ []))
        out.new result }
{
    let mut next = put_word(out, at, b"total");
    next = put_number(out, next, listed);
    next = put_number(out, next, hits);
    next = put_number(out, next, misses);
    next = put_number(out, next, touches);
    next = put_number(out, next, aparts);
    put_byte(out, next, 10)
}

// `refused`, the number, and the line, the needed count or 0.
pub fn refused_line(out: &mut [u8], at: usize, number: u64, third: u64) -> usize
    requires { at + 50 ≤ length out.old }
    ensures { Wrote out.old at (refused_line number third) out.new result }
{
    let mut next = put_word(out, at, b"refused");
    next = put_number(out, next, number);
    next = put_number(out, next, third);
    put_byte(out, next, 10)
}

// `yes` or `no`.
pub fn answer_line(out: &mut [u8], at: usize, yes: bool) -> usize
    requires { at + 4 ≤ length out.old }
    ensures { Wrote out.old at (answer_line yes) out.new result }
{
    if yes {
        put_word(out, at, b"yes\n")
    } else {
        put_word(out, at, b"no\n")
    }
}

// The lines of a series, written into a lent buffer from a place on.

ghost use Rattle.std.specs.Prelude.{◌+◌, ◌≤◌, length};
ghost use Rattle.sequences.specs.Wrote.{Wrote};
ghost use Rattle.meaning.specs.List.{pair};
ghost use Rattle.meaning.specs.Series.{hit_at};
ghost use Rattle.meaning.specs.Text.{tab, further};
ghost use Rattle.meaning.specs.SeriesLines.{pair_fields, hit_line, number_line};

use meaning::Kind;
use report_words::lines::put_kind;
use report_words::words::{put_byte, put_number, put_word};

// `pt` or `ee`, the two places, each with its tab.
fn put_pair(out: &mut [u8], at: usize, kind: Kind, first: u64, second: u64) -> usize
    requires { at + 45 ≤ length out.old }
    ensures { Wrote out.old at (further tab (pair_fields (pair kind first second))) out.new result }
{
    let mut next = put_byte(out, at, 9);
    next = put_kind(out, next, kind);
    next = put_number(out, next, first);
    put_number(out, next, second)
}

// `hit`, the step, `pt` or `ee`, the two places.
pub fn hit_line(out: &mut [u8], at: usize, step: u64, kind: Kind, first: u64, second: u64) -> usize
    requires { at + 70 ≤ length out.old }
    ensures { Wrote out.old at (hit_line (hit_at step (pair kind first second))) out.new result
        × (result ≤ at + 70) }
{
    let mut next = put_word(out, at, b"hit");
    next = put_number(out, next, step);
    next = put_pair(out, next, kind, first, second);
    put_byte(out, next, 10)
}

// A word and a number.
pub fn number_line(out: &mut [u8], at: usize, word: &[u8], n: u64) -> usize
    requires { at + length word.now + 22 ≤ length out.old }
    ensures { Wrote out.old at (number_line word.now n) out.new result
        × (result ≤ at + length word.now + 22) }
{
    let mut next = put_word(out, at, word);
    next = put_number(out, next, n);
    put_byte(out, next, 10)
}

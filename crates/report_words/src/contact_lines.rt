// The lines of contacts, written into a lent buffer from a place on.

ghost use Rattle.std.specs.Prelude.{◌+◌, ◌≤◌, length, [], ◌∷◌};
ghost use Rattle.decimals.specs.Digits.{digits};
ghost use Rattle.sequences.specs.Wrote.{Wrote};
ghost use Rattle.meaning.specs.List.{pair};
ghost use Rattle.meaning.specs.Text.{tab, further};
ghost use Rattle.meaning.specs.Report.{total_word, report_line};
ghost use Rattle.meaning.specs.ContactLines.{share_fields, contact_line};
ghost use Rattle.meaning.specs.declared.WholeContact.TheVariants.{Hit};

use crate::lines::put_kind;
use crate::words::{put_byte, put_number, put_word};
use meaning::{ContactNumbers, Kind};

// Three shares of a point and a triangle, two of two edges.
fn put_shares(out: &mut [u8], at: usize, kind: Kind, m: ContactNumbers) -> usize
    requires { at + 63 ≤ length out.old }
    ensures { Wrote out.old at (further tab (share_fields kind m)) out.new result }
{
    let mut next = put_number(out, at, m.first as u64);
    next = put_number(out, next, m.second as u64);
    if let Kind::PointTriangle = kind {
        next = put_number(out, next, m.third as u64);
    }
    next
}

// `pt` or `ee`, the two places, the piece, k, the shares.
pub fn contact_line(
    out: &mut [u8],
    at: usize,
    kind: Kind,
    first: u64,
    second: u64,
    m: ContactNumbers,
) -> usize
    requires { at + 150 ≤ length out.old }
    ensures { Wrote out.old at (contact_line (pair kind first second) (Hit m)) out.new result }
{
    let mut next = put_kind(out, at, kind);
    next = put_number(out, next, first);
    next = put_number(out, next, second);
    next = put_number(out, next, m.piece as u64);
    next = put_number(out, next, m.k as u64);
    next = put_shares(out, next, kind, m);
    put_byte(out, next, 10)
}

// `total`, listed, hits.
pub fn contact_total(out: &mut [u8], at: usize, listed: u64, hits: u64) -> usize
    requires { at + 48 ≤ length out.old }
    ensures { Wrote out.old at (report_line total_word (digits listed ∷ digits hits ∷ [])) out.new result }
{
    let mut next = put_word(out, at, b"total");
    next = put_number(out, next, listed);
    next = put_number(out, next, hits);
    put_byte(out, next, 10)
}

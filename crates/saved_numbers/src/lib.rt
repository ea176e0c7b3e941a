// Numbers of a scene as fields of its text, one tab before each: how long a field is, and the field written into a lent buffer.

#![tactic(auto)]

ghost use Rattle.std.specs.Prelude.{◌+◌, ◌≤◌, ◌<◌, [], ◌∷◌, ◌≡◌, pos, nat_abs, length, get_or};
ghost use Rattle.std.specs.Int.Signed.{lt_z};
ghost use Rattle.sequences.specs.Wrote.{Wrote};
ghost use Rattle.meaning.specs.Text.{tab, numeral};
ghost use Rattle.saved_numbers.specs.Marked.{Coordinates, mark_of};

use decimals::{count_digits, write_number};

// One byte: the letter of a record, a tab, or the end of a line.
pub fn put_byte(out: &mut [u8], at: usize, byte: u8) -> usize
    requires { at + 1 ≤ length out.old }
    ensures { Wrote out.old at (byte ∷ []) out.new result }
{
    out[at] = byte;
    at + 1
}

fn is_negative(positions: &[i32], i: usize) -> bool
    requires { i < length positions.now }
    ensures { result ≡ lt_z (get_or positions.now i (pos 0)) (pos 0) }
{
    positions[i] < 0
}

// A coordinate without its sign.
fn size_of(positions: &[i32], i: usize) -> u64
    requires { i < length positions.now }
    ensures { result ≡ nat_abs (get_or positions.now i (pos 0)) }
{
    u64::from(positions[i].unsigned_abs())
}

// How many bytes the field of a coordinate has: its tab, its minus if it has one, its digits.
pub fn coordinate_length(positions: &[i32], i: usize) -> usize
    requires { (i < length positions.now) × Coordinates positions.now }
    ensures { (result ≡ length (tab ∷ numeral (get_or positions.now i (pos 0)))) × (result ≤ 8) }
{
    let digits = count_digits(size_of(positions, i));
    if is_negative(positions, i) {
        digits + 2
    } else {
        digits + 1
    }
}

// The same of a number of another list, which has no minus.
pub fn number_length(list: &[u16], i: usize) -> usize
    requires { i < length list.now }
    ensures { (result ≡ length (tab ∷ numeral (pos (get_or list.now i 0)))) × (result ≤ 6) }
{
    count_digits(u64::from(list[i])) + 1
}

// One tab, and behind it the minus of a coordinate that has one.
fn put_mark(out: &mut [u8], at: usize, positions: &[i32], i: usize) -> usize
    requires i_in_bounds { i < length positions.now }
    requires pos_in_bounds { at + 1 + length (mark_of (get_or positions.now i (pos 0))) ≤ length out.old }
    ensures { Wrote out.old at (tab ∷ mark_of (get_or positions.now i (pos 0))) out.new result }
{
    let next = put_byte(out, at, b'\t');
    if is_negative(positions, i) {
        put_byte(out, next, b'-')
    } else {
        next
    }
}

// A coordinate as a field: a tab, a minus where it is below 0, and its digits.
pub fn put_coordinate(out: &mut [u8], at: usize, positions: &[i32], i: usize) -> usize
    requires i_in_bounds { (i < length positions.now) × Coordinates positions.now }
    requires pos_in_bounds { at + length (tab ∷ numeral (get_or positions.now i (pos 0))) ≤ length out.old }
    ensures { Wrote out.old at (tab ∷ numeral (get_or positions.now i (pos 0))) out.new result }
{
    let next = put_mark(out, at, positions, i);
    write_number(out, next, size_of(positions, i))
}

// A vertex number as a field: a tab and its digits.
pub fn put_number(out: &mut [u8], at: usize, list: &[u16], i: usize) -> usize
    requires i_in_bounds { i < length list.now }
    requires i_in_bounds_2 { at + length (tab ∷ numeral (pos (get_or list.now i 0))) ≤ length out.old }
    ensures { Wrote out.old at (tab ∷ numeral (pos (get_or list.now i 0))) out.new result }
{
    let next = put_byte(out, at, b'\t');
    write_number(out, next, u64::from(list[i]))
}

// The decimal digits of a number, read from bytes and written into them.

#![tactic(auto)]

ghost use Rattle.std.specs.Prelude.{◌+◌, ◌≤◌, ◌<◌, length, ◌≡◌};
ghost use Rattle.decimals.specs.Byte.{byte_at, digit_test};
ghost use Rattle.decimals.specs.Digits.{digits};
ghost use Rattle.decimals.specs.Number.{number_at};
ghost use Rattle.decimals.specs.Reading.{RunFrom};
ghost use Rattle.sequences.specs.Wrote.{Wrote};

// A number that was read: its value and the place behind it.
#[derive(Clone, Copy, Debug, PartialEq, Eq)]
pub struct NumberRead {
    pub value: u64,
    pub next: usize,
}

// A run of digits: what it is worth, and the place behind it.
#[derive(Clone, Copy, Debug, PartialEq, Eq)]
struct DigitRun {
    worth: u64,
    next: usize,
}

// The byte at a place, which is 0 past the end.
pub fn byte_at(bytes: &[u8], at: usize) -> u8
    ensures { result ≡ byte_at bytes.now at }
{
    if at < bytes.len() { bytes[at] } else { 0 }
}

// Whether a byte is one of the digits 0 to 9.
pub fn is_digit(byte: u8) -> bool
    ensures { result ≡ digit_test byte }
{
    (48 <= byte) & (byte <= 57)
}

// The longest run of digits from a place on, of at most limit digits.
fn run_from(bytes: &[u8], at: usize, limit: usize) -> DigitRun
    requires { limit ≤ 19 }
    ensures { RunFrom bytes.now at limit result.worth result.next }
{
    let mut worth: u64 = 0;
    let mut next = at;
    for _ in 0..limit {
        let byte = byte_at(bytes, next);
        if !is_digit(byte) {
            break;
        }
        worth = worth * 10 + (byte as u64 - 48);
        next += 1;
    }
    DigitRun { worth, next }
}

// The number that stands from a place on, in at most limit digits and with no leading zero, if one does. Whoever calls it looks at the byte
// behind it, where a digit too many stands.
pub fn read_number(bytes: &[u8], at: usize, limit: usize) -> Option<NumberRead>
    requires { limit ≤ 19 }
    ensures { result ≡ number_at bytes.now at limit }
{
    let run = run_from(bytes, at, limit);
    let value = run.worth;
    let next = run.next;
    let count = next - at;
    let first = byte_at(bytes, at);
    if (0 < count) & ((count <= 1) | (48 < first)) {
        Some(NumberRead { value, next })
    } else {
        None
    }
}

// How many digits a number has, by dividing.
fn digit_count(n: u64) -> usize
    ensures { result ≡ length (digits n) }
{
    let mut rest = n;
    let mut count: usize = 1;
    // `while`, because no range is known before: how many turns there are is the answer.
    while rest >= 10 {
        rest = rest / 10;
        count += 1;
    }
    count
}

// How many digits a number below 1,000 has, as most numbers of vertices are.
fn short_count(n: u64) -> usize
    requires { n < 1000 }
    ensures { result ≡ length (digits n) }
{
    if n < 10 {
        return 1;
    }
    if n < 100 { 2 } else { 3 }
}

// How many digits a number has: by its size, with no division, since most numbers have six at most.
pub fn count_digits(n: u64) -> usize
    ensures { result ≡ length (digits n) }
{
    if n < 1000 {
        return short_count(n);
    }
    if n < 10000 {
        return 4;
    }
    if n < 100000 {
        return 5;
    }
    if n < 1000000 { 6 } else { digit_count(n) }
}

// Writes a number from a place on, where there is room for it, and returns the place behind it.
pub fn write_number(out: &mut [u8], at: usize, n: u64) -> usize
    requires { at + length (digits n) ≤ length out.old }
    ensures { Wrote out.old at (digits n) out.new result }
{
    let end = at + count_digits(n);
    let mut rest = n;
    for place in (at..end).rev() {
        out[place] = (48 + rest % 10) as u8;
        rest = rest / 10;
    }
    end
}

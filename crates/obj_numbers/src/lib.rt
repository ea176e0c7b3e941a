// Numbers of an OBJ file: a part of a line, taken whole, is a decimal in hundredths or a plain number, or it is neither.

#![tactic(auto)]

ghost use Rattle.std.specs.Prelude.{◌≤◌, ◌<◌, length, ◌≡◌};
ghost use Rattle.meaning.specs.ObjLine.{place_of, whole_of, with_part, size_of, decimal_of, vertex_number_of, signed_as};

use meaning::{DIGIT_LIMIT, Hundredths};

// The place of the first such byte, or the length where there is none.
pub fn place_of(s: &[u8], byte: u8) -> usize
    ensures { result ≡ place_of byte s.now }
{
    for (k, &b) in s.iter().enumerate() {
        if b == byte {
            return k;
        }
    }
    s.len()
}

// Digits, from one to as many as may be.
fn whole_of(s: &[u8], most: usize) -> Option<u64>
    requires { most ≤ 9 }
    ensures { result ≡ whole_of most s.now }
{
    let count = s.len();
    if (count <= 0) | (most < count) {
        return None;
    }
    let mut worth: u64 = 0;
    for &byte in s {
        if !decimals::is_digit(byte) {
            return None;
        }
        worth = worth * 10 + (byte as u64 - 48);
    }
    Some(worth)
}

// The digits behind a point, below so many whole ones.
fn with_part(n: u64, s: &[u8]) -> Option<u64>
    requires { n < 1_000_000_000 }
    ensures { result ≡ with_part n (length s.now) (whole_of 2 s.now) }
{
    let part = whole_of(s, 2)?;
    if s.len() == 1 {
        Some(n * 100 + part * 10)
    } else {
        Some(n * 100 + part)
    }
}

// A decimal without a sign, in hundredths.
fn size_of(s: &[u8]) -> Option<u64>
    ensures { result ≡ size_of s.now }
{
    let place = place_of(s, b'.');
    let n = whole_of(&s[..place], DIGIT_LIMIT)?;
    if place < s.len() {
        with_part(n, &s[place + 1..])
    } else {
        Some(n * 100)
    }
}

#[tactic(auto, unfolding(meaning::specs::ObjLine::signed_as))]
fn signed_as(minus: bool, size: Option<u64>) -> Option<Hundredths>
    ensures { result ≡ signed_as minus size }
{
    size.map(|size| Hundredths { minus, size })
}

// A decimal, in hundredths.
pub fn decimal_of(s: &[u8]) -> Option<Hundredths>
    ensures { result ≡ decimal_of s.now }
{
    if decimals::byte_at(s, 0) == b'-' {
        signed_as(true, size_of(&s[1..]))
    } else {
        signed_as(false, size_of(s))
    }
}

// A plain positive number.
pub fn number_of(s: &[u8]) -> Option<u64>
    ensures { result ≡ vertex_number_of s.now }
{
    if decimals::byte_at(s, 0) == b'0' {
        return None;
    }
    whole_of(s, DIGIT_LIMIT)
}

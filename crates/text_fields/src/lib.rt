// Fields in bytes: each is one separator and a number behind it. What separates, whether a minus may stand and how many digits there may
// be is the caller's; a number's sign and its size are kept apart.

#![tactic(auto)]

ghost use Rattle.std.specs.Prelude.{◌≤◌, length};
ghost use Rattle.decimals.specs.Byte.{IsDigit};
ghost use Rattle.text_fields.specs.Ended.{RowEnded};
ghost use Rattle.text_fields.specs.Rows.{RowRead};
ghost use Rattle.text_fields.specs.Field.{Found, PlainFound, NumeralStands, FieldStands};

use decimals::NumberRead;

// How fields are written.
#[derive(Clone, Copy, Debug, PartialEq, Eq)]
pub struct Form {
    pub separator: u8,
    pub signed: bool,
    pub most: usize,
}

// A number that stands at a place: its sign, its size, and the place behind it.
#[derive(Clone, Copy, Debug, PartialEq, Eq)]
pub struct Field {
    pub minus: bool,
    pub size: u64,
    pub next: usize,
}

// How many fields stand in a row, and the place behind the last of them.
#[derive(Clone, Copy, Debug, PartialEq, Eq)]
pub struct Row {
    pub count: usize,
    pub next: usize,
}

// Digits that are a number, and no digit behind them.
fn read_plain(s: &[u8], at: usize, most: usize) -> Option<NumberRead>
    requires { most ≤ 19 }
    ensures { PlainFound s.now at most result }
{
    let read = decimals::read_number(s, at, most)?;
    if decimals::is_digit(decimals::byte_at(s, read.next)) {
        return None;
    }
    Some(read)
}

// A number, after a minus if the form takes one. There is no -0.
fn read_numeral(s: &[u8], at: usize, form: Form) -> Option<Field>
    requires { form.most ≤ 19 }
    ensures { Found (NumeralStands s.now at form) result }
{
    let first = decimals::byte_at(s, at);
    let minus = form.signed & (first == b'-');
    if minus {
        let below = read_plain(s, at + 1, form.most)?;
        if below.value == 0 {
            return None;
        }
        return Some(Field {
            minus: true,
            size: below.value,
            next: below.next,
        });
    }
    let plain = read_plain(s, at, form.most)?;
    Some(Field {
        minus: false,
        size: plain.value,
        next: plain.next,
    })
}

// A separator, and a number behind it.
pub fn read_field(s: &[u8], at: usize, form: Form) -> Option<Field>
    requires { form.most ≤ 19 }
    ensures { Found (FieldStands s.now at form) result }
{
    if at < s.len() {
        if s[at] == form.separator {
            return read_numeral(s, at + 1, form);
        }
    }
    None
}

// Fields in a row, as many as stand there and not more than count. Their sizes and their signs are written to the front of the buffers.
// The separator is no digit: it is then clear where a number ends.
pub fn read_fields(
    s: &[u8],
    at: usize,
    form: Form,
    count: usize,
    sizes: &mut [u64],
    minus: &mut [bool],
) -> Row
    requires most_bound { form.most ≤ 19 }
    requires not_digit { ¬ IsDigit form.separator }
    requires count_in_bounds { count ≤ length sizes.old }
    requires count_in_bounds_2 { count ≤ length minus.old }
    ensures { RowRead s.now at form count sizes.old sizes.new minus.old minus.new result }
{
    let mut next = at;
    for found in 0..count {
        let Some(field) = read_field(s, next, form) else {
            return Row { count: found, next };
        };
        sizes[found] = field.size;
        minus[found] = field.minus;
        next = field.next;
    }
    Row { count, next }
}

// A row of count fields, not more and not fewer, that ends its line: the place where the next line begins.
pub fn read_row(
    s: &[u8],
    at: usize,
    form: Form,
    count: usize,
    sizes: &mut [u64],
    minus: &mut [bool],
) -> Option<usize>
    requires most_bound { form.most ≤ 19 }
    requires not_digit { ¬ IsDigit form.separator }
    requires count_in_bounds { count ≤ length sizes.old }
    requires count_in_bounds_2 { count ≤ length minus.old }
    ensures { RowEnded s.now at form count sizes.old sizes.new minus.old minus.new result }
{
    let row = read_fields(s, at, form, count, sizes, minus);
    let found = row.count;
    let next = row.next;
    let end = decimals::byte_at(s, next);
    if (found == count) & (end == b'\n') {
        Some(next + 1)
    } else {
        None
    }
}

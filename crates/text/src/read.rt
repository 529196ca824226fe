// Reading: each number and line is read exactly where the text is its rendering.
ghost use Rattle.std.specs.Prelude.{◌≡◌, true, false, ◌-◌, ◌≤◌, ◌<◌, suc, cond, eqb, length, get_or, None, Some, MatchOption};
ghost use Rattle.text.specs.Text.{most};
ghost use Rattle.text.specs.Read.{is_digit, has_sign, NumberRead, ValueRead, LineRead};

use crate::{Found, MINUS, MOST, column_end};

fn is_digit(byte: u8) -> bool
    ensures { result ≡ is_digit byte }
{
    matches!(byte, b'0'..=b'9')
}

// The value of a digit.
fn digit(byte: u8) -> Option<u64>
    ensures { MatchOption result (is_digit byte ≡ false) (λ d. (is_digit byte ≡ true) × (d ≡ byte - 48) × (d ≤ 9)) }
{
    match byte {
        b'0'..=b'9' => Some(u64::from(byte - b'0')),
        _ => None,
    }
}

// What is read of a number where a byte stands after its digits.
fn ended(value: u64, byte: u8, end: u8, at: usize) -> Option<Found<u32>>
    requires { (value ≤ most) × (at < 18446744073709551615) }
    ensures { result ≡ cond (eqb byte end) (Some (record { value = value; next = suc at })) None }
{
    if byte != end {
        return None;
    }
    Some(Found {
        value: value as u32,
        next: at + 1,
    })
}

// The decimal number from `at` on, which the byte `end` must follow; the text goes on after that.
pub fn read_number(text: &[u8], at: usize, end: u8) -> Option<Found<u32>>
    requires { end < 48 }
    ensures { NumberRead text.now at end result }
{
    let first = *text.get(at)?;
    let mut value = digit(first)?;
    for i in at + 1..text.len() {
        let byte = text[i];
        if !is_digit(byte) {
            return ended(value, byte, end, i);
        }
        if value == 0 {
            return None;
        }
        value = value * 10 + u64::from(byte - b'0');
        if value > MOST {
            return None;
        }
    }
    None
}

// A minus sign stands at `at`, where one is allowed.
fn has_sign(text: &[u8], at: usize, signed: bool) -> bool
    ensures { result ≡ has_sign text.now at signed }
{
    signed && at < text.len() && text[at] == MINUS
}

// The number from `at` on, which has no sign.
fn read_plain(text: &[u8], at: usize, end: u8) -> Option<Found<i64>>
    requires { end < 48 }
    ensures { ValueRead text.now at end false result }
{
    let n = read_number(text, at, end)?;
    Some(Found {
        value: i64::from(n.value),
        next: n.next,
    })
}

// The number whose minus sign stands at `at`.
fn read_negative(text: &[u8], at: usize, end: u8) -> Option<Found<i64>>
    requires { (end < 48) × (at < length text.now) × (get_or text.now at 0 ≡ 45) }
    ensures { ValueRead text.now at end true result }
{
    let n = read_number(text, at + 1, end)?;
    let size = n.value;
    if size == 0 {
        return None;
    }
    Some(Found {
        value: -i64::from(size),
        next: n.next,
    })
}

// The number from `at` on, which the byte `end` must follow; a minus sign only where `signed` allows it.
pub fn read_value(text: &[u8], at: usize, end: u8, signed: bool) -> Option<Found<i64>>
    requires { end < 48 }
    ensures { ValueRead text.now at end signed result }
{
    if has_sign(text, at, signed) {
        return read_negative(text, at, end);
    }
    read_plain(text, at, end)
}

// Where the text goes on after the line from `at` on, with as many values as there is room for. A value is stored only after the rest of the line was found.
pub fn read_line(text: &[u8], at: usize, signed: bool, values: &mut [i64]) -> Option<usize>
    requires { at ≤ length text.now }
    ensures { LineRead text.now at signed values.old result values.new }
{
    if values.is_empty() {
        return Some(at);
    }
    let first = read_value(text, at, column_end(0, values.len()), signed)?;
    let next = read_line(text, first.next, signed, &mut values[1..])?;
    values[0] = first.value;
    Some(next)
}

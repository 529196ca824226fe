// Writing: each number and line is written as its rendering, all other bytes kept.
ghost use Rattle.std.specs.Prelude.{true, ◌<◌};
ghost use Rattle.text.specs.Text.{digits, number, line, Allowed, AllAllowed};
ghost use Rattle.text.specs.Write.{Room, Written};

use crate::{MINUS, column_end, unsigned};

// Writes one digit at `at`; the place after it.
fn write_digit(buf: &mut [u8], at: usize, n: u32) -> usize
    requires { (n < 10) × Room at (digits n) buf.old }
    ensures { Written at (digits n) buf.old result buf.new }
{
    buf[at] = b'0' + n as u8;
    at + 1
}

// Writes the digits of a number at `at`; the place after them.
fn write_digits(buf: &mut [u8], at: usize, n: u32) -> usize
    requires { Room at (digits n) buf.old }
    ensures { Written at (digits n) buf.old result buf.new }
{
    if n < 10 {
        return write_digit(buf, at, n);
    }
    let last = write_digits(buf, at, n / 10);
    write_digit(buf, last, n % 10)
}

// Writes a number without sign at `at`; the place after it. One digit is written without a call.
fn write_plain(buf: &mut [u8], at: usize, n: u32) -> usize
    requires { Room at (digits n) buf.old }
    ensures { Written at (digits n) buf.old result buf.new }
{
    if n < 10 {
        return write_digit(buf, at, n);
    }
    write_digits(buf, at, n)
}

// Writes a number at `at`; the place after it.
pub fn write_number(buf: &mut [u8], at: usize, z: i64) -> usize
    requires { Allowed true z × Room at (number z) buf.old }
    ensures { Written at (number z) buf.old result buf.new }
{
    if z >= 0 {
        return write_plain(buf, at, unsigned(z));
    }
    buf[at] = MINUS;
    write_plain(buf, at + 1, unsigned(-z))
}

// Writes a line of values at `at`; the place after it.
pub fn write_line(buf: &mut [u8], at: usize, values: &[i64]) -> usize
    requires { AllAllowed true values.now × Room at (line values.now) buf.old }
    ensures { Written at (line values.now) buf.old result buf.new }
{
    let mut next = at;
    for (i, z) in values.iter().enumerate() {
        let end = write_number(buf, next, *z);
        buf[end] = column_end(i, values.len());
        next = end + 1;
    }
    next
}

// Writes bytes at `at`; the place after them.
pub fn write_bytes(buf: &mut [u8], at: usize, bytes: &[u8]) -> usize
    requires { Room at bytes.now buf.old }
    ensures { Written at bytes.now buf.old result buf.new }
{
    let end = at + bytes.len();
    buf[at..end].copy_from_slice(bytes);
    end
}

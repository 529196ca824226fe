// Reading: a line's columns, each up to the byte that ends it, and a reader to its end.
ghost use Rattle.std.specs.Prelude.{◌<◌, ⊤, MatchOption};
ghost use Rattle.std.specs.Io.{ReadsAtMost};

use crate::blocks;
use std::io;
use std::io::Read;

// What is left of a line.
#[derive(Drop)]
pub struct Line<'a> {
    pub rest: &'a [u8],
}

impl<'a> Line<'a> {
    pub fn new(text: &'a [u8]) -> Line<'a> {
        Line { rest: text }
    }

    // The column that `end` follows; the line goes on after that.
    pub fn column(&mut self, end: u8) -> Option<&'a [u8]> {
        let rest = self.rest;
        let n = rest.iter().position(|byte| *byte == end)?;
        let (column, after) = rest.split_at(n);
        let (_, after) = after.split_first()?;
        self.rest = after;
        Some(column)
    }

    // A column that is a decimal number.
    pub fn number(&mut self, end: u8) -> Option<u32> {
        number(self.column(end)?)
    }

    // A column that is a block, put into `block`, whose first `size` bytes are the one before; how many bytes it has.
    pub fn block(&mut self, block: &mut [u8], size: usize, end: u8) -> Option<usize> {
        blocks::read_block(self.column(end)?, block, size)
    }
}

// The decimal number that a column is.
pub fn number(column: &[u8]) -> Option<u32> {
    if column.is_empty() {
        return None;
    }
    column.iter().try_fold(0u32, |value, byte| {
        let digit = char::from(*byte).to_digit(10)?;
        value.checked_mul(10)?.checked_add(digit)
    })
}

// The value of a lower-case hex digit.
pub fn hex_digit(byte: u8) -> Option<u8>
    ensures { MatchOption result ⊤ (λ digit. digit < 16) }
{
    match byte {
        b'0'..=b'9' => Some(byte - b'0'),
        b'a'..=b'f' => Some(byte - b'a' + 10),
        _ => None,
    }
}

// Reads until the space is full or the reader ends, and answers how many bytes it put at the start of the space. A loop over reads,
// since the library's own reading to the end allocates.
pub fn read_full<R: Read>(reader: &mut R, space: &mut [u8]) -> io::Result<usize>
    ensures { ReadsAtMost result space.new }
{
    let mut n = 0;
    while n < space.len() {
        let more = reader.read(&mut space[n..])?;
        if more == 0 {
            break;
        }
        n += more;
    }
    Ok(n)
}

// Reading a block's column.
use crate::reading;
use crate::reading::Line;

// A line gives a block of at most this many bytes.
pub const MOST_BLOCK: usize = 4096;

// A line gives a register's file of at most this many bytes.
pub const MOST_FILE: usize = 16384;

// A block and what changes it, each after a `+`; how many bytes the block has.
pub fn read_block(column: &[u8], block: &mut [u8], size: usize) -> Option<usize> {
    let mut parts = column.split(|byte| *byte == b'+');
    let size = read_given(parts.next()?, block, size)?;
    let n = size.min(block.len());
    let given = &mut block[..n];
    for change in parts {
        read_change(change, given)?;
    }
    Some(size)
}

// `=` leaves the block of `size` bytes as it is; else LENGTH:BYTES is put into it, and zero after the bytes.
fn read_given(part: &[u8], block: &mut [u8], size: usize) -> Option<usize> {
    if part == b"=".as_slice() {
        return Some(size);
    }
    let mut line = Line::new(part);
    let length = line.number(b':')? as usize;
    let given = block.get_mut(..length)?;
    given.fill(0);
    put_bytes(line.rest, given)?;
    Some(length)
}

// PLACE:BYTES puts bytes into the block from a place on.
fn read_change(part: &[u8], block: &mut [u8]) -> Option<()> {
    let mut line = Line::new(part);
    let place = line.number(b':')? as usize;
    let n = place.min(block.len());
    put_bytes(line.rest, &mut block[n..])
}

// Puts the bytes that a text gives, which must fit, at the front of the block.
fn put_bytes(text: &[u8], block: &mut [u8]) -> Option<()> {
    let mut rest = text;
    for place in block.iter_mut() {
        if rest.is_empty() {
            break;
        }
        let (byte, after) = read_byte(rest)?;
        *place = byte;
        rest = after;
    }
    rest.is_empty().then_some(())
}

// `.` for zero, or two hex digits; and the text after it.
fn read_byte(text: &[u8]) -> Option<(u8, &[u8])> {
    match text {
        [b'.', rest @ ..] => Some((0, rest)),
        [high, low, rest @ ..] => {
            let high = reading::hex_digit(*high)?;
            let low = reading::hex_digit(*low)?;
            Some((high * 16 + low, rest))
        }
        _ => None,
    }
}

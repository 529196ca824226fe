// Numbers and lines as text, on a slice and a position.
#![tactic(auto)]

mod read;
mod write;

ghost use Rattle.std.specs.Prelude.{◌≡◌, false, ◌<◌, pos};
ghost use Rattle.text.specs.Text.{Allowed};
ghost use Rattle.text.specs.Read.{column_end};

pub use read::{read_line, read_number, read_value};
pub use write::{write_bytes, write_line, write_number};

// A number that was read, and where the text goes on.
#[derive(Clone, Copy)]
pub struct Found<N> {
    pub value: N,
    pub next: usize,
}

pub const SPACE: u8 = b' ';

pub const MINUS: u8 = b'-';

pub const LINE_END: u8 = b'\n';

// The largest number that is read.
pub const MOST: u64 = 4294967295;

// A signed number as one without sign.
pub fn unsigned(z: i64) -> u32
    requires { Allowed false z }
    ensures { pos result ≡ z }
{
    z as u32
}

// What follows column `i` of `n`: a space, or byte 10 after the last.
fn column_end(i: usize, n: usize) -> u8
    requires { i < n }
    ensures { result ≡ column_end i n }
{
    if i + 1 < n { SPACE } else { LINE_END }
}

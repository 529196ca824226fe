// Runs the lines of a text, each on the block that it gives or that the line before left, and, where lines have a table's text, a
// register's file or a slip, on the one that it gives or that the line before left. A slip is in the place of a file.
use crate::calls;
use crate::calls::{Call, Columns, Fill, NoCall, Plain, Slip};
use casefile::blocks::{MOST_BLOCK, MOST_FILE};
use casefile::out::{Left, LeftSlip};
use casefile::reading::Line;
use judge::{Asked, files};
use std::io;

// What stands for the refusal where there is no such call.
const NO_CALL: u32 = 99;

// What a line gives beside its block; a file may be a slip.
#[derive(Clone, Copy)]
pub enum Given {
    Nothing,
    Table,
    FileAndTable,
}

// The bytes that a line gave or left, at the front of their place.
#[derive(Clone, Copy)]
struct Held<const N: usize> {
    bytes: [u8; N],
    size: usize,
}

impl<const N: usize> Held<N> {
    fn empty() -> Held<N> {
        Held {
            bytes: [0; N],
            size: 0,
        }
    }

    // Reads the column that `end` follows, which may say `=` for the bytes of the line before.
    fn read(&mut self, line: &mut Line, end: u8) -> Option<()> {
        self.size = line.block(&mut self.bytes, self.size, end)?;
        Some(())
    }

    fn front(&self) -> &[u8] {
        let n = self.size.min(N);
        &self.bytes[..n]
    }

    fn front_mut(&mut self) -> &mut [u8] {
        let n = self.size.min(N);
        &mut self.bytes[..n]
    }
}

// Runs every line; false where one cannot be read.
pub fn run_lines(rt: &impl Print, text: &[u8], given: Given) -> io::Result<bool> {
    let mut file = Held::empty();
    let mut table = Held::empty();
    let mut block = Held::empty();
    for line in text.split_inclusive(|byte| *byte == b'\n') {
        let Some(columns) = read_line(line, given, &mut file, &mut table, &mut block) else {
            return Ok(false);
        };
        let lent = match given {
            Given::Nothing => None,
            Given::Table | Given::FileAndTable => Some(table.front()),
        };
        run_line(rt, columns, &mut file, lent, &mut block)?;
    }
    Ok(true)
}

// The numbers of a line. What it gives is put in the place of what the line before left; a text without files has an empty one.
fn read_line(
    line: &[u8],
    given: Given,
    file: &mut Held<MOST_FILE>,
    table: &mut Held<MOST_BLOCK>,
    block: &mut Held<MOST_BLOCK>,
) -> Option<Columns> {
    let mut line = Line::new(line);
    let columns = calls::read_columns(&mut line)?;
    match given {
        Given::Nothing => file.size = 0,
        Given::Table => {
            file.size = 0;
            table.read(&mut line, b' ')?;
        }
        Given::FileAndTable => {
            file.read(&mut line, b' ')?;
            table.read(&mut line, b' ')?;
        }
    }
    block.read(&mut line, b'\n')?;
    Some(columns)
}

// Makes the call and prints what comes out.
fn run_line(
    rt: &impl Print,
    c: Columns,
    file: &mut Held<MOST_FILE>,
    table: Option<&[u8]>,
    block: &mut Held<MOST_BLOCK>,
) -> io::Result<()> {
    match Call::try_from(c.call) {
        Ok(Call::Plain(call)) => run_plain(rt, call, c, file.front(), table, block),
        Ok(Call::Fill(call)) => run_fill(rt, call, c, file, table, block.front()),
        Ok(Call::Slip(call)) => run_slip(rt, call, c, file, table, block),
        Err(NoCall) => println!(rt; "{NO_CALL} 0 0 0 ="),
    }
}

fn run_plain(
    rt: &impl Print,
    call: Plain,
    c: Columns,
    file: &[u8],
    table: Option<&[u8]>,
    block: &mut Held<MOST_BLOCK>,
) -> io::Result<()> {
    let before = *block;
    let answer = calls::make(call, c, file, table, block.front_mut());
    let left = Left {
        before: before.front(),
        bytes: block.front(),
    };
    println!(rt;
        "{} {} {} {} {left}",
        answer.refusal, answer.first, answer.second, answer.third
    )
}

// Prints the slip too.
fn run_slip(
    rt: &impl Print,
    call: Slip,
    c: Columns,
    slip: &mut Held<MOST_FILE>,
    table: Option<&[u8]>,
    block: &mut Held<MOST_BLOCK>,
) -> io::Result<()> {
    let before = *block;
    let slip_before = *slip;
    let text = calls::or_empty(table);
    let answer = calls::make_slip(call, c, slip.front_mut(), text, block.front_mut());
    let left = Left {
        before: before.front(),
        bytes: block.front(),
    };
    let left_slip = LeftSlip {
        slip_before: slip_before.front(),
        slip: slip.front(),
        before: before.front(),
        after: block.front(),
    };
    println!(rt;
        "{} {} {} {} {left} {left_slip}",
        answer.refusal, answer.first, answer.second, answer.third
    )
}

// Writes the block's file, or an order, into a buffer of as many bytes as the weight says, and prints what comes out.
fn run_fill(
    rt: &impl Print,
    call: Fill,
    c: Columns,
    file: &mut Held<MOST_FILE>,
    table: Option<&[u8]>,
    block: &[u8],
) -> io::Result<()> {
    let before = *file;
    let call = match call {
        Fill::Write => judge::Call::Write,
        Fill::Order => judge::Call::Order {
            receiver: c.receiver,
            table: calls::or_empty(table),
        },
    };
    let asked = Asked {
        call,
        block,
        size: c.weight as usize,
    };
    let (answer, n) = files::judge_fill(asked, &mut file.bytes, before.size);
    file.size = n;
    let left = Left {
        before: before.front(),
        bytes: file.front(),
    };
    println!(rt;
        "{} {} {} {} {left}",
        answer.refusal, answer.first, answer.second, answer.third
    )
}

// The call file: from a lent text to a lent output.
#![tactic(auto)]

ghost use Rattle.std.specs.Prelude.{◌≡◌, false, ◌+◌, ◌≤◌, T, length};
ghost use Rattle.text.specs.Text.{AllAllowed};
ghost use Rattle.text.specs.Write.{Written};
ghost use Rattle.replay.specs.Replay.{is_call};
ghost use Rattle.callfile.specs.Printed.{printed_by};
ghost use Rattle.callfile.specs.CallFile.{malformed, most_text, out_size, RunMade};
ghost use Rattle.callfile.specs.Row.{all_zero, is_row, row_of, made_of_row, CallRead, Answered, Finished};

use block::layout;
use rules::Refusal;

// A longer text is malformed at line 1.
pub const MOST_TEXT: usize = 65536;

// An output buffer of this length always suffices: four bytes for each of the text.
pub const OUT_SIZE: usize = 262144;

// One line of a call file.
#[derive(Clone, Copy)]
struct Row {
    call: u32,
    by: u32,
    giver: u32,
    receiver: u32,
    weight: u32,
    need: u32,
    bar: u32,
}

fn all_zero(columns: &[u32]) -> bool
    ensures { result ≡ all_zero columns.now }
{
    columns.iter().all(|n| *n == 0)
}

// The number is a call's, and the columns that it does not use are 0.
#[tactic(auto, unfolding(crate::specs::Row::is_row))]
fn is_row(r: Row) -> bool
    ensures { result ≡ is_row r.call r.by r.giver r.receiver r.weight r.need r.bar }
{
    match r.call {
        0 => all_zero(&[r.by, r.giver, r.receiver, r.weight, r.bar]),
        1 => r.by == 0,
        2 => all_zero(&[r.weight, r.need, r.bar]),
        3 => all_zero(&[r.need, r.bar]),
        4 => all_zero(&[r.by, r.weight, r.need, r.bar]),
        5 => all_zero(&[r.by, r.giver, r.weight, r.need, r.bar]),
        _ => false,
    }
}

// Seven values as a row.
fn row_of(values: &[i64]) -> Row
    requires { (length values.now ≡ 7) × AllAllowed false values.now }
    ensures { row_of result ≡ values.now }
{
    Row {
        call: text::unsigned(values[0]),
        by: text::unsigned(values[1]),
        giver: text::unsigned(values[2]),
        receiver: text::unsigned(values[3]),
        weight: text::unsigned(values[4]),
        need: text::unsigned(values[5]),
        bar: text::unsigned(values[6]),
    }
}

// Goes over the lines of calls: the present line begins at `at`.
#[derive(Drop)]
struct CallReader<'a> {
    lines: &'a [u8],
    at: usize,
}

impl<'a> CallReader<'a> {
    // Reads the call of the present line and moves on to the next line; stays where there is no call.
    fn read_next(&mut self) -> Option<Row>
        requires { self.old.at ≤ length self.old.lines.now }
        ensures { CallRead self.old.lines.now self.old.at result self.new.at × (self.new.lines ≡ self.old.lines) }
    {
        let mut values = [0i64; 7];
        let next = text::read_line(self.lines, self.at, false, &mut values)?;
        let row = row_of(&values);
        if !is_row(row) {
            return None;
        }
        self.at = next;
        Some(row)
    }
}

// Makes the call of a row, by our own step table, and writes its line of answers; the place after it.
fn write_answer(block: &mut [u8], r: Row, out: &mut [u8], at: usize) -> usize
    requires { T (is_call r.call) × (at + 48 ≤ length out.old) }
    ensures { Answered (made_of_row r) block.old out.old at result block.new out.new }
{
    let (refusal, o) = register::told(replay::call(
        block, r.call, r.by, r.giver, r.receiver, r.weight, r.need, r.bar, b"",
    ));
    let line = [
        i64::from(refusal),
        i64::from(o.first),
        i64::from(o.second),
        i64::from(o.third),
    ];
    text::write_line(out, at, &line)
}

// Writes that a line is malformed; the place after it.
fn write_malformed(out: &mut [u8], at: usize, number: usize) -> usize
    requires { (number ≤ most_text) × (at + 24 ≤ length out.old) }
    ensures { Written at (malformed number) out.old result out.new }
{
    let line = [Refusal::Malformed as i64, number as i64];
    text::write_line(out, at, &line)
}

// Runs the lines after the names and writes what they print at `to`; the place after it.
fn run_calls(lines: &[u8], block: &mut [u8], out: &mut [u8], to: usize) -> usize
    requires { (length lines.now + 39 ≤ most_text) × (to ≤ 132) × (out_size ≤ length out.old) }
    ensures { Finished lines.now block.old out.old to result out.new }
{
    let mut calls = CallReader { lines, at: 0 };
    let mut end = to;
    let mut number = 2;
    while let Some(row) = calls.read_next() {
        end = write_answer(block, row, out, end);
        number += 1;
    }
    if calls.at < lines.len() {
        return write_malformed(out, end, number);
    }
    end
}

// Runs a call file on a fresh register and writes what it prints to the front of the output; how many bytes.
pub fn run(text: &[u8], out: &mut [u8]) -> Result<usize, Refusal>
    ensures { RunMade text.now out.old (printed_by result) out.new }
{
    if out.len() < OUT_SIZE {
        return Err(Refusal::WrongLength);
    }
    let start = text::write_bytes(out, 0, b"refusal first second third\n");
    if text.len() > MOST_TEXT {
        return Ok(write_malformed(out, start, 1));
    }
    let Some(lines) = text.strip_prefix(b"call by giver receiver weight need bar\n") else {
        return Ok(write_malformed(out, start, 1));
    };
    let mut block = [0u8; layout::BLOCK_SIZE];
    register::open(&mut block)?;
    Ok(run_calls(lines, &mut block, out, start))
}

// Lists of calls, each made by one call of `replay`. A line is the lengths of its three buffers, the texts that are lent with
// it, written as a block is, the numbers of the list and a full stop.
#![tactic(auto)]

ghost use Rattle.std.specs.Prelude.{◌≡◌, length};
ghost use Rattle.lists.specs.Sizes.{slots_size};

use block::layout;
use casefile::out::Left;
use casefile::reading;
use casefile::reading::Line;
use std::io;

// A list has at most this many calls.
const MOST_CALLS: usize = 200;

// The numbers that are read, a call more than a list may have, and what is kept of the calls: a slot more than calls.
const NUMBERS: usize = replay::NUMBERS_PER_CALL * (MOST_CALLS + 1);

const SLOTS_SIZE: usize = layout::BLOCK_SIZE * (MOST_CALLS + 1);

const ANSWERS: usize = replay::ANSWERS_PER_CALL * MOST_CALLS;

// A line gives texts of at most this many bytes.
const MOST_TEXTS: usize = 8192;

// What every place of a buffer holds before the call.
const BYTE: u8 = 170;

const NUMBER: u32 = 77;

const SIGNED: i32 = -7;

// What stands for lengths above those of the buffers.
const TOO_LONG: u32 = 99;

// The lengths of the list, of the texts that are lent with it and of the three buffers.
#[derive(Clone, Copy)]
struct Sizes {
    blocks: usize,
    refusals: usize,
    answers: usize,
    texts: usize,
    numbers: usize,
}

// Runs every line, lent the texts that it gives, or those of the line before; false where one cannot be read.
pub fn run_lines(rt: &impl Print, text: &[u8]) -> io::Result<bool> {
    let mut texts = [0u8; MOST_TEXTS];
    let mut size = 0;
    for line in text.split_inclusive(|byte| *byte == b'\n') {
        let mut numbers = [0u32; NUMBERS];
        let Some(sizes) = read_line(line, &mut texts, size, &mut numbers) else {
            return Ok(false);
        };
        run_list(rt, &numbers, &texts, sizes)?;
        size = sizes.texts;
    }
    Ok(true)
}

// A line's texts, the first `size` bytes of those before where it says `=`, and its numbers.
fn read_line(line: &[u8], texts: &mut [u8], size: usize, numbers: &mut [u32]) -> Option<Sizes> {
    let mut line = Line::new(line);
    Some(Sizes {
        blocks: line.number(b' ')? as usize,
        refusals: line.number(b' ')? as usize,
        answers: line.number(b' ')? as usize,
        texts: line.block(texts, size, b' ')?,
        numbers: read_numbers(line.rest.strip_suffix(b".\n")?, numbers)?,
    })
}

// Puts the numbers of a text, each with a space after it, into the list; how many there are.
fn read_numbers(text: &[u8], numbers: &mut [u32]) -> Option<usize> {
    let mut count = 0;
    for column in text.split_inclusive(|byte| *byte == b' ') {
        let place = numbers.get_mut(count)?;
        *place = reading::number(column.strip_suffix(b" ")?)?;
        count += 1;
    }
    Some(count)
}

// Makes the calls and prints what every buffer holds afterwards, a line for each call.
fn run_list(rt: &impl Print, numbers: &[u32], texts: &[u8], sizes: Sizes) -> io::Result<()> {
    let mut blocks = unwritten();
    let mut refusals = [NUMBER; MOST_CALLS];
    let mut answers = [SIGNED; ANSWERS];
    let made = make(
        numbers,
        texts,
        sizes,
        &mut blocks,
        &mut refusals,
        &mut answers,
    );
    print_first(rt, made.unwrap_or(TOO_LONG), &blocks)?;
    let n = sizes.numbers / replay::NUMBERS_PER_CALL;
    print_rows(rt, n, &blocks, &refusals, &answers)
}

// A slot more than calls. The `ensures` hides the bytes, so that no caller's proof computes them.
fn unwritten() -> [u8; SLOTS_SIZE]
    ensures { slots_size ≡ length result }
{
    [BYTE; SLOTS_SIZE]
}

// One call of `replay` on the fronts that have these lengths.
fn make(
    numbers: &[u32],
    texts: &[u8],
    sizes: Sizes,
    blocks: &mut [u8],
    refusals: &mut [u32],
    answers: &mut [i32],
) -> Option<u32> {
    let made = replay::replay(
        numbers.get(..sizes.numbers)?,
        texts.get(..sizes.texts)?,
        blocks.get_mut(..sizes.blocks)?,
        refusals.get_mut(..sizes.refusals)?,
        answers.get_mut(..sizes.answers)?,
    );
    Some(made.err().map_or(0, |refusal| refusal.number()))
}

// Prints the refusal and slot 0, `=` where it was not written.
fn print_first(rt: &impl Print, refusal: u32, blocks: &[u8]) -> io::Result<()> {
    let before = [BYTE; layout::BLOCK_SIZE];
    let n = layout::BLOCK_SIZE.min(blocks.len());
    let left = Left {
        before: &before,
        bytes: &blocks[..n],
    };
    println!(rt; "{refusal} {left}")
}

// Prints what is kept of each call: its answer, and its slot, `=` where that is the slot before.
fn print_rows(
    rt: &impl Print,
    n: usize,
    blocks: &[u8],
    refusals: &[u32],
    answers: &[i32],
) -> io::Result<()> {
    let (slots, _) = blocks.as_chunks::<{ layout::BLOCK_SIZE }>();
    let (answers, _) = answers.as_chunks::<{ replay::ANSWERS_PER_CALL }>();
    let kept = refusals.iter().zip(answers).zip(slots.array_windows::<2>());
    for ((refusal, answer), pair) in kept.take(n) {
        let [first, second, third] = *answer;
        let [before, bytes] = pair;
        let left = Left { before, bytes };
        println!(rt; "{refusal} {first} {second} {third} {left}")?;
    }
    Ok(())
}

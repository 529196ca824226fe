// A list of calls made one after another, every block kept; each may be lent the text of a step table.
#![tactic(auto)]

ghost use Rattle.std.specs.Prelude.{◌≡◌, ◌+◌, ◌*◌, ◌≤◌, ◌<◌, T, length, get_or, drop};
ghost use Rattle.block.specs.Layout.{block_size};
ghost use Rattle.rules.specs.Refused.{refused_with};
ghost use Rattle.register.specs.Answer.{answer_of};
ghost use Rattle.register.specs.Made.{result_of};
ghost use Rattle.demands.specs.History.{plain, asked_on};
ghost use Rattle.replay.specs.Replay.{is_call, call_of, CallMade, numbers_per_call, answers_per_call, ask_in, is_sized, text_fits, all_texts, all_calls, ReplayMade};
ghost use Rattle.replay.specs.Turn.{Reckoning, TextPlaced, SlotCopied, Stored, Ready, TurnMade};

use block::layout;
use register::Answers;
use rules::Refusal;

// How many numbers a call has in a list, and how many answers.
pub const NUMBERS_PER_CALL: usize = 9;

pub const ANSWERS_PER_CALL: usize = 3;

// Makes the call that the numbers name: 0 enrol (marks under need), 1 grant, 2 revoke, 3 downgrade, 4 reach, 5 use, 6 marks (the
// subject under receiver, its marks under need), 7 retire (the subject under receiver).
// Those that reckon reach go by the table of the text, ours where it is empty; the others do not look at it.
pub fn call(
    block: &mut [u8],
    number: u32,
    by: u32,
    giver: u32,
    receiver: u32,
    weight: u32,
    need: u32,
    bar: u32,
    table: &[u8],
) -> Result<Answers, Refusal>
    ensures { CallMade number (call_of number by giver receiver weight need bar) table.now block.old (answer_of result) block.new }
{
    match number {
        0 => register::enrol(block, need),
        1 => register::grant_table(block, giver, receiver, weight, need, bar, table),
        2 => register::revoke_table(block, by, giver, receiver, table),
        3 => register::downgrade_table(block, by, giver, receiver, weight, table),
        4 => register::reach_table(block, giver, receiver, table),
        5 => register::use_right(block, receiver),
        6 => register::set_marks(block, by, receiver, need, table),
        7 => register::retire(block, by, receiver, table),
        _ => Err(Refusal::Malformed),
    }
}

// The number is a call's.
fn is_call(number: u32) -> bool
    ensures { result ≡ is_call number }
{
    number <= 7
}

// Every call number is a call's.
fn all_calls(calls: &[u32]) -> bool
    ensures { result ≡ all_calls calls.now }
{
    for i in 0..calls.len() / NUMBERS_PER_CALL {
        if !is_call(calls[NUMBERS_PER_CALL * i]) {
            return false;
        }
    }
    true
}

// The call of this number reckons reach, and so takes a table.
fn reckons(number: u32) -> bool
    ensures { Reckoning number result }
{
    if number == 0 {
        return false;
    }
    if number == 5 {
        return false;
    }
    number <= 7
}

// The number at a place, as a size.
fn size_at(numbers: &[u32], at: usize) -> usize
    requires { at < length numbers.now }
    ensures { (result ≡ get_or numbers.now at 0) × (result < 4294967296) }
{
    numbers[at] as usize
}

// Where a text begins and ends in what is lent.
#[derive(Clone, Copy)]
struct Place {
    begin: usize,
    end: usize,
}

// Where the text of the call whose numbers begin at `at` lies; the empty one for a call that takes no table.
fn text_place(calls: &[u32], at: usize) -> Place
    requires { at + numbers_per_call ≤ length calls.now }
    ensures { TextPlaced (drop at calls.now) result }
{
    if !reckons(calls[at]) {
        return Place { begin: 0, end: 0 };
    }
    let begin = size_at(calls, at + 7);
    let end = begin + size_at(calls, at + 8);
    Place { begin, end }
}

// Every text lies within what is lent.
fn all_texts(calls: &[u32], texts: &[u8]) -> bool
    ensures { result ≡ all_texts calls.now texts.now }
{
    for i in 0..calls.len() / NUMBERS_PER_CALL {
        let place = text_place(calls, NUMBERS_PER_CALL * i);
        if place.end > texts.len() {
            return false;
        }
    }
    true
}

// The lengths fit each other: whole calls, a block more than calls, a refusal and the answers for each call.
fn is_sized(calls: usize, blocks: usize, refusals: usize, answers: usize) -> bool
    ensures { result ≡ is_sized calls blocks refusals answers }
{
    if calls % NUMBERS_PER_CALL != 0 {
        return false;
    }
    if blocks % layout::BLOCK_SIZE != 0 {
        return false;
    }
    if blocks / layout::BLOCK_SIZE != calls / NUMBERS_PER_CALL + 1 {
        return false;
    }
    if refusals != calls / NUMBERS_PER_CALL {
        return false;
    }
    if answers % ANSWERS_PER_CALL != 0 {
        return false;
    }
    answers / ANSWERS_PER_CALL == calls / NUMBERS_PER_CALL
}

// Slot `i` copied to the slot after it.
fn copy_slot(blocks: &mut [u8], i: usize)
    requires { block_size * (i + 2) ≤ length blocks.old }
    ensures { SlotCopied blocks.old i blocks.new }
{
    let from = layout::BLOCK_SIZE * i;
    let to = from + layout::BLOCK_SIZE;
    blocks.copy_within(from..to, to);
}

// What call `i` returned.
fn store(refusals: &mut [u32], answers: &mut [i32], i: usize, returned: Result<Answers, Refusal>)
    requires { (i < length refusals.old) × (answers_per_call * i + answers_per_call ≤ length answers.old) }
    ensures { Stored refusals.old answers.old i (answer_of returned) refusals.new answers.new }
{
    let (number, told) = register::told(returned);
    let first = told.first;
    let second = told.second;
    let third = told.third;
    refusals[i] = number;
    answers[ANSWERS_PER_CALL * i] = first;
    answers[ANSWERS_PER_CALL * i + 1] = second;
    answers[ANSWERS_PER_CALL * i + 2] = third;
}

// The call whose numbers begin at `at`, with its text.
fn call_at(calls: &[u32], at: usize, texts: &[u8], block: &mut [u8]) -> Result<Answers, Refusal>
    requires { (at + numbers_per_call ≤ length calls.now) × T (is_call (get_or calls.now at 0)) × T (text_fits (drop at calls.now) (length texts.now)) }
    ensures { plain (result_of (answer_of result) block.new) ≡ asked_on block.old (ask_in texts.now (drop at calls.now)) }
{
    let place = text_place(calls, at);
    let begin = place.begin;
    let end = place.end;
    call(
        block,
        calls[at],
        calls[at + 1],
        calls[at + 2],
        calls[at + 3],
        calls[at + 4],
        calls[at + 5],
        calls[at + 6],
        &texts[begin..end],
    )
}

// Call `i`, on a copy of slot `i` in the slot after it.
fn turn(
    calls: &[u32],
    i: usize,
    texts: &[u8],
    blocks: &mut [u8],
    refusals: &mut [u32],
    answers: &mut [i32],
)
    requires { Ready calls.now texts.now i blocks.old refusals.old answers.old }
    ensures { TurnMade calls.now texts.now blocks.old refusals.old answers.old i blocks.new refusals.new answers.new }
{
    copy_slot(blocks, i);
    let start = layout::BLOCK_SIZE * (i + 1);
    let end = start + layout::BLOCK_SIZE;
    let o = call_at(calls, NUMBERS_PER_CALL * i, texts, &mut blocks[start..end]);
    store(refusals, answers, i, o);
}

// Makes a list of calls, by the numbers of each: call, by, giver, receiver, weight, need, bar, and of its table's text
// where it begins in `texts` and how long it is.
// Slot 0 of `blocks` is opened; slot i + 1 is a copy of slot i on which call i is made.
pub fn replay(
    calls: &[u32],
    texts: &[u8],
    blocks: &mut [u8],
    refusals: &mut [u32],
    answers: &mut [i32],
) -> Result<(), Refusal>
    ensures { ReplayMade calls.now texts.now blocks.old refusals.old answers.old (refused_with result) blocks.new refusals.new answers.new }
{
    if !is_sized(calls.len(), blocks.len(), refusals.len(), answers.len()) {
        return Err(Refusal::WrongLength);
    }
    if !all_texts(calls, texts) {
        return Err(Refusal::WrongLength);
    }
    if !all_calls(calls) {
        return Err(Refusal::Malformed);
    }
    register::open(&mut blocks[0..layout::BLOCK_SIZE])?;
    for i in 0..calls.len() / NUMBERS_PER_CALL {
        turn(calls, i, texts, blocks, refusals, answers);
    }
    Ok(())
}

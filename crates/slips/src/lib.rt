// Cuts that can be taken back: a revocation or downgrade that writes a slip, and the slip handed in.
#![tactic(auto)]

mod slip;

ghost use Rattle.std.specs.Prelude.{◌≡◌, T, length};
ghost use Rattle.rules.specs.Cut.{removal, lowering};
ghost use Rattle.rules.specs.Call.{cut_call};
ghost use Rattle.block.specs.Layout.{block_size};
ghost use Rattle.steptable.specs.TableText.{given};
ghost use Rattle.steptable.specs.Lent.{given_by, KeepsRule};
ghost use Rattle.register.specs.Answer.{answer_of};
ghost use Rattle.register.specs.Cuts.{CutMade};
ghost use Rattle.slips.specs.Slip.{slip_size, cut_of, SlipMade, is_cut};
ghost use Rattle.slips.specs.TakeBack.{genuine, TakeBackMade};

use block::layout;
use register::Answers;
use rules::Refusal;
pub use slip::SLIP_SIZE;
use slip::{AFTER_AT, BY_AT, DOWNGRADE, GIVER_AT, NUMBER_AT, RECEIVER_AT, REVOKE, WEIGHT_AT};
use steptable::{Table, fault, read_table};

// Makes the cut of this number by a lent step table that keeps the rule, or its fault; a revocation has no weight.
fn cut_by(
    block: &mut [u8],
    table: &Table,
    number: u8,
    by: u32,
    giver: u32,
    receiver: u32,
    weight: u32,
) -> Result<Answers, Refusal>
    requires { KeepsRule table.now }
    ensures { CutMade (given_by table.now) (cut_call by (cut_of number giver receiver weight)) block.old (answer_of result) block.new }
{
    if number == REVOKE {
        return register::revoke_lent(block, table, by, giver, receiver);
    }
    register::downgrade_lent(block, table, by, giver, receiver, weight)
}

// Makes a cut by the step table of a text, ours where it is empty; where it is accepted, writes its slip.
fn cut_slip(
    block: &mut [u8],
    number: u8,
    by: u32,
    giver: u32,
    receiver: u32,
    weight: u32,
    table: &[u8],
    slip: &mut [u8],
) -> Result<Answers, Refusal>
    requires { T (is_cut number weight) }
    ensures { SlipMade (given table.now) by (cut_of number giver receiver weight) block.old slip.old (answer_of result) block.new slip.new }
{
    if slip.len() != SLIP_SIZE {
        return Err(Refusal::WrongLength);
    }
    if block.len() != layout::BLOCK_SIZE {
        return Err(Refusal::WrongLength);
    }
    let mut before = [0u8; layout::BLOCK_SIZE];
    change::copy(block, &mut before);
    let lent = read_table(table);
    let answers = cut_by(block, &lent, number, by, giver, receiver, weight)?;
    let cut = [number, by as u8, giver as u8, receiver as u8, weight as u8];
    slip::write_slip(slip, &before, &cut, block);
    Ok(answers)
}

// Revokes by the step table of a text, as `register::revoke_table`; where accepted, writes the slip by which it can be taken back.
pub fn revoke_slip(
    block: &mut [u8],
    by: u32,
    giver: u32,
    receiver: u32,
    table: &[u8],
    slip: &mut [u8],
) -> Result<Answers, Refusal>
    ensures { SlipMade (given table.now) by (removal giver receiver) block.old slip.old (answer_of result) block.new slip.new }
{
    cut_slip(block, REVOKE, by, giver, receiver, 0, table, slip)
}

// Downgrades so.
pub fn downgrade_slip(
    block: &mut [u8],
    by: u32,
    giver: u32,
    receiver: u32,
    weight: u32,
    table: &[u8],
    slip: &mut [u8],
) -> Result<Answers, Refusal>
    ensures { SlipMade (given table.now) by (lowering giver receiver weight) block.old slip.old (answer_of result) block.new slip.new }
{
    cut_slip(block, DOWNGRADE, by, giver, receiver, weight, table, slip)
}

// The register equals the slip's after, and the cut, accepted on the slip's before, writes this same slip.
fn is_genuine(block: &[u8], table: &Table, slip: &[u8]) -> bool
    requires { KeepsRule table.now × (length block.now ≡ block_size) × (length slip.now ≡ slip_size) }
    ensures { result ≡ genuine (given_by table.now) block.now slip.now }
{
    if !slip::equal(&slip[AFTER_AT..], block) {
        return false;
    }
    if !slip::is_cut(slip[NUMBER_AT], slip[WEIGHT_AT]) {
        return false;
    }
    let mut left = [0u8; layout::BLOCK_SIZE];
    change::copy(&slip[..layout::BLOCK_SIZE], &mut left);
    let made = cut_by(
        &mut left,
        table,
        slip[NUMBER_AT],
        slip[BY_AT] as u32,
        slip[GIVER_AT] as u32,
        slip[RECEIVER_AT] as u32,
        slip[WEIGHT_AT] as u32,
    );
    if made.is_err() {
        return false;
    }
    slip::equal(&left, block)
}

// Takes the cut of a slip back: puts the block before it in place, byte for byte. The cut is made again, by the step table of a text, to see that it wrote this slip.
pub fn take_back(block: &mut [u8], by: u32, table: &[u8], slip: &[u8]) -> Result<Answers, Refusal>
    ensures { TakeBackMade (given table.now) by slip.now block.old (answer_of result) block.new }
{
    if slip.len() != SLIP_SIZE {
        return Err(Refusal::WrongLength);
    }
    let given = read_table(table);
    refusals::back_refusal(block, fault(&given), by, slip[GIVER_AT] as u32)?;
    if !is_genuine(block, &given, slip) {
        return Err(Refusal::OtherSlip);
    }
    change::copy(&slip[..layout::BLOCK_SIZE], block);
    Ok(Answers::new(0, 0, 0))
}

// The calls that rounds follow, by a lent step table that keeps the rule, or its fault.
ghost use Rattle.rules.specs.Call.{revoke, downgrade, set_marks, retire};
ghost use Rattle.steptable.specs.Lent.{given_by, KeepsRule};
ghost use Rattle.register.specs.Answer.{answer_of};
ghost use Rattle.register.specs.Cuts.{CutMade};

use crate::Answers;
use crate::cutting::settle;
use rules::Refusal;
use steptable::Table;

pub fn revoke_lent(
    block: &mut [u8],
    table: &Table,
    by: u32,
    giver: u32,
    receiver: u32,
) -> Result<Answers, Refusal>
    requires { KeepsRule table.now }
    ensures { CutMade (given_by table.now) (revoke by giver receiver) block.old (answer_of result) block.new }
{
    let steps = refusals::revoke_allowed(block, table, by, giver, receiver)?;
    change::remove(block, giver as u8, receiver as u8);
    Ok(settle(block, steps))
}

pub fn downgrade_lent(
    block: &mut [u8],
    table: &Table,
    by: u32,
    giver: u32,
    receiver: u32,
    weight: u32,
) -> Result<Answers, Refusal>
    requires { KeepsRule table.now }
    ensures { CutMade (given_by table.now) (downgrade by giver receiver weight) block.old (answer_of result) block.new }
{
    let steps = refusals::downgrade_allowed(block, table, by, giver, receiver, weight)?;
    change::set_weight(block, giver as u8, receiver as u8, weight as u8);
    Ok(settle(block, steps))
}

pub fn set_marks_by(
    block: &mut [u8],
    table: &Table,
    by: u32,
    subject: u32,
    marks: u32,
) -> Result<Answers, Refusal>
    requires { KeepsRule table.now }
    ensures { CutMade (given_by table.now) (set_marks by subject marks) block.old (answer_of result) block.new }
{
    let steps = refusals::marks_allowed(block, table, by, subject, marks)?;
    change::set_marks(block, subject as u8, marks as u16);
    Ok(settle(block, steps))
}

pub fn retire_by(block: &mut [u8], table: &Table, by: u32, subject: u32) -> Result<Answers, Refusal>
    requires { KeepsRule table.now }
    ensures { CutMade (given_by table.now) (retire by subject) block.old (answer_of result) block.new }
{
    let steps = refusals::retire_allowed(block, table, by, subject)?;
    change::retire(block, subject as u8);
    Ok(settle(block, steps))
}

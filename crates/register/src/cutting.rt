// A cut and the rounds that follow it.
ghost use Rattle.std.specs.Prelude.{◌≡◌, true};
ghost use Rattle.rules.specs.Table.{TableRule};
ghost use Rattle.rules.specs.Call.{revoke, downgrade};
ghost use Rattle.rules.specs.CallStep.{cut};
ghost use Rattle.block.specs.Block.{decode};
ghost use Rattle.block.specs.WellFormed.{well_formed};
ghost use Rattle.steptable.specs.TableText.{lent};
ghost use Rattle.register.specs.Answer.{answer_of};
ghost use Rattle.register.specs.CallOn.{written};
ghost use Rattle.register.specs.Made.{result_of};
ghost use Rattle.register.specs.Cuts.{CutMade};

use crate::Answers;
use rules::Refusal;

// What such a call does after its change: rounds until one changes nothing; answers dropped, lowered and rounds.
pub fn settle(block: &mut [u8], table: &[i16]) -> Answers
    requires { (well_formed block.old ≡ true) × TableRule table.now }
    ensures { result_of (answer_of (Ok result)) block.new ≡ written block.old (cut table.now (decode block.old)) }
{
    let o = rounds::settled(block, table);
    let dropped = o.dropped as i32;
    let lowered = o.lowered as i32;
    let made = o.rounds as i32;
    Answers::new(dropped, lowered, made)
}

// A revocation and a downgrade, where the text of the table is refused with the number `fault`, or passes where that is another.
pub fn revoke_by(
    block: &mut [u8],
    table: &[i16],
    fault: u32,
    by: u32,
    giver: u32,
    receiver: u32,
) -> Result<Answers, Refusal>
    requires { TableRule table.now }
    ensures { CutMade (lent fault table.now) (revoke by giver receiver) block.old (answer_of result) block.new }
{
    refusals::revoke_refusal(block, fault, by, giver, receiver)?;
    change::remove(block, giver as u8, receiver as u8);
    Ok(settle(block, table))
}

pub fn downgrade_by(
    block: &mut [u8],
    table: &[i16],
    fault: u32,
    by: u32,
    giver: u32,
    receiver: u32,
    weight: u32,
) -> Result<Answers, Refusal>
    requires { TableRule table.now }
    ensures { CutMade (lent fault table.now) (downgrade by giver receiver weight) block.old (answer_of result) block.new }
{
    refusals::downgrade_refusal(block, fault, by, giver, receiver, weight)?;
    change::set_weight(block, giver as u8, receiver as u8, weight as u8);
    Ok(settle(block, table))
}

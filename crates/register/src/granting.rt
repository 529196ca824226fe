// Reach and grant by a lent step table that keeps the rule, or its fault.
ghost use Rattle.rules.specs.Register.{granted};
ghost use Rattle.rules.specs.Call.{grant, ask_reach};
ghost use Rattle.steptable.specs.Lent.{given_by, KeepsRule};
ghost use Rattle.register.specs.Answer.{answer_of};
ghost use Rattle.register.specs.Made.{Made};

use crate::Answers;
use rules::Refusal;
use steptable::Table;

pub fn reach_by(block: &[u8], table: &Table, giver: u32, receiver: u32) -> Result<Answers, Refusal>
    requires { KeepsRule table.now }
    ensures { Made (given_by table.now) (ask_reach giver receiver) block.now (answer_of result) block.now }
{
    let steps = refusals::reach_allowed(block, table, giver, receiver)?;
    let k = search::reach_of(block, steps, giver as usize, receiver as usize);
    Ok(Answers::new(k as i32, 0, 0))
}

pub fn grant_by(
    block: &mut [u8],
    table: &Table,
    giver: u32,
    receiver: u32,
    weight: u32,
    need: u32,
    bar: u32,
    kind: u32,
) -> Result<Answers, Refusal>
    requires { KeepsRule table.now }
    ensures { Made (given_by table.now) (grant (granted giver receiver weight need bar kind)) block.old (answer_of result) block.new }
{
    refusals::grant_allowed(block, table, giver, receiver, weight, need, bar, kind)?;
    change::put_granted(
        block,
        giver as u8,
        receiver as u8,
        weight as u8,
        need as u16,
        bar as u16,
        kind as u8,
    );
    Ok(Answers::new(block::count(block) as i32, 0, 0))
}

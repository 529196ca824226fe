// The public calls of the register, on plain numbers and a lent block of any length and content, by document 01's own step table; those that reckon reach also by one that the host lends as text of any length and content.
#![tactic(auto)]

mod cutting;
mod granting;
mod lent;

ghost use Rattle.std.specs.Prelude.{◌≡◌};
ghost use Rattle.rules.specs.Register.{granted};
ghost use Rattle.rules.specs.Call.{enrol, grant, revoke, downgrade, ask_reach, ask_use, set_marks, retire};
ghost use Rattle.steptable.specs.TableText.{ours, given};
ghost use Rattle.steptable.specs.Lent.{given_by};
ghost use Rattle.register.specs.Answer.{answers, as_numbers, answer_of};
ghost use Rattle.register.specs.Made.{Made, MadeOpen};
ghost use Rattle.register.specs.Cuts.{CutMade};
ghost use Rattle.register.specs.Bring.{BringMade};

use block::layout;
pub use cutting::{downgrade_by, revoke_by};
pub use lent::{downgrade_lent, revoke_lent};
use rules::{Refusal, kind};
use steptable::{Table, read_table};

// The three answers of an accepted call, 0 where unused.
#[derive(Clone, Copy, Debug, PartialEq, Eq)]
pub struct Answers {
    pub first: i32,
    pub second: i32,
    pub third: i32,
}

impl Answers {
    pub fn new(first: i32, second: i32, third: i32) -> Answers
        ensures { result ≡ answers first second third }
    {
        Answers {
            first,
            second,
            third,
        }
    }
}

// What a call returned, as numbers: the refusal number, 0 when accepted, and the answers, 0 when refused.
pub fn told(returned: Result<Answers, Refusal>) -> (u32, Answers)
    ensures { as_numbers result.0 result.1 ≡ answer_of returned }
{
    match returned {
        Ok(answers) => (0, answers),
        Err(refusal) => (refusal.number(), Answers::new(0, 0, 0)),
    }
}

// Document 01's own step table, as a lent one.
fn own() -> Table
    ensures { given_by result ≡ ours }
{
    Ok(rules::steps())
}

// Writes a fresh register: one subject, no delegation.
pub fn open(block: &mut [u8]) -> Result<Answers, Refusal>
    ensures { MadeOpen block.old (answer_of result) block.new }
{
    if block.len() != layout::BLOCK_SIZE {
        return Err(Refusal::WrongLength);
    }
    change::write_fresh(block);
    Ok(Answers::new(0, 0, 0))
}

// Takes a block of the layout before, of 2,180 bytes, over into one of the present layout, whatever that holds.
pub fn bring_over(old: &[u8], block: &mut [u8]) -> Result<Answers, Refusal>
    ensures { BringMade old.now block.old (answer_of result) block.new }
{
    if old.len() != layout::OLD_BLOCK_SIZE {
        return Err(Refusal::WrongLength);
    }
    if block.len() != layout::BLOCK_SIZE {
        return Err(Refusal::WrongLength);
    }
    let mut brought = [0u8; layout::BLOCK_SIZE];
    change::write_brought(old, &mut brought);
    if !block::well_formed(&brought) {
        return Err(Refusal::NotWellFormed);
    }
    change::copy(&brought, block);
    Ok(Answers::new(0, 0, 0))
}

// Enrols a subject; answers its number.
pub fn enrol(block: &mut [u8], marks: u32) -> Result<Answers, Refusal>
    ensures { Made ours (enrol marks) block.old (answer_of result) block.new }
{
    refusals::enrol_refusal(block, marks)?;
    let subject = block::subjects(block);
    change::add_subject(block, marks as u16);
    Ok(Answers::new(subject as i32, 0, 0))
}

// Document 01's call use: 1 if the receiver is the owner or some ordinary delegation to it stands, else 0.
pub fn use_right(block: &[u8], receiver: u32) -> Result<Answers, Refusal>
    ensures { Made ours (ask_use receiver) block.now (answer_of result) block.now }
{
    refusals::use_refusal(block, receiver)?;
    if receiver == 0 {
        return Ok(Answers::new(1, 0, 0));
    }
    if block::opens(block, block::count(block), receiver as u8) {
        return Ok(Answers::new(1, 0, 0));
    }
    Ok(Answers::new(0, 0, 0))
}

// Reach of a pair: -1 to 255, also for a standing pair.
pub fn reach(block: &[u8], giver: u32, receiver: u32) -> Result<Answers, Refusal>
    ensures { Made ours (ask_reach giver receiver) block.now (answer_of result) block.now }
{
    granting::reach_by(block, &own(), giver, receiver)
}

// Adds an ordinary delegation; answers the delegations now standing.
pub fn grant(
    block: &mut [u8],
    giver: u32,
    receiver: u32,
    weight: u32,
    need: u32,
    bar: u32,
) -> Result<Answers, Refusal>
    ensures { Made ours (grant (granted giver receiver weight need bar 0)) block.old (answer_of result) block.new }
{
    granting::grant_by(
        block,
        &own(),
        giver,
        receiver,
        weight,
        need,
        bar,
        kind::ORDINARY as u32,
    )
}

// Removes a delegation, then lowers or removes what it no longer supports; answers dropped, lowered and rounds.
pub fn revoke(block: &mut [u8], by: u32, giver: u32, receiver: u32) -> Result<Answers, Refusal>
    ensures { CutMade ours (revoke by giver receiver) block.old (answer_of result) block.new }
{
    cutting::revoke_by(block, &rules::steps(), 0, by, giver, receiver)
}

// Sets a delegation to a smaller weight, then as revoke.
pub fn downgrade(
    block: &mut [u8],
    by: u32,
    giver: u32,
    receiver: u32,
    weight: u32,
) -> Result<Answers, Refusal>
    ensures { CutMade ours (downgrade by giver receiver weight) block.old (answer_of result) block.new }
{
    cutting::downgrade_by(block, &rules::steps(), 0, by, giver, receiver, weight)
}

// Reach by the step table of a text, ours where it is empty.
pub fn reach_table(
    block: &[u8],
    giver: u32,
    receiver: u32,
    table: &[u8],
) -> Result<Answers, Refusal>
    ensures { Made (given table.now) (ask_reach giver receiver) block.now (answer_of result) block.now }
{
    granting::reach_by(block, &read_table(table), giver, receiver)
}

// Adds a delegation of a kind, by such a table.
pub fn grant_kind(
    block: &mut [u8],
    giver: u32,
    receiver: u32,
    weight: u32,
    need: u32,
    bar: u32,
    kind: u32,
    table: &[u8],
) -> Result<Answers, Refusal>
    ensures { Made (given table.now) (grant (granted giver receiver weight need bar kind)) block.old (answer_of result) block.new }
{
    granting::grant_by(
        block,
        &read_table(table),
        giver,
        receiver,
        weight,
        need,
        bar,
        kind,
    )
}

// Adds an ordinary one.
pub fn grant_table(
    block: &mut [u8],
    giver: u32,
    receiver: u32,
    weight: u32,
    need: u32,
    bar: u32,
    table: &[u8],
) -> Result<Answers, Refusal>
    ensures { Made (given table.now) (grant (granted giver receiver weight need bar 0)) block.old (answer_of result) block.new }
{
    grant_kind(
        block,
        giver,
        receiver,
        weight,
        need,
        bar,
        kind::ORDINARY as u32,
        table,
    )
}

// Revoke by such a table: what is kept is judged by it.
pub fn revoke_table(
    block: &mut [u8],
    by: u32,
    giver: u32,
    receiver: u32,
    table: &[u8],
) -> Result<Answers, Refusal>
    ensures { CutMade (given table.now) (revoke by giver receiver) block.old (answer_of result) block.new }
{
    lent::revoke_lent(block, &read_table(table), by, giver, receiver)
}

// Downgrade by such a table.
pub fn downgrade_table(
    block: &mut [u8],
    by: u32,
    giver: u32,
    receiver: u32,
    weight: u32,
    table: &[u8],
) -> Result<Answers, Refusal>
    ensures { CutMade (given table.now) (downgrade by giver receiver weight) block.old (answer_of result) block.new }
{
    lent::downgrade_lent(block, &read_table(table), by, giver, receiver, weight)
}

// Sets all marks of an enrolled subject, which only the owner may, then as revoke: chains are judged by the new marks and by such a table.
pub fn set_marks(
    block: &mut [u8],
    by: u32,
    subject: u32,
    marks: u32,
    table: &[u8],
) -> Result<Answers, Refusal>
    ensures { CutMade (given table.now) (set_marks by subject marks) block.old (answer_of result) block.new }
{
    lent::set_marks_by(block, &read_table(table), by, subject, marks)
}

// Retires an enrolled subject, which only the owner may: all delegations to and from it are removed, its marks cleared, its bit set; then as revoke, by such a table.
pub fn retire(block: &mut [u8], by: u32, subject: u32, table: &[u8]) -> Result<Answers, Refusal>
    ensures { CutMade (given table.now) (retire by subject) block.old (answer_of result) block.new }
{
    lent::retire_by(block, &read_table(table), by, subject)
}

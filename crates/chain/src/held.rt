// The chain call on a well-formed block: a chain that carries the weight of a pair, written into a lent buffer.
ghost use Rattle.std.specs.Prelude.{cond, ◌≤◌, length, pos};
ghost use Rattle.std.specs.Int.Signed.{lt_z};
ghost use Rattle.rules.specs.Table.{TableRule};
ghost use Rattle.rules.specs.Register.{marks_of};
ghost use Rattle.rules.specs.Reach.{reach};
ghost use Rattle.rules.specs.Pair.{weight_at};
ghost use Rattle.rules.specs.Call.{ask_reach};
ghost use Rattle.rules.specs.Refusal.{first_of, chain_held};
ghost use Rattle.block.specs.Block.{records_in, decode};
ghost use Rattle.refusals.specs.Checked.{Checked, BothEnrolled};
ghost use Rattle.search.specs.Found.{Searched};
ghost use Rattle.chain.specs.Links.{chain_size};
ghost use Rattle.chain.specs.Answer.{chain_answer};
ghost use Rattle.chain.specs.ChainOn.{ChainLeft};
ghost use Rattle.chain.specs.Lent.{LimitsLent};

use crate::links;
use block::layout;
use refusals::pair_held;
use rules::Refusal;

// The most links of a chain.
pub const MOST_LINKS: usize = layout::SUBJECTS - 1;

// The reach of every subject for a receiver, and the parents by which each is reached.
fn limits_for(block: &[u8], table: &[i16], receiver: usize, limits: &mut [i16], parents: &mut [u16])
    requires { LimitsLent table.now block.now receiver limits.old parents.old }
    ensures { Searched table.now (records_in block.now) (marks_of (decode block.now) receiver) limits.new parents.new }
{
    let mut starts = [0u16; runs::STARTS];
    search::starts_of(block, &mut starts);
    search::limits_for(block, &starts, table, receiver, limits, parents);
}

// A chain of the pair that carries a weight; 16 where its reach is below that.
fn write_carrying(
    block: &[u8],
    table: &[i16],
    giver: usize,
    receiver: usize,
    weight: u8,
    buf: &mut [u8],
) -> Result<usize, Refusal>
    requires { BothEnrolled block.now giver receiver × TableRule table.now × (chain_size ≤ length buf.old) }
    ensures { ChainLeft table.now (decode block.now) giver receiver (pos weight) (cond (lt_z (reach table.now (decode block.now) giver receiver) (pos weight)) 16 0) buf.old (chain_answer result) buf.new }
{
    let mut limits = [-1i16; layout::SUBJECTS];
    let mut parents = [0u16; layout::SUBJECTS];
    limits_for(block, table, receiver, &mut limits, &mut parents);
    if limits[giver] < weight as i16 {
        return Err(Refusal::Overweight);
    }
    let records = block::records(block);
    Ok(links::write_links(records, &parents, giver, MOST_LINKS, buf))
}

// The chain call past the refusals by what was passed: those by what the register holds, then the chain.
pub fn write_held(
    block: &[u8],
    table: &[i16],
    giver: u32,
    receiver: u32,
    buf: &mut [u8],
) -> Result<usize, Refusal>
    requires { Checked block.now (ask_reach giver receiver) × TableRule table.now × (chain_size ≤ length buf.old) }
    ensures { ChainLeft table.now (decode block.now) giver receiver (weight_at (decode block.now).delegations giver receiver) (first_of (chain_held table.now (decode block.now) giver receiver)) buf.old (chain_answer result) buf.new }
{
    pair_held(block, giver, receiver)?;
    let n = block::count(block);
    let k = block::find(block, n, giver as u8, receiver as u8);
    if k >= n {
        return Err(Refusal::NoPair);
    }
    let weight = block::weight(block, k);
    write_carrying(block, table, giver as usize, receiver as usize, weight, buf)
}

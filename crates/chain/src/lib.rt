// Document 01's call chain: a chain that carries the weight of a standing delegation, written into a lent buffer; by document 01's own step table, or by one that the host lends as text.
#![tactic(auto)]

mod held;
mod links;

ghost use Rattle.std.specs.Prelude.{◌≡◌, [], IfOk};
ghost use Rattle.std.specs.Option.{unwrap_or, option_copied_mut};
ghost use Rattle.std.specs.Result.{result_ok};
ghost use Rattle.rules.specs.Refused.{refused_with};
ghost use Rattle.steptable.specs.TableText.{ours, given};
ghost use Rattle.steptable.specs.Lent.{given_by, KeepsRule};
ghost use Rattle.chain.specs.Answer.{chain_answer};
ghost use Rattle.chain.specs.ChainOn.{chain_refusal_on, ChainMade, ChainFront};

use refusals::{early, pair_passed};
use rules::Refusal;
use steptable::{Table, read_table};

// The bytes of a link.
const LINK_SIZE: usize = 2;

// The least length of the lent buffer: room for the most links.
const CHAIN_SIZE: usize = LINK_SIZE * held::MOST_LINKS;

// The chain call by a lent step table that keeps the rule, or its fault; how many links.
fn write_chain_by(
    block: &[u8],
    table: &Table,
    giver: u32,
    receiver: u32,
    buf: &mut [u8],
) -> Result<usize, Refusal>
    requires { KeepsRule table.now }
    ensures { ChainMade (given_by table.now) block.now giver receiver buf.old (chain_answer result) buf.new }
{
    if buf.len() < CHAIN_SIZE {
        return Err(Refusal::WrongLength);
    }
    let steps = early(block, pair_passed(giver, receiver), table)?;
    held::write_held(block, steps, giver, receiver, buf)
}

// Writes a chain that carries the weight of a standing delegation into `buf`; how many links.
pub fn write_chain(
    block: &[u8],
    giver: u32,
    receiver: u32,
    buf: &mut [u8],
) -> Result<usize, Refusal>
    ensures { ChainMade ours block.now giver receiver buf.old (chain_answer result) buf.new }
{
    write_chain_by(block, &Ok(rules::steps()), giver, receiver, buf)
}

// By the step table of a text, ours where it is empty.
pub fn write_chain_table(
    block: &[u8],
    giver: u32,
    receiver: u32,
    table: &[u8],
    buf: &mut [u8],
) -> Result<usize, Refusal>
    ensures { ChainMade (given table.now) block.now giver receiver buf.old (chain_answer result) buf.new }
{
    write_chain_by(block, &read_table(table), giver, receiver, buf)
}

// The same two: hand back the filled front of `buf`, nothing where refused.
pub fn chain<'a>(
    block: &[u8],
    giver: u32,
    receiver: u32,
    buf: &'a mut [u8],
) -> Result<&'a mut [u8], Refusal>
    ensures refusal { refused_with result ≡ chain_refusal_on ours block.now giver receiver buf.old }
    ensures front { IfOk result (λ part. ChainFront ours block.now giver receiver buf.old 0 part.now × (part.ref_ptr ≡ buf.entry.ref_ptr)) }
    ensures outcome { ChainFront ours block.now giver receiver buf.old (refused_with result) (unwrap_or (option_copied_mut (result_ok result)) []) }
{
    let links = write_chain(block, giver, receiver, buf)?;
    Ok(&mut buf[..LINK_SIZE * links])
}

pub fn chain_table<'a>(
    block: &[u8],
    giver: u32,
    receiver: u32,
    table: &[u8],
    buf: &'a mut [u8],
) -> Result<&'a mut [u8], Refusal>
    ensures refusal { refused_with result ≡ chain_refusal_on (given table.now) block.now giver receiver buf.old }
    ensures front { IfOk result (λ part. ChainFront (given table.now) block.now giver receiver buf.old 0 part.now × (part.ref_ptr ≡ buf.entry.ref_ptr)) }
    ensures outcome { ChainFront (given table.now) block.now giver receiver buf.old (refused_with result) (unwrap_or (option_copied_mut (result_ok result)) []) }
{
    let links = write_chain_table(block, giver, receiver, table, buf)?;
    Ok(&mut buf[..LINK_SIZE * links])
}

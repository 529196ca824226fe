// Document 02's order call: from whom a right can come to a receiver, heaviest first, written into a lent buffer; by document 01's own step table, or by one that the host lends as text.
#![tactic(auto)]

ghost use Rattle.std.specs.Prelude.{◌≡◌, [], ◌++◌, ◌*◌, length, take, drop, IfOk};
ghost use Rattle.std.specs.Option.{unwrap_or, option_copied_mut};
ghost use Rattle.std.specs.Result.{result_ok};
ghost use Rattle.rules.specs.Table.{TableRule};
ghost use Rattle.rules.specs.Refused.{refused_with};
ghost use Rattle.block.specs.Block.{decode};
ghost use Rattle.refusals.specs.Checked.{Receives};
ghost use Rattle.steptable.specs.TableText.{given};
ghost use Rattle.order.specs.Items.{item_size, order_size, item_bytes, ItemsHeld};
ghost use Rattle.order.specs.Listed.{listed_of};
ghost use Rattle.order.specs.OrderOn.{order_refusal_on, OrderWritten, OrderMade, OrderFront};

use block::layout;
use rules::Refusal;

// The bytes of a subject and its limit.
pub const ITEM_SIZE: usize = 2;

// The length of the lent buffer: room for all subjects.
pub const ORDER_SIZE: usize = ITEM_SIZE * layout::SUBJECTS;

// The first `count` subjects of a list, each with its limit, two bytes a subject.
fn write_items(limits: &[i16], order: &[u8], count: usize, buf: &mut [u8])
    requires { ItemsHeld limits.now order.now count buf.old }
    ensures { buf.new ≡ item_bytes limits.now (take count order.now) ++ drop (item_size * count) buf.old }
{
    for i in 0..count {
        let subject = order[i];
        let limit = limits[subject as usize];
        buf[ITEM_SIZE * i] = subject;
        buf[ITEM_SIZE * i + 1] = limit as u8;
    }
}

// The order for an enrolled receiver, by a lent step table; how many subjects.
fn write_found(block: &[u8], table: &[i16], receiver: usize, buf: &mut [u8]) -> usize
    requires { Receives block.now receiver × TableRule table.now × (length buf.old ≡ order_size) }
    ensures { OrderWritten table.now (decode block.now) receiver buf.old result buf.new }
{
    let mut limits = [-1i16; layout::SUBJECTS];
    let mut order = [0u8; layout::SUBJECTS];
    let count = search::order_of(block, table, receiver, &mut limits, &mut order);
    write_items(&limits, &order, count, buf);
    count
}

// Writes the order for a receiver into `buf`, by the step table of a text, ours where it is empty; how many subjects.
pub fn write_order(
    block: &[u8],
    receiver: u32,
    table: &[u8],
    buf: &mut [u8],
) -> Result<usize, Refusal>
    ensures { OrderMade (given table.now) block.now receiver buf.old (listed_of result) buf.new }
{
    if buf.len() != ORDER_SIZE {
        return Err(Refusal::WrongLength);
    }
    let table = steptable::read_table(table);
    let steps = refusals::order_allowed(block, &table, receiver)?;
    Ok(write_found(block, steps, receiver as usize, buf))
}

// The same: hands back the filled front of `buf`, nothing where refused.
pub fn order<'a>(
    block: &[u8],
    receiver: u32,
    table: &[u8],
    buf: &'a mut [u8],
) -> Result<&'a mut [u8], Refusal>
    ensures refusal { refused_with result ≡ order_refusal_on (given table.now) block.now receiver buf.old }
    ensures front { IfOk result (λ part. OrderFront (given table.now) block.now receiver buf.old 0 part.now × (part.ref_ptr ≡ buf.entry.ref_ptr)) }
    ensures outcome { OrderFront (given table.now) block.now receiver buf.old (refused_with result) (unwrap_or (option_copied_mut (result_ok result)) []) }
{
    let subjects = write_order(block, receiver, table, buf)?;
    Ok(&mut buf[..ITEM_SIZE * subjects])
}

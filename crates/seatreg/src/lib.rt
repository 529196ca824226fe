// The C entry points of the register: the calls on plain numbers, a lent block and twelve lent bytes for the answers, both of any length and content; those that reckon reach also with the text of a step table; the order for a receiver; the register as a file, out and in; a block of the layout before, brought over; cuts that write a slip, and a slip handed in.
#![tactic(auto)]

mod answers;

ghost use Rattle.rules.specs.Register.{granted};
ghost use Rattle.rules.specs.Cut.{removal, lowering};
ghost use Rattle.rules.specs.Call.{enrol, grant, revoke, downgrade, ask_reach, ask_use, set_marks, retire};
ghost use Rattle.steptable.specs.TableText.{ours, given};
ghost use Rattle.seatreg.specs.Entry.{EntryMade, EntryOpened, EntryCutMade, EntryBroughtOver, EntryReadMade, EntryWriteMade, EntryOrderMade, EntrySlipMade, EntryTakeBackMade};

use rules::Refusal;

// Writes a fresh register: one subject, no delegation.
#[unsafe(no_mangle)]
pub extern "C" fn seatreg_open(block: &mut [u8], answers: &mut [u8]) -> u32
    ensures { EntryOpened block.old answers.old result block.new answers.new }
{
    if answers.len() != answers::ANSWERS_SIZE {
        return Refusal::WrongLength as u32;
    }
    let o = register::open(block);
    answers::hand_out(o, answers)
}

// Takes a block of the layout before, of 2,180 bytes, over into one of the present layout.
#[unsafe(no_mangle)]
pub extern "C" fn seatreg_bring_over(old: &[u8], block: &mut [u8], answers: &mut [u8]) -> u32
    ensures { EntryBroughtOver old.now block.old answers.old result block.new answers.new }
{
    if answers.len() != answers::ANSWERS_SIZE {
        return Refusal::WrongLength as u32;
    }
    let o = register::bring_over(old, block);
    answers::hand_out(o, answers)
}

// Enrols a subject; answers its number.
#[unsafe(no_mangle)]
pub extern "C" fn seatreg_enrol(block: &mut [u8], marks: u32, answers: &mut [u8]) -> u32
    ensures { EntryMade ours (enrol marks) block.old answers.old result block.new answers.new }
{
    if answers.len() != answers::ANSWERS_SIZE {
        return Refusal::WrongLength as u32;
    }
    let o = register::enrol(block, marks);
    answers::hand_out(o, answers)
}

// Adds an ordinary delegation; answers the delegations now standing.
#[unsafe(no_mangle)]
pub extern "C" fn seatreg_grant(
    block: &mut [u8],
    giver: u32,
    receiver: u32,
    weight: u32,
    need: u32,
    bar: u32,
    answers: &mut [u8],
) -> u32
    ensures { EntryMade ours (grant (granted giver receiver weight need bar 0)) block.old answers.old result block.new answers.new }
{
    if answers.len() != answers::ANSWERS_SIZE {
        return Refusal::WrongLength as u32;
    }
    let o = register::grant(block, giver, receiver, weight, need, bar);
    answers::hand_out(o, answers)
}

// Removes a delegation, then lowers or removes what it no longer supports; answers dropped, lowered and rounds.
#[unsafe(no_mangle)]
pub extern "C" fn seatreg_revoke(
    block: &mut [u8],
    by: u32,
    giver: u32,
    receiver: u32,
    answers: &mut [u8],
) -> u32
    ensures { EntryCutMade ours (revoke by giver receiver) block.old answers.old result block.new answers.new }
{
    if answers.len() != answers::ANSWERS_SIZE {
        return Refusal::WrongLength as u32;
    }
    let o = register::revoke(block, by, giver, receiver);
    answers::hand_out(o, answers)
}

// Sets a delegation to a smaller weight, then as revoke.
#[unsafe(no_mangle)]
pub extern "C" fn seatreg_downgrade(
    block: &mut [u8],
    by: u32,
    giver: u32,
    receiver: u32,
    weight: u32,
    answers: &mut [u8],
) -> u32
    ensures { EntryCutMade ours (downgrade by giver receiver weight) block.old answers.old result block.new answers.new }
{
    if answers.len() != answers::ANSWERS_SIZE {
        return Refusal::WrongLength as u32;
    }
    let o = register::downgrade(block, by, giver, receiver, weight);
    answers::hand_out(o, answers)
}

// Reach of a pair: -1 to 255, also for a standing pair.
#[unsafe(no_mangle)]
pub extern "C" fn seatreg_reach(block: &[u8], giver: u32, receiver: u32, answers: &mut [u8]) -> u32
    ensures { EntryMade ours (ask_reach giver receiver) block.now answers.old result block.now answers.new }
{
    if answers.len() != answers::ANSWERS_SIZE {
        return Refusal::WrongLength as u32;
    }
    let o = register::reach(block, giver, receiver);
    answers::hand_out(o, answers)
}

// 1 if the receiver is the owner or some delegation to it stands, else 0.
#[unsafe(no_mangle)]
pub extern "C" fn seatreg_use(block: &[u8], receiver: u32, answers: &mut [u8]) -> u32
    ensures { EntryMade ours (ask_use receiver) block.now answers.old result block.now answers.new }
{
    if answers.len() != answers::ANSWERS_SIZE {
        return Refusal::WrongLength as u32;
    }
    let o = register::use_right(block, receiver);
    answers::hand_out(o, answers)
}

// Grant by the step table of a text, ours where it is empty.
#[unsafe(no_mangle)]
pub extern "C" fn seatreg_grant_table(
    block: &mut [u8],
    giver: u32,
    receiver: u32,
    weight: u32,
    need: u32,
    bar: u32,
    table: &[u8],
    answers: &mut [u8],
) -> u32
    ensures { EntryMade (given table.now) (grant (granted giver receiver weight need bar 0)) block.old answers.old result block.new answers.new }
{
    if answers.len() != answers::ANSWERS_SIZE {
        return Refusal::WrongLength as u32;
    }
    let o = register::grant_table(block, giver, receiver, weight, need, bar, table);
    answers::hand_out(o, answers)
}

// Adds a delegation of a kind, by such a table.
#[unsafe(no_mangle)]
pub extern "C" fn seatreg_grant_kind(
    block: &mut [u8],
    giver: u32,
    receiver: u32,
    weight: u32,
    need: u32,
    bar: u32,
    kind: u32,
    table: &[u8],
    answers: &mut [u8],
) -> u32
    ensures { EntryMade (given table.now) (grant (granted giver receiver weight need bar kind)) block.old answers.old result block.new answers.new }
{
    if answers.len() != answers::ANSWERS_SIZE {
        return Refusal::WrongLength as u32;
    }
    let o = register::grant_kind(block, giver, receiver, weight, need, bar, kind, table);
    answers::hand_out(o, answers)
}

// Reach by such a table.
#[unsafe(no_mangle)]
pub extern "C" fn seatreg_reach_table(
    block: &[u8],
    giver: u32,
    receiver: u32,
    table: &[u8],
    answers: &mut [u8],
) -> u32
    ensures { EntryMade (given table.now) (ask_reach giver receiver) block.now answers.old result block.now answers.new }
{
    if answers.len() != answers::ANSWERS_SIZE {
        return Refusal::WrongLength as u32;
    }
    let o = register::reach_table(block, giver, receiver, table);
    answers::hand_out(o, answers)
}

// Revoke by such a table.
#[unsafe(no_mangle)]
pub extern "C" fn seatreg_revoke_table(
    block: &mut [u8],
    by: u32,
    giver: u32,
    receiver: u32,
    table: &[u8],
    answers: &mut [u8],
) -> u32
    ensures { EntryCutMade (given table.now) (revoke by giver receiver) block.old answers.old result block.new answers.new }
{
    if answers.len() != answers::ANSWERS_SIZE {
        return Refusal::WrongLength as u32;
    }
    let o = register::revoke_table(block, by, giver, receiver, table);
    answers::hand_out(o, answers)
}

// Downgrade by such a table.
#[unsafe(no_mangle)]
pub extern "C" fn seatreg_downgrade_table(
    block: &mut [u8],
    by: u32,
    giver: u32,
    receiver: u32,
    weight: u32,
    table: &[u8],
    answers: &mut [u8],
) -> u32
    ensures { EntryCutMade (given table.now) (downgrade by giver receiver weight) block.old answers.old result block.new answers.new }
{
    if answers.len() != answers::ANSWERS_SIZE {
        return Refusal::WrongLength as u32;
    }
    let o = register::downgrade_table(block, by, giver, receiver, weight, table);
    answers::hand_out(o, answers)
}

// Sets all marks of an enrolled subject, then as revoke by such a table, chains judged by the new marks.
#[unsafe(no_mangle)]
pub extern "C" fn seatreg_set_marks(
    block: &mut [u8],
    by: u32,
    subject: u32,
    marks: u32,
    table: &[u8],
    answers: &mut [u8],
) -> u32
    ensures { EntryCutMade (given table.now) (set_marks by subject marks) block.old answers.old result block.new answers.new }
{
    if answers.len() != answers::ANSWERS_SIZE {
        return Refusal::WrongLength as u32;
    }
    let o = register::set_marks(block, by, subject, marks, table);
    answers::hand_out(o, answers)
}

// Retires an enrolled subject: all delegations to and from it are removed, its marks cleared, its bit set; then as revoke by such a table.
#[unsafe(no_mangle)]
pub extern "C" fn seatreg_retire(
    block: &mut [u8],
    by: u32,
    subject: u32,
    table: &[u8],
    answers: &mut [u8],
) -> u32
    ensures { EntryCutMade (given table.now) (retire by subject) block.old answers.old result block.new answers.new }
{
    if answers.len() != answers::ANSWERS_SIZE {
        return Refusal::WrongLength as u32;
    }
    let o = register::retire(block, by, subject, table);
    answers::hand_out(o, answers)
}

// Writes from whom a right can come to a receiver, and how far, heaviest first, into a lent buffer, by the step table of a text; answers how many bytes.
#[unsafe(no_mangle)]
pub extern "C" fn seatreg_order(
    block: &[u8],
    receiver: u32,
    table: &[u8],
    out: &mut [u8],
    answers: &mut [u8],
) -> u32
    ensures { EntryOrderMade (given table.now) block.now receiver out.old answers.old result out.new answers.new }
{
    if answers.len() != answers::ANSWERS_SIZE {
        return Refusal::WrongLength as u32;
    }
    let o = order::write_order(block, receiver, table, out);
    answers::hand_out_length(o, order::ITEM_SIZE, answers)
}

// Writes the register as text into a lent buffer; answers how many bytes.
#[unsafe(no_mangle)]
pub extern "C" fn seatreg_write(block: &[u8], text: &mut [u8], answers: &mut [u8]) -> u32
    ensures { EntryWriteMade block.now text.old answers.old result text.new answers.new }
{
    if answers.len() != answers::ANSWERS_SIZE {
        return Refusal::WrongLength as u32;
    }
    let o = transfer::write_file(block, text);
    answers::hand_out_length(o, 1, answers)
}

// Reads the register of a text into a block of any content, by the step table of a text, ours where it is empty.
#[unsafe(no_mangle)]
pub extern "C" fn seatreg_read(
    block: &mut [u8],
    text: &[u8],
    table: &[u8],
    answers: &mut [u8],
) -> u32
    ensures { EntryReadMade text.now table.now block.old answers.old result block.new answers.new }
{
    if answers.len() != answers::ANSWERS_SIZE {
        return Refusal::WrongLength as u32;
    }
    let o = transfer::read_file(block, text, table);
    answers::hand_out(o, answers)
}

// Revokes by the step table of a text; where accepted, writes the slip by which the cut can be taken back.
#[unsafe(no_mangle)]
pub extern "C" fn seatreg_revoke_slip(
    block: &mut [u8],
    by: u32,
    giver: u32,
    receiver: u32,
    table: &[u8],
    slip: &mut [u8],
    answers: &mut [u8],
) -> u32
    ensures { EntrySlipMade (given table.now) by (removal giver receiver) block.old slip.old answers.old result block.new slip.new answers.new }
{
    if answers.len() != answers::ANSWERS_SIZE {
        return Refusal::WrongLength as u32;
    }
    let o = slips::revoke_slip(block, by, giver, receiver, table, slip);
    answers::hand_out(o, answers)
}

// Downgrades so.
#[unsafe(no_mangle)]
pub extern "C" fn seatreg_downgrade_slip(
    block: &mut [u8],
    by: u32,
    giver: u32,
    receiver: u32,
    weight: u32,
    table: &[u8],
    slip: &mut [u8],
    answers: &mut [u8],
) -> u32
    ensures { EntrySlipMade (given table.now) by (lowering giver receiver weight) block.old slip.old answers.old result block.new slip.new answers.new }
{
    if answers.len() != answers::ANSWERS_SIZE {
        return Refusal::WrongLength as u32;
    }
    let o = slips::downgrade_slip(block, by, giver, receiver, weight, table, slip);
    answers::hand_out(o, answers)
}

// Takes the cut of a slip back: puts the block before it in place, byte for byte.
#[unsafe(no_mangle)]
pub extern "C" fn seatreg_take_back(
    block: &mut [u8],
    by: u32,
    table: &[u8],
    slip: &[u8],
    answers: &mut [u8],
) -> u32
    ensures { EntryTakeBackMade (given table.now) by slip.now block.old answers.old result block.new answers.new }
{
    if answers.len() != answers::ANSWERS_SIZE {
        return Refusal::WrongLength as u32;
    }
    let o = slips::take_back(block, by, table, slip);
    answers::hand_out(o, answers)
}

// Rounds on a well-formed block: what is not supported is lowered or removed, until a round changes nothing.
#![tactic(auto)]

mod counted;

ghost use Rattle.std.specs.Prelude.{◌≡◌, true, not, length};
ghost use Rattle.rules.specs.Table.{TableRule};
ghost use Rattle.block.specs.Layout.{most_records};
ghost use Rattle.block.specs.Block.{count_in, decode};
ghost use Rattle.block.specs.WellFormed.{well_formed};
ghost use Rattle.queue.specs.Queue.{Empty};
ghost use Rattle.runs.specs.Steps.{start_count};
ghost use Rattle.search.specs.Found.{Searchable};
ghost use Rattle.reckoning.specs.Reckoned.{IndexOf, TablesLent};
ghost use Rattle.rounds.specs.Rounded.{RoundMade};
ghost use Rattle.rounds.specs.Settled.{RoundsMade, SettledMade, SupportTold};

use block::layout;
use reckoning::Index;

// How many delegations were dropped, and how many were lowered but kept.
#[derive(Drop)]
pub struct Changes {
    pub dropped: u32,
    pub lowered: u32,
}

// What the rounds of a cut come to: dropped, lowered but kept, and how many rounds.
#[derive(Drop)]
pub struct Tally {
    pub dropped: u32,
    pub lowered: u32,
    pub rounds: u32,
}

// One round; whether it changed something. What the lent tables held before is not read; the queue is lent empty and left empty.
fn round(
    block: &mut [u8],
    starts: &[u16],
    table: &[i16],
    index: Index,
    reaches: &mut [i16],
    waiting: &mut [u64],
    weights: &mut [i16],
) -> bool
    requires { Searchable table.now block.old × IndexOf block.old index starts.now × TablesLent reaches.old waiting.old × (length weights.old ≡ most_records) }
    ensures { RoundMade table.now (decode block.old) result block.new × Empty waiting.new }
{
    if !reckoning::reckon(block, starts, table, index, reaches, waiting, weights) {
        return false;
    }
    change::write_left(block, weights);
    true
}

// The index of the block after a round, from the one before it: taken anew if the round removed a delegation.
fn renewed(block: &[u8], starts: &mut [u16], index: Index) -> Index
    requires { (well_formed block.now ≡ true) × (length starts.old ≡ start_count) × (count_in block.now ≡ index.count → IndexOf block.now index starts.old) }
    ensures { IndexOf block.now result starts.new }
{
    if block::count(block) == index.count {
        return index;
    }
    reckoning::index_of(block, starts)
}

// Rounds until one changes nothing, or, where `once` is set, until the first has changed something; how many changed something.
// `once` stays a test in the loop: two functions would lay out the same index and tables.
fn make_rounds(block: &mut [u8], table: &[i16], once: bool) -> u32
    requires { (well_formed block.old ≡ true) × TableRule table.now }
    ensures { RoundsMade table.now (decode block.old) once result block.new }
{
    let mut starts = [0u16; runs::STARTS];
    let mut index = reckoning::index_of(block, &mut starts);
    let mut reaches = [0i16; reckoning::REACHES];
    let mut waiting = [0u64; queue::GROUPS];
    let mut weights = [0i16; layout::MOST_RECORDS];
    let mut changed = 0;
    while round(
        block,
        &starts,
        table,
        index,
        &mut reaches,
        &mut waiting,
        &mut weights,
    ) {
        index = renewed(block, &mut starts, index);
        changed += 1;
        if once {
            return changed;
        }
    }
    changed
}

// Rounds until one changes nothing, which counts.
pub fn settled(block: &mut [u8], table: &[i16]) -> Tally
    requires { (well_formed block.old ≡ true) × TableRule table.now }
    ensures { SettledMade table.now (decode block.old) result block.new }
{
    let mut before = [0u8; layout::BLOCK_SIZE];
    before.copy_from_slice(block);
    let changed = make_rounds(block, table, false);
    let Changes { dropped, lowered } = counted::counts(&before, block);
    Tally {
        dropped,
        lowered,
        rounds: changed + 1,
    }
}

// Every delegation is supported: a round changes nothing. Where one is not, the block is left as one round leaves it.
pub fn supports(block: &mut [u8], table: &[i16]) -> bool
    requires { (well_formed block.old ≡ true) × TableRule table.now }
    ensures { SupportTold table.now block.old result block.new }
{
    make_rounds(block, table, true) == 0
}

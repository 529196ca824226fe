// The reckoning of a round on a well-formed block: the weights that it leaves.
#![tactic(auto)]

mod indexed;
mod lower;
mod reaches;

ghost use Rattle.std.specs.Prelude.{◌≡◌, length};
ghost use Rattle.block.specs.Layout.{most_records};
ghost use Rattle.queue.specs.Queue.{Empty};
ghost use Rattle.search.specs.Found.{Searchable};
ghost use Rattle.reckoning.specs.Reckoned.{IndexOf, TablesLent, Reckoned};

pub use indexed::index_of;
pub use reaches::REACHES;

// A decoded delegation; a round lowers the weight of one that it removes to -1.
#[derive(Clone, Copy, Default)]
struct Delegation {
    giver: u8,
    receiver: u8,
    weight: i16,
    need: u16,
    bar: u16,
}

// How many delegations stand, the set of their receivers, and the marks that some condition names.
#[derive(Clone, Copy)]
pub struct Index {
    pub count: usize,
    pub receivers: u64,
    pub named: u16,
}

// The weights that a round leaves, all together, every reach from the block as the round began; whether one changed.
// What the table of reaches held before is not read; the queue is lent empty and left empty.
pub fn reckon(
    block: &[u8],
    starts: &[u16],
    table: &[i16],
    index: Index,
    reaches: &mut [i16],
    waiting: &mut [u64],
    weights: &mut [i16],
) -> bool
    requires { Searchable table.now block.now × IndexOf block.now index starts.now × TablesLent reaches.old waiting.old × (length weights.old ≡ most_records) }
    ensures { Reckoned table.now block.now result weights.new × Empty waiting.new }
{
    reaches::fill_reaches(block, starts, table, index, reaches, waiting);
    lower::lower_all(block, reaches, index.count, weights)
}

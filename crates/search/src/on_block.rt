// The search on a well-formed block: the reaches of the register that it holds.
ghost use Rattle.std.specs.Prelude.{◌≡◌, true, ◌<◌, length};
ghost use Rattle.rules.specs.Register.{marks_of};
ghost use Rattle.rules.specs.Reach.{reach};
ghost use Rattle.block.specs.Block.{subjects_in, records_in, decode};
ghost use Rattle.block.specs.WellFormed.{well_formed};
ghost use Rattle.queue.specs.Queue.{Empty};
ghost use Rattle.runs.specs.Lent.{SubjectLists};
ghost use Rattle.runs.specs.Steps.{start_count, Starts};
ghost use Rattle.search.specs.Found.{Searchable, Prepared, SearchLent, OrderLent, ItemsLent, Searched, SearchMade, OrderFound};

use crate::search;
use block::layout;

// Where the run of each giver starts.
pub fn starts_of(block: &[u8], starts: &mut [u16])
    requires { (well_formed block.now ≡ true) × (length starts.old ≡ start_count) }
    ensures { Starts (records_in block.now) starts.new }
{
    runs::fill_starts(block::records(block), starts);
}

// The reach of every subject for a receiver, the parents by which each is reached, and the subjects that have a reach in the order in
// which they are settled, by a lent queue; how many these are.
fn search_by(
    block: &[u8],
    starts: &[u16],
    table: &[i16],
    receiver: usize,
    limits: &mut [i16],
    parents: &mut [u16],
    waiting: &mut [u64],
    order: &mut [u8],
) -> usize
    requires { Prepared table.now block.now starts.now × (receiver < subjects_in block.now) × OrderLent limits.old parents.old waiting.old order.old }
    ensures { SearchMade table.now (records_in block.now) (marks_of (decode block.now) receiver) limits.new parents.new waiting.new order.new result }
{
    let marks = block::marks(block, receiver);
    search(
        block::records(block),
        starts,
        table,
        marks,
        limits,
        parents,
        waiting,
        order,
    )
}

// The limits and the parents.
pub fn limits_by(
    block: &[u8],
    starts: &[u16],
    table: &[i16],
    receiver: usize,
    limits: &mut [i16],
    parents: &mut [u16],
    waiting: &mut [u64],
)
    requires { Prepared table.now block.now starts.now × (receiver < subjects_in block.now) × SearchLent limits.old parents.old waiting.old }
    ensures { Searched table.now (records_in block.now) (marks_of (decode block.now) receiver) limits.new parents.new × Empty waiting.new }
{
    let mut order = [0u8; layout::SUBJECTS];
    search_by(
        block, starts, table, receiver, limits, parents, waiting, &mut order,
    );
}

// The same, by a queue of its own.
pub fn limits_for(
    block: &[u8],
    starts: &[u16],
    table: &[i16],
    receiver: usize,
    limits: &mut [i16],
    parents: &mut [u16],
)
    requires { Prepared table.now block.now starts.now × (receiver < subjects_in block.now) × SubjectLists limits.old parents.old }
    ensures { Searched table.now (records_in block.now) (marks_of (decode block.now) receiver) limits.new parents.new }
{
    let mut waiting = [0u64; queue::GROUPS];
    limits_by(
        block,
        starts,
        table,
        receiver,
        limits,
        parents,
        &mut waiting,
    );
}

// The reach of one pair.
pub fn reach_of(block: &[u8], table: &[i16], giver: usize, receiver: usize) -> i16
    requires { Searchable table.now block.now × (giver < subjects_in block.now) × (receiver < subjects_in block.now) }
    ensures { result ≡ reach table.now (decode block.now) giver receiver }
{
    let mut starts = [0u16; runs::STARTS];
    starts_of(block, &mut starts);
    let mut limits = [-1i16; layout::SUBJECTS];
    let mut parents = [0u16; layout::SUBJECTS];
    limits_for(block, &starts, table, receiver, &mut limits, &mut parents);
    limits[giver]
}

// The reach of every subject for a receiver, and the subjects that have one in the order in which they are settled; how many these are.
pub fn order_of(
    block: &[u8],
    table: &[i16],
    receiver: usize,
    limits: &mut [i16],
    order: &mut [u8],
) -> usize
    requires { Searchable table.now block.now × (receiver < subjects_in block.now) × ItemsLent limits.old order.old }
    ensures { OrderFound table.now (decode block.now) receiver limits.new order.new result }
{
    let mut starts = [0u16; runs::STARTS];
    starts_of(block, &mut starts);
    let mut parents = [0u16; layout::SUBJECTS];
    let mut waiting = [0u64; queue::GROUPS];
    search_by(
        block,
        &starts,
        table,
        receiver,
        limits,
        &mut parents,
        &mut waiting,
        order,
    )
}

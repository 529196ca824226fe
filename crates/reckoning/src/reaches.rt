// The table of reaches, by receiver and giver.
ghost use Rattle.std.specs.Prelude.{◌≡◌, ◌*◌, ◌<◌, length};
ghost use Rattle.block.specs.Layout.{most_subjects};
ghost use Rattle.block.specs.Block.{subjects_in, decode};
ghost use Rattle.queue.specs.Queue.{Empty};
ghost use Rattle.search.specs.Found.{Searchable, Prepared};
ghost use Rattle.reckoning.specs.Reckoned.{reach_count, IndexOf, TablesLent, RowAsked, Tabled, PlacesCopied, RowMade};

use crate::Index;
use block::layout;

// A reach for each giver and receiver.
pub const REACHES: usize = layout::SUBJECTS * layout::SUBJECTS;

// The row of one receiver, by a search.
fn search_row(
    block: &[u8],
    starts: &[u16],
    table: &[i16],
    receiver: usize,
    reaches: &mut [i16],
    waiting: &mut [u64],
)
    requires { Prepared table.now block.now starts.now × (receiver < subjects_in block.now) × TablesLent reaches.old waiting.old }
    ensures { RowMade table.now (decode block.now) receiver reaches.old reaches.new × Empty waiting.new }
{
    let mut parents = [0u16; layout::SUBJECTS];
    let at = layout::SUBJECTS * receiver;
    search::limits_by(
        block,
        starts,
        table,
        receiver,
        &mut reaches[at..at + layout::SUBJECTS],
        &mut parents,
        waiting,
    );
}

// Row `from` of the table into row `to`.
fn copy_row(reaches: &mut [i16], from: usize, to: usize)
    requires { (from < to) × (to < most_subjects) × (length reaches.old ≡ reach_count) }
    ensures { PlacesCopied (most_subjects * from) (most_subjects * to) most_subjects reaches.old reaches.new }
{
    let at = layout::SUBJECTS * from;
    reaches.copy_within(at..at + layout::SUBJECTS, layout::SUBJECTS * to);
}

// The row of one receiver: a copy of the row of the last one before it whose marks agree with its own on all that are named, as a reach looks at nothing else of its receiver; by a search if there is none.
fn fill_row(
    block: &[u8],
    starts: &[u16],
    table: &[i16],
    named: u16,
    set: u64,
    receiver: usize,
    reaches: &mut [i16],
    waiting: &mut [u64],
)
    requires { RowAsked table.now block.now starts.now named set receiver reaches.old waiting.old }
    ensures { RowMade table.now (decode block.now) receiver reaches.old reaches.new × Empty waiting.new }
{
    let marks = block::marks(block, receiver) & named;
    // `for` and not `find`: the proof of what `find` asks of its closure did not close.
    for other in (0..receiver).rev() {
        if (set >> other) % 2 == 1 && (block::marks(block, other) & named) == marks {
            copy_row(reaches, other, receiver);
            return;
        }
    }
    search_row(block, starts, table, receiver, reaches, waiting);
}

// The rows of all receivers that hold a delegation: one search for those whose marks agree on all that are named.
pub fn fill_reaches(
    block: &[u8],
    starts: &[u16],
    table: &[i16],
    index: Index,
    reaches: &mut [i16],
    waiting: &mut [u64],
)
    requires { Searchable table.now block.now × IndexOf block.now index starts.now × TablesLent reaches.old waiting.old }
    ensures { Tabled table.now (decode block.now) reaches.new × Empty waiting.new }
{
    let n = usize::from(block::subjects(block));
    let set = index.receivers;
    let named = index.named;
    for receiver in queue::Members(set) {
        if receiver < n {
            fill_row(block, starts, table, named, set, receiver, reaches, waiting);
        }
    }
}

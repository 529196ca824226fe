// What the rounds on a block need and only a removal changes.
ghost use Rattle.std.specs.Prelude.{◌≡◌, true, ℕ, ◌<◌, length};
ghost use Rattle.block.specs.WellFormed.{well_formed};
ghost use Rattle.block.specs.Records.{HasRecords, delegation_at};
ghost use Rattle.queue.specs.Queue.{set_bits};
ghost use Rattle.runs.specs.Steps.{start_count};
ghost use Rattle.reckoning.specs.Reckoned.{HasReceivers, FirstNamed, IndexOf};

use crate::Index;

// The receivers of the first `n` delegations, in the bits of a number.
fn receivers(block: &[u8], n: usize) -> u64
    requires { HasRecords block.now n × ((k : ℕ) → k < n → (delegation_at block.now k).receiver < set_bits) }
    ensures { HasReceivers (delegation_at block.now) n result }
{
    let mut set = 0;
    for k in 0..n {
        let receiver = usize::from(block::receiver(block, k));
        set = queue::with(set, receiver);
    }
    set
}

// The marks that some condition of the first `n` delegations names.
fn named_marks(block: &[u8], n: usize) -> u16
    requires { HasRecords block.now n }
    ensures { FirstNamed (delegation_at block.now) n result }
{
    let mut named = 0;
    for k in 0..n {
        named |= block::need(block, k) | block::bar(block, k);
    }
    named
}

// The index of a block, and where the run of each giver starts.
pub fn index_of(block: &[u8], starts: &mut [u16]) -> Index
    requires { (well_formed block.now ≡ true) × (length starts.old ≡ start_count) }
    ensures { IndexOf block.now result starts.new }
{
    search::starts_of(block, starts);
    let n = block::count(block);
    Index {
        count: n,
        receivers: receivers(block, n),
        named: named_marks(block, n),
    }
}

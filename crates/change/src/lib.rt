// Changes of a block, each as the change of the register that it holds.
#![tactic(auto)]

mod left;
mod record;
mod retiring;
mod write;

ghost use Rattle.std.specs.Prelude.{◌≡◌, true, false, [], ◌∷◌, ◌++◌, ◌^◌, ◌<◌, length};
ghost use Rattle.std.specs.Int.Bits.{bit_or};
ghost use Rattle.rules.specs.Register.{with_delegations, with_retired, granted};
ghost use Rattle.rules.specs.Pair.{stands, reweighed};
ghost use Rattle.rules.specs.Cut.{removal, named, marking, changed};
ghost use Rattle.rules.specs.Call.{fresh, enrolled};
ghost use Rattle.rules.specs.CallStep.{insert, after_grant};
ghost use Rattle.block.specs.Layout.{block_size, most_subjects, most_records};
ghost use Rattle.block.specs.Block.{subjects_in, count_in, decode, encode};
ghost use Rattle.block.specs.WellFormed.{well_formed};
ghost use Rattle.block.specs.Fits.{Fitting, empty};
ghost use Rattle.block.specs.Older.{old_size, brought};
ghost use Rattle.change.specs.Place.{IsPlace};
ghost use Rattle.change.specs.Record.{delegation_of};

use block::layout::{COUNT_AT, RECORD_SIZE, RECORDS_AT, RETIRED_AT, WEIGHT};
use block::{count, find, is_pair, place, record_place, subjects};
pub use left::write_left;
use record::Record;
pub use retiring::retire;
pub use write::copy;
use write::{put_marks, put_record, put_retired, put_two, shift_down, shift_up};

// The fresh register, over any bytes.
pub fn write_fresh(b: &mut [u8])
    requires { length b.old ≡ block_size }
    ensures { b.new ≡ encode fresh }
{
    b.fill(0);
    b[0] = 1;
}

// No subject and no delegation, over any bytes.
pub fn write_empty(b: &mut [u8])
    requires { length b.old ≡ block_size }
    ensures { b.new ≡ encode empty }
{
    b.fill(0);
}

// A block of the layout before, in the present one, over any bytes.
pub fn write_brought(old: &[u8], b: &mut [u8])
    requires { (length old.now ≡ old_size) × (length b.old ≡ block_size) }
    ensures { b.new ≡ brought old.now }
{
    b[..RETIRED_AT].copy_from_slice(&old[..RETIRED_AT]);
    b[RETIRED_AT..RECORDS_AT].fill(0);
    b[RECORDS_AT..].copy_from_slice(&old[RETIRED_AT..]);
}

// One more subject.
pub fn add_subject(b: &mut [u8], marks: u16)
    requires { Fitting b.old × (subjects_in b.old < most_subjects) }
    ensures { b.new ≡ encode (enrolled (decode b.old) marks) }
{
    let n = subjects(b);
    b[0] = n + 1;
    put_marks(b, n, marks);
}

// The marks of an enrolled subject set.
pub fn set_marks(b: &mut [u8], subject: u8, marks: u16)
    requires { (well_formed b.old ≡ true) × (subject < subjects_in b.old) }
    ensures { b.new ≡ encode (changed (decode b.old) (marking subject marks)) }
{
    put_marks(b, subject, marks);
}

// The bit of an enrolled subject set.
pub fn set_retired(b: &mut [u8], subject: u8)
    requires { Fitting b.old × (subject < subjects_in b.old) }
    ensures { b.new ≡ encode (with_retired (decode b.old) (bit_or (decode b.old).retired (2 ^ subject))) }
{
    let retired = block::retired(b);
    put_retired(b, retired | (1u64 << subject));
}

// One more delegation, after all others. The crates above give its fields as parameters, here and in `put_granted`.
pub fn append(b: &mut [u8], giver: u8, receiver: u8, weight: u8, need: u16, bar: u16, kind: u8)
    requires { Fitting b.old × (count_in b.old < most_records) }
    ensures { b.new ≡ encode (with_delegations (decode b.old) ((decode b.old).delegations ++ (granted giver receiver weight need bar kind ∷ []))) }
{
    let n = count(b);
    let delegation = Record {
        giver,
        receiver,
        weight,
        kind,
        need,
        bar,
    };
    put_record(b, record_place(n), delegation);
    put_two(b, COUNT_AT, (n + 1) as u16);
}

// The pair stands: its record is the one before its place.
fn stands_before(b: &[u8], at: usize, giver: u8, receiver: u8) -> bool
    requires { (well_formed b.now ≡ true) × IsPlace b.now giver receiver at }
    ensures { result ≡ stands (decode b.now) giver receiver }
{
    if at == 0 {
        return false;
    }
    is_pair(b, at - 1, giver, receiver)
}

// One more delegation, at its place.
fn insert(b: &mut [u8], at: usize, delegation: Record)
    requires { (well_formed b.old ≡ true) × (count_in b.old < most_records) × IsPlace b.old delegation.giver delegation.receiver at }
    ensures { b.new ≡ encode (with_delegations (decode b.old) (insert (delegation_of delegation) (decode b.old).delegations)) }
{
    let n = count(b);
    let start = record_place(at);
    shift_up(b, start, record_place(n));
    put_record(b, start, delegation);
    put_two(b, COUNT_AT, (n + 1) as u16);
}

// The pair's delegation removed.
pub fn remove(b: &mut [u8], giver: u8, receiver: u8)
    requires { (well_formed b.old ≡ true) × (stands (decode b.old) giver receiver ≡ true) }
    ensures { b.new ≡ encode (named (decode b.old) (removal giver receiver)) }
{
    let n = count(b);
    let at = record_place(find(b, n, giver, receiver));
    shift_down(b, at, record_place(n));
    let last = n - 1;
    let start = record_place(last);
    b[start..start + RECORD_SIZE].fill(0);
    put_two(b, COUNT_AT, last as u16);
}

// The pair's delegation at another weight.
pub fn set_weight(b: &mut [u8], giver: u8, receiver: u8, weight: u8)
    requires { (well_formed b.old ≡ true) × (stands (decode b.old) giver receiver ≡ true) }
    ensures { b.new ≡ encode (reweighed (decode b.old) giver receiver weight) }
{
    let n = count(b);
    let at = record_place(find(b, n, giver, receiver));
    b[at + WEIGHT] = weight;
}

// A delegation granted: the weight of its pair raised to its own, or one more delegation.
pub fn put_granted(b: &mut [u8], giver: u8, receiver: u8, weight: u8, need: u16, bar: u16, kind: u8)
    requires { (well_formed b.old ≡ true) × (stands (decode b.old) giver receiver ≡ false → count_in b.old < most_records) }
    ensures { b.new ≡ encode (after_grant (decode b.old) (granted giver receiver weight need bar kind)) }
{
    let n = count(b);
    let at = place(b, n, giver, receiver);
    if stands_before(b, at, giver, receiver) {
        set_weight(b, giver, receiver, weight);
        return;
    }
    let delegation = Record {
        giver,
        receiver,
        weight,
        kind,
        need,
        bar,
    };
    insert(b, at, delegation);
}

// Writing bytes of a block.
ghost use Rattle.std.specs.Prelude.{◌≡◌, ◌+◌, ◌-◌, ◌≤◌, ◌<◌, length, replicate};
ghost use Rattle.std.proofs.lemmas.List.Edits.{sets};
ghost use Rattle.block.specs.Layout.{retired_at, retired_size, record_size};
ghost use Rattle.block.specs.Bytes.{two_bytes, wide_bytes};
ghost use Rattle.block.specs.Block.{record_bytes};
ghost use Rattle.block.specs.Records.{mark_place, HasMarks, HasRetired};
ghost use Rattle.change.specs.Record.{delegation_of};
ghost use Rattle.change.specs.Shift.{moved_up, moved_down};

use crate::record::Record;
use block::layout::{
    BAR, GIVER, KIND, MARK_SIZE, MARKS_AT, NEED, RECEIVER, RECORD_SIZE, RECORDS_AT, RETIRED_AT,
    WEIGHT,
};

// Zeros everywhere, in a loop: a retirement is slower with `fill`.
pub fn zero_all(b: &mut [u8])
    ensures { b.new ≡ replicate (length b.old) 0 }
{
    for i in 0..b.len() {
        b[i] = 0;
    }
}

// The bytes of one slice into another. A loop, for the C interface: with std's `copy_from_slice` here the archive asks for `memmove`, which its hosts need not have.
pub fn copy(from: &[u8], to: &mut [u8])
    requires { length from.now ≡ length to.old }
    ensures { to.new ≡ from.now }
{
    for i in 0..from.len() {
        to[i] = from[i];
    }
}

// The two bytes of a number, low byte first.
pub fn put_two(b: &mut [u8], at: usize, n: u16)
    requires { at + 2 ≤ length b.old }
    ensures { b.new ≡ sets b.old at (two_bytes n) }
{
    b[at..at + 2].copy_from_slice(&n.to_le_bytes());
}

// The marks of a subject.
pub fn put_marks(b: &mut [u8], subject: u8, marks: u16)
    requires { HasMarks b.old subject }
    ensures { b.new ≡ sets b.old (mark_place subject) (two_bytes marks) }
{
    put_two(b, MARKS_AT + MARK_SIZE * (subject as usize), marks);
}

// The bits of the retired subjects.
pub fn put_retired(b: &mut [u8], bits: u64)
    requires { HasRetired b.old }
    ensures { b.new ≡ sets b.old retired_at (wide_bytes retired_size bits) }
{
    b[RETIRED_AT..RECORDS_AT].copy_from_slice(&bits.to_le_bytes());
}

// The record of a delegation, field by field: a retirement is slower where they are joined to eight bytes first.
pub fn put_record(b: &mut [u8], at: usize, delegation: Record)
    requires { at + record_size ≤ length b.old }
    ensures { b.new ≡ sets b.old at (record_bytes (delegation_of delegation)) }
{
    b[at + GIVER] = delegation.giver;
    b[at + RECEIVER] = delegation.receiver;
    b[at + WEIGHT] = delegation.weight;
    b[at + KIND] = delegation.kind;
    put_two(b, at + NEED, delegation.need);
    put_two(b, at + BAR, delegation.bar);
}

// The bytes from `at` to `end` moved up by the size of a record.
pub fn shift_up(b: &mut [u8], at: usize, end: usize)
    requires { (at ≤ end) × (end + record_size ≤ length b.old) }
    ensures { b.new ≡ moved_up b.old at end }
{
    b.copy_within(at..end, at + RECORD_SIZE);
}

// The bytes after the record at `at` up to `end` moved down by the size of a record.
#[tactic(auto, unfolding(crate::specs::Shift::moved_down))]
pub fn shift_down(b: &mut [u8], at: usize, end: usize)
    requires { (at + record_size ≤ end) × (end ≤ length b.old) }
    ensures { b.new ≡ moved_down b.old at end }
{
    b.copy_within(at + RECORD_SIZE..end, at);
}

// What is left of the records of a block, written anew.
ghost use Rattle.std.specs.Prelude.{◌≡◌, true, ℕ, ◌<◌, ltb, pos, length, get_or};
ghost use Rattle.std.proofs.lemmas.List.Edits.{sets};
ghost use Rattle.rules.specs.List.{concat_map};
ghost use Rattle.rules.specs.Limit.{code, ◌≼◌};
ghost use Rattle.rules.specs.Register.{with_delegations};
ghost use Rattle.rules.specs.Round.{placed};
ghost use Rattle.block.specs.Layout.{most_records};
ghost use Rattle.block.specs.Block.{record_bytes, count_in, decode, encode};
ghost use Rattle.block.specs.WellFormed.{well_formed};
ghost use Rattle.block.specs.Records.{record_place, delegation_at, left_to};
ghost use Rattle.change.specs.Left.{Movable, Weighed, LeftWritten};

use crate::record::Record;
use crate::write::{put_record, put_two, zero_all};
use block::layout;

// Record `from` written at the place `to` with a new weight, unless that is -1; whether it was. Of a record that keeps its place only the weight is written.
fn keep_at(block: &mut [u8], from: usize, to: usize, weight: i16) -> bool
    requires { Movable block.old from to weight }
    ensures { (result ≡ ltb 0 (code weight)) × (block.new ≡ sets block.old (record_place to) (concat_map record_bytes (placed (delegation_at block.old from) weight))) }
{
    if weight < 0 {
        return false;
    }
    let at = block::record_place(to);
    if from == to {
        block[at + layout::WEIGHT] = weight as u8;
        return true;
    }
    let delegation = Record {
        weight: weight as u8,
        ..Record::at(block, from)
    };
    put_record(block, at, delegation);
    true
}

// What is left of the first `n` records, each at its new weight, written from the first place on; how many.
fn keep_left(block: &mut [u8], n: usize, weights: &[i16]) -> usize
    requires { Weighed block.old weights.now n }
    ensures { LeftWritten block.old weights.now n result block.new }
{
    let mut kept: usize = 0;
    for k in 0..n {
        let weight = weights[k];
        if keep_at(block, k, kept, weight) {
            kept += 1;
        }
    }
    kept
}

// The block written anew: what is left of its delegations, each at its new weight. The places that no record has any more are set to zero; the bytes after them are zero already.
pub fn write_left(block: &mut [u8], weights: &[i16])
    requires { (well_formed block.old ≡ true) × (length weights.now ≡ most_records) × ((k : ℕ) → k < count_in block.old → get_or weights.now k (pos 0) ≼ pos 255) }
    ensures { block.new ≡ encode (with_delegations (decode block.old) (left_to (delegation_at block.old) weights.now (count_in block.old))) }
{
    let n = block::count(block);
    let kept = keep_left(block, n, weights);
    let start = block::record_place(kept);
    let end = block::record_place(n);
    zero_all(&mut block[start..end]);
    put_two(block, layout::COUNT_AT, kept as u16);
}

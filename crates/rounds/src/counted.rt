// What became of delegations.
ghost use Rattle.std.specs.Prelude.{◌≡◌, true};
ghost use Rattle.rules.specs.Remainder.{Within};
ghost use Rattle.rules.specs.Cut.{dropped, lowered};
ghost use Rattle.block.specs.Block.{decode};
ghost use Rattle.block.specs.WellFormed.{well_formed};

use crate::Changes;

// What became of the delegations of one block in another, which has no other pairs: how many don't stand there, and how many stand there at a smaller weight.
pub fn counts(before: &[u8], after: &[u8]) -> Changes
    requires { (well_formed before.now ≡ true) × (well_formed after.now ≡ true) × Within (decode after.now) (decode before.now) }
    ensures { (result.dropped ≡ dropped (decode before.now) (decode after.now)) × (result.lowered ≡ lowered (decode before.now) (decode after.now)) }
{
    let n = block::count(before);
    let m = block::count(after);
    let mut dropped = 0;
    let mut lowered = 0;
    // Both blocks rise: record `k` stands in `after` exactly if it is of the pair of record `j`, the first not met yet.
    let mut j = 0;
    for k in 0..n {
        let giver = block::giver(before, k);
        let receiver = block::receiver(before, k);
        if j < m && block::is_pair(after, j, giver, receiver) {
            if block::weight(after, j) < block::weight(before, k) {
                lowered += 1;
            }
            j += 1;
        } else {
            dropped += 1;
        }
    }
    Changes { dropped, lowered }
}

// A subject retired.
ghost use Rattle.std.specs.Prelude.{◌≡◌, true, ◌≤◌, ◌<◌, length};
ghost use Rattle.rules.specs.Cut.{retirement, changed};
ghost use Rattle.block.specs.Block.{subjects_in, decode, encode};
ghost use Rattle.block.specs.WellFormed.{well_formed};
ghost use Rattle.block.specs.Records.{HasRecord, HasRecords, delegation_at};
ghost use Rattle.change.specs.Without.{weight_without, WeightsWithout};

use crate::left::write_left;
use crate::set_retired;
use crate::write::put_marks;
use block::layout;

// The weight that record `k` keeps: -1 where it is to or from the subject, as the public `write_left` takes weights.
fn weight_without(b: &[u8], k: usize, subject: u8) -> i16
    requires { HasRecord b.now k }
    ensures { result ≡ weight_without subject (delegation_at b.now k) }
{
    if block::giver(b, k) == subject {
        return -1;
    }
    if block::receiver(b, k) == subject {
        return -1;
    }
    block::weight(b, k) as i16
}

// The weights that the first `n` records keep.
fn weights_without(b: &[u8], n: usize, subject: u8, weights: &mut [i16])
    requires { HasRecords b.now n × (n ≤ length weights.old) }
    ensures { WeightsWithout b.now subject n weights.new }
{
    for (k, weight) in weights[..n].iter_mut().enumerate() {
        *weight = weight_without(b, k, subject);
    }
}

// An enrolled subject retired: all delegations to and from it removed, its marks cleared, its bit set.
pub fn retire(b: &mut [u8], subject: u8)
    requires { (well_formed b.old ≡ true) × (subject < subjects_in b.old) }
    ensures { b.new ≡ encode (changed (decode b.old) (retirement subject)) }
{
    let mut weights = [0i16; layout::MOST_RECORDS];
    let n = block::count(b);
    weights_without(b, n, subject, &mut weights);
    write_left(b, &weights);
    put_marks(b, subject, 0);
    set_retired(b, subject);
}

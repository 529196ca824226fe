// The reckoning of a round, on the decoded delegations: a lent run of records.
ghost use Rattle.std.specs.Prelude.{◌≡◌, map, ◌++◌, ◌+◌, ◌*◌, ◌≤◌, length, take, drop};
ghost use Rattle.block.specs.Layout.{most_records};
ghost use Rattle.block.specs.Records.{HasRecord, HasRecords, delegation_at};
ghost use Rattle.reckoning.specs.Reckoned.{run_size, RunAsked, decoded_as, Decoded, lowered_to, lower_one, WeightsRead, RunLowered};

use crate::Delegation;
use block::layout;

// The delegations that are decoded and lowered together.
const RUN: usize = 16;

// The delegation of record k, decoded.
fn decoded_at(block: &[u8], k: usize) -> Delegation
    requires { HasRecord block.now k }
    ensures { result ≡ decoded_as (delegation_at block.now k) }
{
    Delegation {
        giver: block::giver(block, k),
        receiver: block::receiver(block, k),
        weight: i16::from(block::weight(block, k)),
        need: block::need(block, k),
        bar: block::bar(block, k),
    }
}

// The delegations of the `n` records from `first` on, decoded.
fn decoded(block: &[u8], first: usize, n: usize) -> [Delegation; RUN]
    requires { HasRecords block.now (first + n) × (first + n ≤ most_records) × (n ≤ run_size) }
    ensures { Decoded (λ k. delegation_at block.now (first + k)) n result }
{
    let mut ds = [Delegation::default(); RUN];
    for k in 0..n {
        ds[k] = decoded_at(block, first + k);
    }
    ds
}

// A weight lowered to the reach of its giver and receiver; it stays where the table has no place for them.
fn lowered_weight(reaches: &[i16], giver: u8, receiver: u8, weight: i16) -> i16
    ensures { result ≡ lowered_to reaches.now giver receiver weight }
{
    let at = layout::SUBJECTS * usize::from(receiver) + usize::from(giver);
    match reaches.get(at) {
        Some(reach) if *reach < weight => *reach,
        _ => weight,
    }
}

// Every delegation of a lent run lowered to its reach, all together.
fn lower(ds: &mut [Delegation], reaches: &[i16])
    ensures { ds.new ≡ map (lower_one reaches.now) ds.old }
{
    for d in ds.iter_mut() {
        d.weight = lowered_weight(reaches, d.giver, d.receiver, d.weight);
    }
}

// The weights of decoded delegations, stored from the place `first` on; whether one is below the weight that its record has.
fn read_weights(block: &[u8], ds: &[Delegation], first: usize, weights: &mut [i16]) -> bool
    requires { RunAsked block.now first (length ds.now) weights.old }
    ensures { WeightsRead (delegation_at block.now) ds.now first (length ds.now) result weights.old weights.new }
{
    let mut changed = false;
    for (k, d) in ds.iter().enumerate() {
        weights[first + k] = d.weight;
        changed |= d.weight < i16::from(block::weight(block, first + k));
    }
    changed
}

// The weights of the `n` delegations from the place `first` on, lowered to their reaches; whether one was.
fn lower_run(block: &[u8], reaches: &[i16], first: usize, n: usize, weights: &mut [i16]) -> bool
    requires { RunAsked block.now first n weights.old }
    ensures { RunLowered reaches.now (delegation_at block.now) first n result weights.old weights.new }
{
    let mut ds = decoded(block, first, n);
    let run = &mut ds[..n];
    lower(run, reaches);
    read_weights(block, run, first, weights)
}

// The weights of the first `n` delegations, lowered to their reaches, run by run; whether one was.
pub fn lower_all(block: &[u8], reaches: &[i16], n: usize, weights: &mut [i16]) -> bool
    requires { HasRecords block.now n × (n ≤ most_records) × (length weights.old ≡ most_records) }
    ensures { RunLowered reaches.now (delegation_at block.now) 0 n result weights.old weights.new }
{
    let mut changed = false;
    for run in 0..n / RUN {
        changed |= lower_run(block, reaches, RUN * run, RUN, weights);
    }
    let rest = n % RUN;
    if rest == 0 {
        return changed;
    }
    changed | lower_run(block, reaches, n - rest, rest, weights)
}

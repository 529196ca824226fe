// The search for reach: for one receiver's marks, the largest limit of every subject.
#![tactic(auto)]

ghost use Rattle.std.specs.Prelude.{◌≡◌, ◌≢◌, ◌+◌, ◌<◌, length, set};
ghost use Rattle.block.specs.Layout.{most_subjects};
ghost use Rattle.queue.specs.Queue.{groups};
ghost use Rattle.runs.specs.Lent.{SubjectLists};
ghost use Rattle.runs.specs.Steps.{Indexed};
ghost use Rattle.search.specs.Search.{Started};
ghost use Rattle.search.specs.Turns.{IsLimits, Heaviest, LevelSought, GroupSought, AtHand};
ghost use Rattle.search.specs.Found.{OrderLent, SearchMade};

use block::layout;

mod on_block;

pub use on_block::{limits_by, limits_for, order_of, reach_of, starts_of};

// 255 at the owner, none elsewhere, no parents.
fn start(limits: &mut [i16], parents: &mut [u16])
    requires { SubjectLists limits.old parents.old }
    ensures { Started limits.new parents.new }
{
    limits.fill(-1);
    parents.fill(0);
    limits[0] = 255;
}

// Those who wait, and the one of them whose turn it is, if one waits at the level at hand.
#[derive(Clone, Copy)]
struct Turn {
    subject: Option<usize>,
    sets: queue::Sets,
}

// A level: the subjects that wait at it, and the lowest of them.
#[derive(Drop)]
struct Level {
    first: usize,
    set: u64,
}

// Those of a set whose limit is the largest of theirs.
fn heaviest(limits: &[i16], set: u64) -> Level
    requires { IsLimits limits.now × (set ≢ 0) }
    ensures { Heaviest limits.now set result.first result.set }
{
    let mut first = queue::lowest(set);
    let mut best = queue::with(0, first);
    for other in queue::Members(queue::without(set, first)) {
        let most = limits[first];
        let limit = limits[other];
        if most < limit {
            first = other;
            best = queue::with(0, other);
        } else if most == limit {
            best = queue::with(best, other);
        }
    }
    Level { first, set: best }
}

// The heaviest of those who wait near wait here then, if any does, and it is the turn of the lowest of them.
fn next_level(limits: &[i16], sets: queue::Sets) -> Turn
    requires { IsLimits limits.now }
    ensures { LevelSought limits.now sets result }
{
    if sets.near == 0 {
        return Turn {
            subject: None,
            sets,
        };
    }
    let level = heaviest(limits, sets.near);
    let near = queue::minus(sets.near, level.set);
    Turn {
        subject: Some(level.first),
        sets: queue::Sets {
            here: level.set,
            near,
            ..sets
        },
    }
}

// Where none waits near, those of the first group in which one may wait, but those settled, wait near then.
fn next_group(waiting: &mut [u64], settled: u64, sets: queue::Sets) -> queue::Sets
    requires { (length waiting.old ≡ groups) × (sets.near ≡ 0 → sets.far ≢ 0) }
    ensures { GroupSought settled sets result waiting.old waiting.new }
{
    if sets.near != 0 {
        return sets;
    }
    let group = queue::lowest(sets.far);
    queue::Sets {
        here: 0,
        near: queue::take(waiting, group, settled),
        far: queue::without(sets.far, group),
    }
}

// The level at hand, or, where none waits at it, the next one, and whose turn it is.
fn at_hand(limits: &[i16], waiting: &mut [u64], settled: u64, sets: queue::Sets) -> Turn
    requires { IsLimits limits.now × (length waiting.old ≡ groups) × (sets.here ≡ 0 → sets.near ≡ 0 → sets.far ≢ 0) }
    ensures { AtHand limits.now settled sets result waiting.old waiting.new }
{
    if sets.here != 0 {
        return Turn {
            subject: Some(queue::lowest(sets.here)),
            sets,
        };
    }
    next_level(limits, next_group(waiting, settled, sets))
}

// One subject more in a list of subjects; how many they are then. The count stays beside the list: `order_of` answers it.
fn append(order: &mut [u8], count: usize, subject: usize) -> usize
    requires { (count < length order.old) × (subject < most_subjects) }
    ensures { (result ≡ count + 1) × (order.new ≡ set order.old count subject) }
{
    order[count] = subject as u8;
    count + 1
}

// The reach of every subject, for each subject that has one the place of the record by which it is reached, and these subjects in the
// order in which they are settled; how many they are. They are settled from the largest limit down, of those who wait at one limit the
// lowest number first; one that was raised after it began to wait is settled at its new limit. The queue is lent empty and left empty.
fn search(
    records: &[u8],
    starts: &[u16],
    table: &[i16],
    marks: u16,
    limits: &mut [i16],
    parents: &mut [u16],
    waiting: &mut [u64],
    order: &mut [u8],
) -> usize
    requires { Indexed table.now records.now starts.now × OrderLent limits.old parents.old waiting.old order.old }
    ensures { SearchMade table.now records.now marks limits.new parents.new waiting.new order.new result }
{
    start(limits, parents);
    let mut sets = queue::first();
    let mut settled = 0;
    let mut count = 0;
    while (sets.here | sets.near | sets.far) != 0 {
        let turn = at_hand(limits, waiting, settled, sets);
        sets = turn.sets;
        if let Some(u) = turn.subject {
            settled = queue::with(settled, u);
            count = append(order, count, u);
            sets = runs::relax_giver(
                records,
                starts,
                u,
                marks,
                table,
                limits,
                parents,
                waiting,
                queue::apart(sets, u),
            );
        }
    }
    count
}

// The subjects that wait to be settled, by limit: a bucket queue of groups of four levels, the highest group first.
#![tactic(auto)]

ghost use Rattle.std.specs.Prelude.{◌≡◌, ◌≢◌, ◌∷◌, ◌<◌, length};
ghost use Rattle.std.specs.Iterator.{at_most};
ghost use Rattle.rules.specs.Bits.{BitPut};
ghost use Rattle.queue.specs.Queue.{levels, groups, set_bits, Without, Lowest, GivesLowest, members, BitSet, group_of, place_of, Covered, IsQueue, Taken, owner_here};

// The levels: the limits from 0 to 255.
const LEVELS: usize = 256;

// The levels of a group, and the groups.
const GROUP: usize = 4;

pub const GROUPS: usize = LEVELS / GROUP;

// The subjects that wait at the level at hand, the others that wait in its group, and the groups of the queue in which others may wait.
#[derive(Clone, Copy)]
pub struct Sets {
    pub here: u64,
    pub near: u64,
    pub far: u64,
}

// A set with one member more.
pub fn with(set: u64, member: usize) -> u64
    requires { member < set_bits }
    ensures { BitPut set member 1 result }
{
    set | (1u64 << member)
}

// The members of a set that another does not have.
pub fn minus(set: u64, other: u64) -> u64
    ensures { Without set other result }
{
    set & !other
}

// A set without this member.
pub fn without(set: u64, member: usize) -> u64
    requires { member < set_bits }
    ensures { BitPut set member 0 result }
{
    minus(set, with(0, member))
}

// The lowest member of a set that has one.
pub fn lowest(set: u64) -> usize
    requires { set ≢ 0 }
    ensures { Lowest set result }
{
    set.trailing_zeros() as usize
}

// The members of a set, from the lowest on.
#[derive(Clone, Copy)]
pub struct Members(pub u64);

impl Iterator for Members {
    type Item = usize;

    ghost next_gives = { λ s r t. GivesLowest s.0 r t.0 };

    ghost remaining = { λ s. at_most (members s.0) };

    fn next(&mut self) -> Option<usize> {
        if self.0 == 0 {
            return None;
        }
        let first = lowest(self.0);
        self.0 = without(self.0, first);
        Some(first)
    }
}

// Subject 0 alone waits, here.
pub fn first() -> Sets
    ensures { result ≡ owner_here }
{
    Sets {
        here: 1,
        near: 0,
        far: 0,
    }
}

// A subject waits no more, here or near.
pub fn apart(sets: Sets, subject: usize) -> Sets
    requires { subject < set_bits }
    ensures { BitPut sets.here subject 0 result.here × BitPut sets.near subject 0 result.near × (result.far ≡ sets.far) }
{
    Sets {
        here: without(sets.here, subject),
        near: without(sets.near, subject),
        ..sets
    }
}

fn group_of(level: usize) -> usize
    requires { level < levels }
    ensures { result ≡ group_of level }
{
    (LEVELS - 1 - level) / GROUP
}

// A subject waits at a level from now on: here where that is the level at hand, `at`, near where it is in the same group.
pub fn join(queue: &mut [u64], at: usize, level: usize, subject: usize, sets: Sets) -> Sets
    requires { IsQueue queue.old sets.far × (at < levels) × (level < levels) × (subject < set_bits) }
    ensures { BitSet (sets.here ∷ sets.near ∷ queue.old) (place_of at level) subject 1 (result.here ∷ result.near ∷ queue.new) × Covered queue.new result.far }
{
    if level == at {
        return Sets {
            here: with(sets.here, subject),
            ..sets
        };
    }
    let group = group_of(level);
    if group == group_of(at) {
        return Sets {
            near: with(sets.near, subject),
            ..sets
        };
    }
    queue[group] = with(queue[group], subject);
    Sets {
        far: with(sets.far, group),
        ..sets
    }
}

// All who wait in a group, taken from the queue; those of them that are not settled.
pub fn take(queue: &mut [u64], group: usize, settled: u64) -> u64
    requires { (length queue.old ≡ groups) × (group < groups) }
    ensures { Taken queue.old group settled result queue.new }
{
    let set = queue[group];
    queue[group] = 0;
    minus(set, settled)
}

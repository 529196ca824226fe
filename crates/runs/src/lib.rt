// What one giver's records give.
#![tactic(auto)]

ghost use Rattle.std.specs.Prelude.{◌≡◌, ◌∷◌, ℕ, ◌≤◌, ◌<◌, length, get_or, drop};
ghost use Rattle.rules.specs.Limit.{none};
ghost use Rattle.rules.specs.Table.{TableRule};
ghost use Rattle.rules.specs.WellFormed.{Rising};
ghost use Rattle.block.specs.Layout.{most_subjects, most_records};
ghost use Rattle.block.specs.Block.{delegation_in};
ghost use Rattle.runs.specs.Lent.{record_count, record_at, delegations_in, RunLent, RecordLent};
ghost use Rattle.runs.specs.Steps.{Stepped, SteppedTo, Sought, start_count, Starts, Indexed, Gave, Waiting, Ready};

use block::layout;

// A start for each giver, and the end of the last run.
pub const STARTS: usize = layout::SUBJECTS + 1;

// What a giver's records give by: the giver's limit, the marks of the receiver who is sought and the step table.
#[derive(Clone, Copy)]
struct Giving<'a> {
    limit: i16,
    marks: u16,
    table: &'a [i16],
}

// The record at `at`: where it raises its receiver, the limit is stored, and `place` as the receiver's parent, and it waits at that limit.
// The lists stay apart: `relax_giver` is lent each by itself, and its clauses name each before and after.
fn relax_at(
    run: &[u8],
    at: usize,
    place: usize,
    by: Giving,
    limits: &mut [i16],
    parents: &mut [u16],
    waiting: &mut [u64],
    sets: queue::Sets,
) -> queue::Sets
    requires { TableRule by.table.now × RecordLent run.now at place × Ready by.limit limits.old parents.old waiting.old sets.far }
    ensures { Stepped by.entry.table.now by.entry.limit by.entry.marks (delegation_in (drop at run.now)) place limits.old parents.old (sets.here ∷ sets.near ∷ waiting.old) limits.new parents.new (result.here ∷ result.near ∷ waiting.new) × Waiting limits.new waiting.new result.far }
{
    let need = block::read_two(run, at + layout::NEED);
    let bar = block::read_two(run, at + layout::BAR);
    if rules::meets(by.marks, need, bar) {
        let receiver = usize::from(run[at + layout::RECEIVER]);
        let given = rules::next(by.table, by.limit, run[at + layout::WEIGHT]);
        if limits[receiver] < given {
            limits[receiver] = given;
            parents[receiver] = place as u16;
            return queue::join(waiting, by.limit as usize, given as usize, receiver, sets);
        }
    }
    sets
}

// A run of records, from a giver of this limit; the first of them is at the place `first`.
fn relax_run(
    run: &[u8],
    first: usize,
    by: Giving,
    limits: &mut [i16],
    parents: &mut [u16],
    waiting: &mut [u64],
    sets: queue::Sets,
) -> queue::Sets
    requires { TableRule by.table.now × RunLent run.now first × Ready by.limit limits.old parents.old waiting.old sets.far }
    ensures { SteppedTo by.entry.table.now by.entry.limit by.entry.marks run.now first limits.old parents.old (sets.here ∷ sets.near ∷ waiting.old) (record_count run.now) limits.new parents.new (result.here ∷ result.near ∷ waiting.new) × Waiting limits.new waiting.new result.far }
{
    let n = run.len() / layout::RECORD_SIZE;
    let mut left = sets;
    for k in 0..n {
        left = relax_at(
            run,
            layout::RECORD_SIZE * k,
            first + k,
            by,
            limits,
            parents,
            waiting,
            left,
        );
    }
    left
}

// The place of the first record whose giver is not below `bound`, sought from `low` on.
fn seek(records: &[u8], low: usize, bound: usize) -> usize
    requires { (low ≤ record_count records.now) × ((k : ℕ) → k < low → (record_at records.now k).giver < bound) × Rising (delegations_in records.now) }
    ensures { Sought records.now bound result }
{
    let n = records.len() / layout::RECORD_SIZE;
    for k in low..n {
        let giver = usize::from(records[layout::RECORD_SIZE * k]);
        if bound <= giver {
            return k;
        }
    }
    n
}

// Where the run of each giver starts, in one pass: each is sought from the one before it, until no record is left.
pub fn fill_starts(records: &[u8], starts: &mut [u16])
    requires { (record_count records.now ≤ most_records) × Rising (delegations_in records.now) × (length starts.old ≡ start_count) }
    ensures { Starts records.now starts.new }
{
    let n = records.len() / layout::RECORD_SIZE;
    let mut k = 0;
    for giver in 0..STARTS {
        k = seek(records, k, giver);
        if k == n {
            starts[giver..].fill(k as u16);
            return;
        }
        starts[giver] = k as u16;
    }
}

// All records of one giver: they stand together, since records rise.
pub fn relax_giver(
    records: &[u8],
    starts: &[u16],
    giver: usize,
    marks: u16,
    table: &[i16],
    limits: &mut [i16],
    parents: &mut [u16],
    waiting: &mut [u64],
    sets: queue::Sets,
) -> queue::Sets
    requires { Indexed table.now records.now starts.now × (giver < most_subjects) × Ready (get_or limits.old giver none) limits.old parents.old waiting.old sets.far }
    ensures { Gave table.now records.now marks giver limits.old parents.old (sets.here ∷ sets.near ∷ waiting.old) limits.new parents.new (result.here ∷ result.near ∷ waiting.new) × Waiting limits.new waiting.new result.far }
{
    let a = usize::from(starts[giver]);
    let e = usize::from(starts[giver + 1]);
    let limit = limits[giver];
    let by = Giving {
        limit,
        marks,
        table,
    };
    relax_run(
        &records[layout::RECORD_SIZE * a..layout::RECORD_SIZE * e],
        a,
        by,
        limits,
        parents,
        waiting,
        sets,
    )
}

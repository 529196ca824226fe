// Reads of a block: its fields, whether it is well formed, and where a record is.
ghost use Rattle.std.specs.Prelude.{◌≡◌, not, ◌&&◌, ◌+◌, ◌-◌, ◌≤◌, ◌<◌, length, get_or};
ghost use Rattle.rules.specs.Bits.{is_set};
ghost use Rattle.rules.specs.Pair.{is_pair, opens_to, opens};
ghost use Rattle.rules.specs.Register.{granted};
ghost use Rattle.rules.specs.CallStep.{before};
ghost use Rattle.block.specs.Layout.{most_subjects, most_records, record_size};
ghost use Rattle.block.specs.Bytes.{two, all_from, zeros, leading};
ghost use Rattle.block.specs.Block.{subjects_in, count_in, retired_in, records_in};
ghost use Rattle.block.specs.Records.{HasHead, HasMarks, HasRetired, HasRecord, HasRecords, marks_for, record_place, record_from, delegation_at, delegations_to};
ghost use Rattle.block.specs.WellFormed.{head_formed, subject_formed, retired_formed, delegation_formed, rises, is_apart, well_formed};
ghost use Rattle.block.specs.Pass.{formed_otherwise};

use crate::layout::{
    BAR, BLOCK_SIZE, COUNT_AT, FREE_AT, GIVER, KIND, MARK_SIZE, MARKS_AT, MOST_RECORDS,
    MOST_SUBJECTS, NEED, RECEIVER, RECORD_SIZE, RECORDS_AT, RETIRED_AT, WEIGHT,
};

// The two-byte number at `at`, low byte first.
pub fn read_two(s: &[u8], at: usize) -> u16
    requires { at + 2 ≤ length s.now }
    ensures { result ≡ two s.now at }
{
    u16::from_le_bytes([s[at], s[at + 1]])
}

// The bytes from `from` up to `to` are zero. They are joined and tested once, which is faster than a test of each.
fn zero_range(s: &[u8], from: usize, to: usize) -> bool
    requires { (from ≤ to) × (to ≤ length s.now) }
    ensures { result ≡ zeros s.now from (to - from) }
{
    s[from..to].iter().fold(0, |any, byte| any | *byte) == 0
}

// How many subjects are enrolled.
pub fn subjects(b: &[u8]) -> u8
    requires { 1 ≤ length b.now }
    ensures { result ≡ subjects_in b.now }
{
    b[0]
}

// How many delegations stand.
pub fn count(b: &[u8]) -> usize
    requires { HasHead b.now }
    ensures { result ≡ count_in b.now }
{
    read_two(b, COUNT_AT) as usize
}

// The marks of a subject.
pub fn marks(b: &[u8], subject: usize) -> u16
    requires { HasMarks b.now subject }
    ensures { result ≡ marks_for b.now subject }
{
    read_two(b, MARKS_AT + MARK_SIZE * subject)
}

// The bits of the retired subjects: bit `s` is subject `s`.
pub fn retired(b: &[u8]) -> u64
    requires { HasRetired b.now }
    ensures { result ≡ retired_in b.now }
{
    u64::from_le_bytes(b[RETIRED_AT..RECORDS_AT].try_into().unwrap())
}

// The bit of a subject is set; none is past the last bit.
pub fn is_retired(retired: u64, subject: u32) -> bool
    ensures { result ≡ is_set retired subject }
{
    if subject >= MOST_SUBJECTS as u32 {
        return false;
    }
    (retired >> subject) % 2 == 1
}

// Where record `k` begins.
pub fn record_place(k: usize) -> usize
    requires { k ≤ most_records }
    ensures { result ≡ record_place k }
{
    RECORDS_AT + RECORD_SIZE * k
}

// The bytes of the records that stand.
pub fn records(b: &[u8]) -> &[u8]
    requires { HasRecords b.now (count_in b.now) }
    ensures { result.now ≡ records_in b.now }
{
    let end = RECORDS_AT + RECORD_SIZE * count(b);
    &b[RECORDS_AT..end]
}

// The byte at `j` of record `k`.
fn record_byte(b: &[u8], k: usize, j: usize) -> u8
    requires { (j + 1 ≤ record_size) × (HasRecord b.now k) }
    ensures { result ≡ get_or (record_from b.now k) j 0 }
{
    b[RECORDS_AT + RECORD_SIZE * k + j]
}

// The two-byte number at `j` of record `k`.
fn record_two(b: &[u8], k: usize, j: usize) -> u16
    requires { (j + 2 ≤ record_size) × (HasRecord b.now k) }
    ensures { result ≡ two (record_from b.now k) j }
{
    read_two(b, RECORDS_AT + RECORD_SIZE * k + j)
}

// The fields of record `k`.
pub fn giver(b: &[u8], k: usize) -> u8
    requires { HasRecord b.now k }
    ensures { result ≡ (delegation_at b.now k).giver }
{
    record_byte(b, k, GIVER)
}

pub fn receiver(b: &[u8], k: usize) -> u8
    requires { HasRecord b.now k }
    ensures { result ≡ (delegation_at b.now k).receiver }
{
    record_byte(b, k, RECEIVER)
}

pub fn weight(b: &[u8], k: usize) -> u8
    requires { HasRecord b.now k }
    ensures { result ≡ (delegation_at b.now k).weight }
{
    record_byte(b, k, WEIGHT)
}

pub fn need(b: &[u8], k: usize) -> u16
    requires { HasRecord b.now k }
    ensures { result ≡ (delegation_at b.now k).need }
{
    record_two(b, k, NEED)
}

pub fn bar(b: &[u8], k: usize) -> u16
    requires { HasRecord b.now k }
    ensures { result ≡ (delegation_at b.now k).bar }
{
    record_two(b, k, BAR)
}

pub fn kind(b: &[u8], k: usize) -> u8
    requires { HasRecord b.now k }
    ensures { result ≡ (delegation_at b.now k).kind }
{
    record_byte(b, k, KIND)
}

// Record `k` is formed, but for its giver and its kind, which may be any.
#[tactic(auto, unfolding(crate::specs::Pass::formed_otherwise))]
fn formed_otherwise(b: &[u8], k: usize, subjects: u8) -> bool
    requires { HasRecord b.now k }
    ensures { result ≡ formed_otherwise subjects (delegation_at b.now k) }
{
    let giver = self::giver(b, k);
    let receiver = self::receiver(b, k);
    if receiver >= subjects {
        return false;
    }
    if giver == receiver {
        return false;
    }
    if receiver == 0 {
        return false;
    }
    let shared = need(b, k) & bar(b, k);
    shared == 0
}

// The first `count` records are each formed and rise strictly. A pair is compared as one number, giver first, so the last giver is the largest. All kinds joined are at most 1 exactly where each is.
fn records_formed(b: &[u8], count: usize, subjects: u8) -> bool
    requires { (1 ≤ subjects) × (HasRecords b.now count) }
    ensures { result ≡ (all_from (λ k. delegation_formed subjects (delegation_at b.now k)) 0 count && rises (delegations_to b.now count)) }
{
    let mut last: u16 = 0;
    let mut kinds: u8 = 0;
    for k in 0..count {
        let pair = u16::from_be_bytes([giver(b, k), receiver(b, k)]);
        if pair <= last {
            return false;
        }
        if !formed_otherwise(b, k, subjects) {
            return false;
        }
        last = pair;
        kinds |= kind(b, k);
    }
    if kinds > rules::kind::PASS_ONLY {
        return false;
    }
    last < (subjects as u16) * 256
}

// A subject is formed: where it is retired, it is enrolled, is not the owner and has no marks.
fn subject_formed(b: &[u8], retired: u64, subject: u8) -> bool
    requires { HasRetired b.now × (subject < most_subjects) }
    ensures { result ≡ subject_formed retired b.now subject }
{
    if !is_retired(retired, subject as u32) {
        return true;
    }
    if subject >= subjects(b) {
        return false;
    }
    if subject == 0 {
        return false;
    }
    marks(b, subject as usize) == 0
}

// Every subject is formed.
fn subjects_formed(b: &[u8], retired: u64) -> bool
    requires { HasRetired b.now }
    ensures { result ≡ all_from (subject_formed retired b.now) 0 most_subjects }
{
    (0..MOST_SUBJECTS).all(|s| subject_formed(b, retired, s))
}

// Record `k` is neither to nor from a retired subject.
fn is_apart(b: &[u8], k: usize, retired: u64) -> bool
    requires { HasRecord b.now k }
    ensures { result ≡ is_apart retired (delegation_at b.now k) }
{
    if is_retired(retired, giver(b, k) as u32) {
        return false;
    }
    !is_retired(retired, receiver(b, k) as u32)
}

// So for the first `count` records.
fn records_apart(b: &[u8], count: usize, retired: u64) -> bool
    requires { HasRecords b.now count }
    ensures { result ≡ all_from (λ k. is_apart retired (delegation_at b.now k)) 0 count }
{
    (0..count).all(|k| is_apart(b, k, retired))
}

// The bits are formed: where somebody is retired, every subject is formed, and none of the first `count` records is to or from a retired one.
fn retired_formed(b: &[u8], count: usize) -> bool
    requires { HasRetired b.now × HasRecords b.now count }
    ensures { result ≡ (retired_formed b.now && all_from (λ k. is_apart (retired_in b.now) (delegation_at b.now k)) 0 count) }
{
    let retired = self::retired(b);
    if retired == 0 {
        return true;
    }
    if !subjects_formed(b, retired) {
        return false;
    }
    records_apart(b, count, retired)
}

// Record `k` is of this pair.
pub fn is_pair(b: &[u8], k: usize, giver: u8, receiver: u8) -> bool
    requires { HasRecord b.now k }
    ensures { result ≡ is_pair giver receiver (delegation_at b.now k) }
{
    (self::giver(b, k), self::receiver(b, k)) == (giver, receiver)
}

// This pair comes before record `k`: by giver, then receiver.
fn is_before(b: &[u8], k: usize, giver: u8, receiver: u8) -> bool
    requires { HasRecord b.now k }
    ensures { result ≡ before (granted giver receiver 0 0 0 0) (delegation_at b.now k) }
{
    (giver, receiver) < (self::giver(b, k), self::receiver(b, k))
}

// The first four bytes are formed.
fn head_formed(b: &[u8]) -> bool
    requires { HasHead b.now }
    ensures { result ≡ head_formed b.now }
{
    let n = b[0];
    let free = b[FREE_AT];
    if n < 1 {
        return false;
    }
    if n > MOST_SUBJECTS {
        return false;
    }
    if free != 0 {
        return false;
    }
    count(b) <= MOST_RECORDS
}

// Any bytes: they are a well-formed block.
pub fn well_formed(b: &[u8]) -> bool
    ensures { result ≡ well_formed b.now }
{
    if b.len() != BLOCK_SIZE {
        return false;
    }
    if !head_formed(b) {
        return false;
    }
    let n = subjects(b);
    let records = count(b);
    if read_two(b, MARKS_AT) != 0 {
        return false;
    }
    if !zero_range(b, MARKS_AT + MARK_SIZE * (n as usize), RETIRED_AT) {
        return false;
    }
    if !records_formed(b, records, n) {
        return false;
    }
    if !retired_formed(b, records) {
        return false;
    }
    zero_range(b, RECORDS_AT + RECORD_SIZE * records, BLOCK_SIZE)
}

// How many records stand before the first of this pair.
pub fn find(b: &[u8], count: usize, giver: u8, receiver: u8) -> usize
    requires { HasRecords b.now count }
    ensures { result ≡ leading (λ d. not (is_pair giver receiver d)) (delegations_to b.now count) }
{
    (0..count)
        .position(|k| is_pair(b, k, giver, receiver))
        .unwrap_or(count)
}

// How many records at the front this pair does not come before: its place.
pub fn place(b: &[u8], count: usize, giver: u8, receiver: u8) -> usize
    requires { HasRecords b.now count }
    ensures { result ≡ leading (λ e. not (before (granted giver receiver 0 0 0 0) e)) (delegations_to b.now count) }
{
    (0..count)
        .position(|k| is_before(b, k, giver, receiver))
        .unwrap_or(count)
}

// Record `k` is ordinary and to this receiver.
fn opens_to(b: &[u8], k: usize, receiver: u8) -> bool
    requires { HasRecord b.now k }
    ensures { result ≡ opens_to receiver (delegation_at b.now k) }
{
    if self::receiver(b, k) != receiver {
        return false;
    }
    kind(b, k) == rules::kind::ORDINARY
}

// Some record is ordinary and to this receiver.
pub fn opens(b: &[u8], count: usize, receiver: u8) -> bool
    requires { HasRecords b.now count }
    ensures { result ≡ opens receiver (delegations_to b.now count) }
{
    (0..count).any(|k| opens_to(b, k, receiver))
}

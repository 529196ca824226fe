// Refusals by what the register holds, on a well-formed block: the first that applies. Each test has one refusal, and the calls make them in document 01's order.
ghost use Rattle.std.specs.Prelude.{◌≡◌, true, false, List, [], ◌∷◌, ◌++◌, ◌≤◌, ℤ};
ghost use Rattle.rules.specs.Table.{TableRule};
ghost use Rattle.rules.specs.Pair.{stands, is_raise};
ghost use Rattle.rules.specs.Register.{granted};
ghost use Rattle.rules.specs.Call.{grant, revoke, downgrade};
ghost use Rattle.rules.specs.Refused.{refused_with};
ghost use Rattle.rules.specs.Refusal.{first_of, subjects_held, all_enrolled, pair_stands, all_stand, may_not, owner_only, not_below, overweight, held, back_held};
ghost use Rattle.block.specs.Block.{decode};
ghost use Rattle.block.specs.Records.{HasRecord, delegation_at};
ghost use Rattle.block.specs.WellFormed.{well_formed};
ghost use Rattle.refusals.specs.Checked.{Checked, BothEnrolled};

use crate::tested;
use block::layout;
use rules::Refusal;

// The owner's number.
const OWNER: u32 = 0;

// The pair stands.
fn stands(block: &[u8], giver: u32, receiver: u32) -> bool
    requires { (well_formed block.now ≡ true) × (giver ≤ 63) × (receiver ≤ 63) }
    ensures { result ≡ stands (decode block.now) giver receiver }
{
    let n = block::count(block);
    block::find(block, n, giver as u8, receiver as u8) < n
}

// 9 and 19 of the subjects that a call names: one is not enrolled; one is retired. Where nobody is retired, 9 alone is tested.
pub fn subjects_held(block: &[u8], subjects: &[u32]) -> Result<(), Refusal>
    requires { well_formed block.now ≡ true }
    ensures { refused_with result ≡ first_of (subjects_held (decode block.now) subjects.now) }
{
    let enrolled = block::subjects(block) as u32;
    tested(
        Refusal::NotEnrolled,
        subjects.iter().any(|s| *s >= enrolled),
    )?;
    let retired = block::retired(block);
    if retired == 0 {
        return Ok(());
    }
    tested(
        Refusal::Retired,
        subjects.iter().any(|s| block::is_retired(retired, *s)),
    )
}

// Of a reach, and of every call that names a pair.
pub fn pair_held(block: &[u8], giver: u32, receiver: u32) -> Result<(), Refusal>
    requires { well_formed block.now ≡ true }
    ensures { refused_with result ≡ first_of (subjects_held (decode block.now) (giver ∷ receiver ∷ [])) }
{
    subjects_held(block, &[giver, receiver])
}

// 10: 64 subjects enrolled.
pub fn all_enrolled(block: &[u8]) -> Result<(), Refusal>
    requires { well_formed block.now ≡ true }
    ensures { refused_with result ≡ first_of (all_enrolled (decode block.now) ∷ []) }
{
    tested(
        Refusal::AllEnrolled,
        block::subjects(block) >= layout::MOST_SUBJECTS,
    )
}

// A grant of these numbers for the pair of record `k` raises it.
fn is_raise(block: &[u8], k: usize, weight: u32, need: u32, bar: u32, kind: u32) -> bool
    requires { HasRecord block.now k }
    ensures { let e = delegation_at block.now k in result ≡ is_raise (granted e.giver e.receiver weight need bar kind) e }
{
    if block::need(block, k) as u32 != need {
        return false;
    }
    if block::bar(block, k) as u32 != bar {
        return false;
    }
    if block::kind(block, k) as u32 != kind {
        return false;
    }
    (block::weight(block, k) as u32) < weight
}

// 11 and 12: the pair stands, and this is no raise; 256 delegations stand, and the pair is not among them.
fn no_place(
    block: &[u8],
    giver: u32,
    receiver: u32,
    weight: u32,
    need: u32,
    bar: u32,
    kind: u32,
) -> Result<(), Refusal>
    requires { Checked block.now (grant (granted giver receiver weight need bar kind)) }
    ensures { refused_with result ≡ first_of (pair_stands (decode block.now) (granted giver receiver weight need bar kind) ∷ all_stand (decode block.now) (granted giver receiver weight need bar kind) ∷ []) }
{
    let count = block::count(block);
    let k = block::find(block, count, giver as u8, receiver as u8);
    if k >= count {
        return tested(Refusal::AllStand, count >= layout::MOST_RECORDS);
    }
    tested(
        Refusal::PairStands,
        !is_raise(block, k, weight, need, bar, kind),
    )
}

// 14: by is neither giver nor owner.
fn may_not(by: u32, giver: u32) -> Result<(), Refusal>
    ensures { refused_with result ≡ first_of (may_not by giver ∷ []) }
{
    tested(Refusal::MayNot, by != giver && by != OWNER)
}

// 15: the new weight is not below the present. A pair that does not stand has no weight, and nothing is below that.
fn not_below(block: &[u8], giver: u32, receiver: u32, weight: u32) -> Result<(), Refusal>
    requires { (well_formed block.now ≡ true) × (giver ≤ 63) × (receiver ≤ 63) }
    ensures { refused_with result ≡ first_of (not_below (decode block.now) giver receiver weight ∷ []) }
{
    let count = block::count(block);
    let k = block::find(block, count, giver as u8, receiver as u8);
    if k >= count {
        return Err(Refusal::NotBelow);
    }
    tested(Refusal::NotBelow, weight >= block::weight(block, k) as u32)
}

// 16: the reach that counts for the delegation is below its weight.
fn overweight(
    block: &[u8],
    table: &[i16],
    giver: u32,
    receiver: u32,
    weight: u32,
    need: u32,
    bar: u32,
    kind: u32,
) -> Result<(), Refusal>
    requires { Checked block.now (grant (granted giver receiver weight need bar kind)) × TableRule table.now × BothEnrolled block.now giver receiver }
    ensures { refused_with result ≡ first_of (overweight table.now (decode block.now) (granted giver receiver weight need bar kind ∷ []) ∷ []) }
{
    let reach = search::reach_of(block, table, giver as usize, receiver as usize);
    tested(Refusal::Overweight, reach < weight as i16)
}

// Of a grant.
pub fn grant_held(
    block: &[u8],
    table: &[i16],
    giver: u32,
    receiver: u32,
    weight: u32,
    need: u32,
    bar: u32,
    kind: u32,
) -> Result<(), Refusal>
    requires { Checked block.now (grant (granted giver receiver weight need bar kind)) × TableRule table.now }
    ensures { refused_with result ≡ first_of (held table.now (decode block.now) (grant (granted giver receiver weight need bar kind))) }
{
    pair_held(block, giver, receiver)?;
    no_place(block, giver, receiver, weight, need, bar, kind)?;
    overweight(block, table, giver, receiver, weight, need, bar, kind)
}

// Of a revocation.
pub fn revoke_held(block: &[u8], by: u32, giver: u32, receiver: u32) -> Result<(), Refusal>
    requires { Checked block.now (revoke by giver receiver) }
    ensures { (t : List ℤ) → refused_with result ≡ first_of (held t (decode block.now) (revoke by giver receiver)) }
{
    subjects_held(block, &[by, giver, receiver])?;
    tested(Refusal::NoPair, !stands(block, giver, receiver))?;
    may_not(by, giver)
}

// Of a downgrade.
pub fn downgrade_held(
    block: &[u8],
    by: u32,
    giver: u32,
    receiver: u32,
    weight: u32,
) -> Result<(), Refusal>
    requires { Checked block.now (downgrade by giver receiver weight) }
    ensures { (t : List ℤ) → refused_with result ≡ first_of (held t (decode block.now) (downgrade by giver receiver weight)) }
{
    revoke_held(block, by, giver, receiver)?;
    not_below(block, giver, receiver, weight)
}

// Of what only the owner may do to a subject: set its marks, retire it.
pub fn owner_held(block: &[u8], by: u32, subject: u32) -> Result<(), Refusal>
    requires { well_formed block.now ≡ true }
    ensures { refused_with result ≡ first_of (subjects_held (decode block.now) (by ∷ subject ∷ []) ++ (owner_only by ∷ [])) }
{
    pair_held(block, by, subject)?;
    may_not(by, OWNER)
}

// Of taking a cut back, where `named` is the giver on the slip.
pub fn back_held(block: &[u8], by: u32, named: u32) -> Result<(), Refusal>
    requires { well_formed block.now ≡ true }
    ensures { refused_with result ≡ first_of (back_held (decode block.now) by named) }
{
    subjects_held(block, &[by])?;
    may_not(by, named)
}

// The refusals of the public calls, on plain numbers and a lent block: each function makes the tests of a call in document 01's order and answers the first that applies.
#![tactic(auto)]

mod allowed;
mod held;
mod passed;

ghost use Rattle.std.specs.Prelude.{◌≡◌, not, List, [], ◌∷◌, ◌++◌, eqb, ℤ, IfOk};
ghost use Rattle.rules.specs.Table.{TableRule};
ghost use Rattle.rules.specs.Register.{granted};
ghost use Rattle.rules.specs.Call.{enrol, grant, revoke, downgrade, ask_reach, ask_use, set_marks, retire};
ghost use Rattle.rules.specs.Refusal.{first_of};
ghost use Rattle.rules.specs.Refused.{refusal_number, refused_with};
ghost use Rattle.steptable.specs.TableText.{lent, ours};
ghost use Rattle.steptable.specs.Lent.{given_by};
ghost use Rattle.refusals.specs.Early.{wrong_length, text_refused, not_well_formed, refusal_on, order_refusal, back_refusal};

pub use allowed::{
    downgrade_allowed, grant_allowed, marks_allowed, order_allowed, reach_allowed, retire_allowed,
    revoke_allowed,
};
use block::layout;
pub use held::pair_held;
pub use passed::pair_passed;
use rules::Refusal;
use steptable::Table;

// Refused where a test applies.
fn tested(refusal: Refusal, applies: bool) -> Result<(), Refusal>
    ensures { refused_with result ≡ first_of ((refusal_number refusal, applies) ∷ []) }
{
    if applies { Err(refusal) } else { Ok(()) }
}

// 1: the block is not 2,188 bytes.
fn sized(block: &[u8]) -> Result<(), Refusal>
    ensures { refused_with result ≡ first_of (wrong_length block.now ∷ []) }
{
    tested(Refusal::WrongLength, block.len() != layout::BLOCK_SIZE)
}

// 8: the block is not well formed.
fn formed(block: &[u8]) -> Result<(), Refusal>
    ensures { refused_with result ≡ first_of (not_well_formed block.now ∷ []) }
{
    tested(Refusal::NotWellFormed, !block::well_formed(block))
}

// 7 and 17: the step table's text is of another form, or the table breaks a rule; else its steps.
fn steps_of(table: &Table) -> Result<&[i16; 256], Refusal>
    ensures refusal { refused_with result ≡ first_of (text_refused (given_by table.now).refusal) }
    ensures steps { IfOk result (λ s. s.now ≡ (given_by table.now).steps) }
{
    match table {
        Ok(steps) => Ok(steps),
        Err(fault) => Err((*fault).into()),
    }
}

// The first that applies of 1, the refusal by what was passed, 7 and 17 by the step table's text, and 8; else the steps.
pub fn early<'a>(
    block: &[u8],
    passed: Result<(), Refusal>,
    table: &'a Table,
) -> Result<&'a [i16; 256], Refusal>
    ensures refusal { refused_with result ≡ first_of (wrong_length block.now ∷ (refused_with passed, not (eqb (refused_with passed) 0)) ∷ (text_refused (given_by table.now).refusal ++ (not_well_formed block.now ∷ []))) }
    ensures steps { IfOk result (λ s. s.now ≡ (given_by table.now).steps) }
{
    sized(block)?;
    passed?;
    let steps = steps_of(table)?;
    formed(block)?;
    Ok(steps)
}

// 7 and 17, by the number with which the text is refused.
fn text_passes(fault: u32) -> Result<(), Refusal>
    ensures { refused_with result ≡ first_of (text_refused fault) }
{
    tested(Refusal::Malformed, fault == Refusal::Malformed.number())?;
    tested(Refusal::BadTable, fault == Refusal::BadTable.number())
}

// As `early`, where the step table's text is refused with the number `fault`, or passes where that is another.
pub fn early_told(block: &[u8], passed: Result<(), Refusal>, fault: u32) -> Result<(), Refusal>
    ensures { refused_with result ≡ first_of (wrong_length block.now ∷ (refused_with passed, not (eqb (refused_with passed) 0)) ∷ (text_refused fault ++ (not_well_formed block.now ∷ []))) }
{
    sized(block)?;
    passed?;
    text_passes(fault)?;
    formed(block)
}

// The whole refusal of an enrolment on a block of any length and content, without making it. It is lent no step table.
pub fn enrol_refusal(block: &[u8], marks: u32) -> Result<(), Refusal>
    ensures { refused_with result ≡ refusal_on ours block.now (enrol marks) }
{
    early_told(block, passed::enrol_passed(marks), 0)?;
    held::all_enrolled(block)
}

// Of a use.
pub fn use_refusal(block: &[u8], receiver: u32) -> Result<(), Refusal>
    ensures { refused_with result ≡ refusal_on ours block.now (ask_use receiver) }
{
    early_told(block, passed::use_passed(receiver), 0)?;
    held::subjects_held(block, &[receiver])
}

// Of a reach, where the step table's text is refused with `fault` or passes. Only a grant looks at the table: the others promise theirs for every table.
pub fn reach_refusal(block: &[u8], fault: u32, giver: u32, receiver: u32) -> Result<(), Refusal>
    ensures { (t : List ℤ) → refused_with result ≡ refusal_on (lent fault t) block.now (ask_reach giver receiver) }
{
    early_told(block, passed::pair_passed(giver, receiver), fault)?;
    held::pair_held(block, giver, receiver)
}

// Of a grant, by a step table.
pub fn grant_refusal(
    block: &[u8],
    table: &[i16],
    fault: u32,
    giver: u32,
    receiver: u32,
    weight: u32,
    need: u32,
    bar: u32,
    kind: u32,
) -> Result<(), Refusal>
    requires { TableRule table.now }
    ensures { refused_with result ≡ refusal_on (lent fault table.now) block.now (grant (granted giver receiver weight need bar kind)) }
{
    let passed = passed::grant_passed(giver, receiver, weight, need, bar, kind);
    early_told(block, passed, fault)?;
    held::grant_held(block, table, giver, receiver, weight, need, bar, kind)
}

// Of a revocation.
pub fn revoke_refusal(
    block: &[u8],
    fault: u32,
    by: u32,
    giver: u32,
    receiver: u32,
) -> Result<(), Refusal>
    ensures { (t : List ℤ) → refused_with result ≡ refusal_on (lent fault t) block.now (revoke by giver receiver) }
{
    early_told(block, passed::revoke_passed(by, giver, receiver), fault)?;
    held::revoke_held(block, by, giver, receiver)
}

// Of a downgrade.
pub fn downgrade_refusal(
    block: &[u8],
    fault: u32,
    by: u32,
    giver: u32,
    receiver: u32,
    weight: u32,
) -> Result<(), Refusal>
    ensures { (t : List ℤ) → refused_with result ≡ refusal_on (lent fault t) block.now (downgrade by giver receiver weight) }
{
    early_told(
        block,
        passed::downgrade_passed(by, giver, receiver, weight),
        fault,
    )?;
    held::downgrade_held(block, by, giver, receiver, weight)
}

// Of setting marks.
pub fn marks_refusal(
    block: &[u8],
    fault: u32,
    by: u32,
    subject: u32,
    marks: u32,
) -> Result<(), Refusal>
    ensures { (t : List ℤ) → refused_with result ≡ refusal_on (lent fault t) block.now (set_marks by subject marks) }
{
    early_told(block, passed::marks_passed(by, subject, marks), fault)?;
    held::owner_held(block, by, subject)
}

// Of retiring a subject.
pub fn retire_refusal(block: &[u8], fault: u32, by: u32, subject: u32) -> Result<(), Refusal>
    ensures { (t : List ℤ) → refused_with result ≡ refusal_on (lent fault t) block.now (retire by subject) }
{
    early_told(block, passed::retire_passed(by, subject), fault)?;
    held::owner_held(block, by, subject)
}

// Of the order call, its lent buffer aside.
pub fn order_refusal(block: &[u8], fault: u32, receiver: u32) -> Result<(), Refusal>
    ensures { refused_with result ≡ order_refusal fault block.now receiver }
{
    early_told(block, passed::order_passed(receiver), fault)?;
    held::subjects_held(block, &[receiver])
}

// Of taking a cut back, where `giver` is the one on the slip: the slip's length and 20 aside.
pub fn back_refusal(block: &[u8], fault: u32, by: u32, giver: u32) -> Result<(), Refusal>
    ensures { refused_with result ≡ back_refusal fault block.now by giver }
{
    early_told(block, passed::use_passed(by), fault)?;
    held::back_held(block, by, giver)
}

// Refusals by what was passed: the first that applies. Each test has one refusal, and the calls make them in document 01's order.
ghost use Rattle.std.specs.Prelude.{◌≡◌, [], ◌∷◌, Bool};
ghost use Rattle.rules.specs.List.{any};
ghost use Rattle.rules.specs.Register.{granted};
ghost use Rattle.rules.specs.Call.{enrol, grant, revoke, downgrade, ask_reach, ask_use, set_marks, retire};
ghost use Rattle.rules.specs.Refused.{refused_with};
ghost use Rattle.rules.specs.Refusal.{first_of, no_subject, no_weight, no_marks, no_condition, equal_pair, to_owner, no_kind, passed, order_passed};

use crate::tested;
use rules::{Refusal, most};

// 2: a subject number above 63.
fn no_subject(subjects: &[u32]) -> Result<(), Refusal>
    ensures { refused_with result ≡ first_of (no_subject subjects.now ∷ []) }
{
    tested(
        Refusal::NoSubject,
        subjects.iter().any(|s| *s > most::SUBJECT),
    )
}

// 3: a weight above 255.
fn no_weight(weight: u32) -> Result<(), Refusal>
    ensures { refused_with result ≡ first_of (no_weight weight ∷ []) }
{
    tested(Refusal::NoWeight, weight > most::WEIGHT)
}

// 4: marks above 65,535.
fn no_marks(marks: u32) -> Result<(), Refusal>
    ensures { refused_with result ≡ first_of (no_marks marks ∷ []) }
{
    tested(Refusal::NoMarks, marks > most::MARKS)
}

// 4: need or bar above 65,535, or they share a mark.
fn no_condition(need: u32, bar: u32) -> Result<(), Refusal>
    ensures { refused_with result ≡ first_of (no_condition need bar ∷ []) }
{
    no_marks(need)?;
    no_marks(bar)?;
    tested(Refusal::NoMarks, need & bar != 0)
}

// 5: giver and receiver equal.
fn equal_pair(giver: u32, receiver: u32) -> Result<(), Refusal>
    ensures { refused_with result ≡ first_of (equal_pair giver receiver ∷ []) }
{
    tested(Refusal::EqualPair, giver == receiver)
}

// 6: the receiver, or the subject whose marks are set, is the owner.
fn to_owner(receiver: u32) -> Result<(), Refusal>
    ensures { refused_with result ≡ first_of (to_owner receiver ∷ []) }
{
    tested(Refusal::ToOwner, receiver == 0)
}

// 21: a kind above 1, or pass-only of weight 0.
fn no_kind(weight: u32, kind: u32) -> Result<(), Refusal>
    ensures { refused_with result ≡ first_of (no_kind weight kind ∷ []) }
{
    if kind != rules::kind::PASS_ONLY as u32 {
        return tested(Refusal::NoKind, kind > most::KIND);
    }
    tested(Refusal::NoKind, weight == 0)
}

// Of an enrolment.
pub fn enrol_passed(marks: u32) -> Result<(), Refusal>
    ensures { refused_with result ≡ first_of (passed (enrol marks)) }
{
    no_marks(marks)
}

// Of a use.
pub fn use_passed(subject: u32) -> Result<(), Refusal>
    ensures { refused_with result ≡ first_of (passed (ask_use subject)) }
{
    no_subject(&[subject])
}

// Of the order call.
pub fn order_passed(receiver: u32) -> Result<(), Refusal>
    ensures { refused_with result ≡ first_of (order_passed receiver) }
{
    no_subject(&[receiver])?;
    to_owner(receiver)
}

// Of a call that names a pair: reach, and the chain call.
pub fn pair_passed(giver: u32, receiver: u32) -> Result<(), Refusal>
    ensures { refused_with result ≡ first_of (passed (ask_reach giver receiver)) }
{
    no_subject(&[giver, receiver])?;
    equal_pair(giver, receiver)?;
    to_owner(receiver)
}

// Of a grant.
pub fn grant_passed(
    giver: u32,
    receiver: u32,
    weight: u32,
    need: u32,
    bar: u32,
    kind: u32,
) -> Result<(), Refusal>
    ensures { refused_with result ≡ first_of (passed (grant (granted giver receiver weight need bar kind))) }
{
    no_subject(&[giver, receiver])?;
    no_weight(weight)?;
    no_condition(need, bar)?;
    equal_pair(giver, receiver)?;
    to_owner(receiver)?;
    no_kind(weight, kind)
}

// Of a revocation.
pub fn revoke_passed(by: u32, giver: u32, receiver: u32) -> Result<(), Refusal>
    ensures { refused_with result ≡ first_of (passed (revoke by giver receiver)) }
{
    no_subject(&[by, giver, receiver])?;
    equal_pair(giver, receiver)?;
    to_owner(receiver)
}

// Of a downgrade.
pub fn downgrade_passed(by: u32, giver: u32, receiver: u32, weight: u32) -> Result<(), Refusal>
    ensures { refused_with result ≡ first_of (passed (downgrade by giver receiver weight)) }
{
    no_subject(&[by, giver, receiver])?;
    no_weight(weight)?;
    equal_pair(giver, receiver)?;
    to_owner(receiver)
}

// Of setting marks.
pub fn marks_passed(by: u32, subject: u32, marks: u32) -> Result<(), Refusal>
    ensures { refused_with result ≡ first_of (passed (set_marks by subject marks)) }
{
    no_subject(&[by, subject])?;
    no_marks(marks)?;
    to_owner(subject)
}

// Of retiring a subject.
pub fn retire_passed(by: u32, subject: u32) -> Result<(), Refusal>
    ensures { refused_with result ≡ first_of (passed (retire by subject)) }
{
    no_subject(&[by, subject])?;
    to_owner(subject)
}

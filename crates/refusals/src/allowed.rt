// The calls that go by a lent step table: its steps where the call is not refused, and what it is refused with else.
ghost use Rattle.std.specs.Prelude.{◌≡◌, List, ℤ, IfOk};
ghost use Rattle.rules.specs.Register.{granted};
ghost use Rattle.rules.specs.Call.{grant, revoke, downgrade, ask_reach, set_marks, retire};
ghost use Rattle.rules.specs.Refused.{refused_with};
ghost use Rattle.steptable.specs.TableText.{lent};
ghost use Rattle.steptable.specs.Lent.{given_by, KeepsRule};
ghost use Rattle.refusals.specs.Early.{refusal_on, order_refusal};

use crate::{
    downgrade_refusal, grant_refusal, marks_refusal, order_refusal, reach_refusal, retire_refusal,
    revoke_refusal, steps_of,
};
use rules::Refusal;
use steptable::{Table, fault};

pub fn reach_allowed<'a>(
    block: &[u8],
    table: &'a Table,
    giver: u32,
    receiver: u32,
) -> Result<&'a [i16; 256], Refusal>
    ensures refusal { (t : List ℤ) → refused_with result ≡ refusal_on (lent (given_by table.now).refusal t) block.now (ask_reach giver receiver) }
    ensures steps { IfOk result (λ s. s.now ≡ (given_by table.now).steps) }
{
    reach_refusal(block, fault(table), giver, receiver)?;
    steps_of(table)
}

pub fn revoke_allowed<'a>(
    block: &[u8],
    table: &'a Table,
    by: u32,
    giver: u32,
    receiver: u32,
) -> Result<&'a [i16; 256], Refusal>
    ensures refusal { (t : List ℤ) → refused_with result ≡ refusal_on (lent (given_by table.now).refusal t) block.now (revoke by giver receiver) }
    ensures steps { IfOk result (λ s. s.now ≡ (given_by table.now).steps) }
{
    revoke_refusal(block, fault(table), by, giver, receiver)?;
    steps_of(table)
}

pub fn downgrade_allowed<'a>(
    block: &[u8],
    table: &'a Table,
    by: u32,
    giver: u32,
    receiver: u32,
    weight: u32,
) -> Result<&'a [i16; 256], Refusal>
    ensures refusal { (t : List ℤ) → refused_with result ≡ refusal_on (lent (given_by table.now).refusal t) block.now (downgrade by giver receiver weight) }
    ensures steps { IfOk result (λ s. s.now ≡ (given_by table.now).steps) }
{
    downgrade_refusal(block, fault(table), by, giver, receiver, weight)?;
    steps_of(table)
}

pub fn marks_allowed<'a>(
    block: &[u8],
    table: &'a Table,
    by: u32,
    subject: u32,
    marks: u32,
) -> Result<&'a [i16; 256], Refusal>
    ensures refusal { (t : List ℤ) → refused_with result ≡ refusal_on (lent (given_by table.now).refusal t) block.now (set_marks by subject marks) }
    ensures steps { IfOk result (λ s. s.now ≡ (given_by table.now).steps) }
{
    marks_refusal(block, fault(table), by, subject, marks)?;
    steps_of(table)
}

pub fn retire_allowed<'a>(
    block: &[u8],
    table: &'a Table,
    by: u32,
    subject: u32,
) -> Result<&'a [i16; 256], Refusal>
    ensures refusal { (t : List ℤ) → refused_with result ≡ refusal_on (lent (given_by table.now).refusal t) block.now (retire by subject) }
    ensures steps { IfOk result (λ s. s.now ≡ (given_by table.now).steps) }
{
    retire_refusal(block, fault(table), by, subject)?;
    steps_of(table)
}

pub fn order_allowed<'a>(
    block: &[u8],
    table: &'a Table,
    receiver: u32,
) -> Result<&'a [i16; 256], Refusal>
    ensures refusal { refused_with result ≡ order_refusal (given_by table.now).refusal block.now receiver }
    ensures steps { IfOk result (λ s. s.now ≡ (given_by table.now).steps) }
{
    order_refusal(block, fault(table), receiver)?;
    steps_of(table)
}

// A grant goes by no steps but those of its own search. Where its text gives no table, it is refused before the steps are looked at, and is lent document 01's.
pub fn grant_allowed(
    block: &[u8],
    table: &Table,
    giver: u32,
    receiver: u32,
    weight: u32,
    need: u32,
    bar: u32,
    kind: u32,
) -> Result<(), Refusal>
    requires { KeepsRule table.now }
    ensures { refused_with result ≡ refusal_on (given_by table.now) block.now (grant (granted giver receiver weight need bar kind)) }
{
    match table {
        Ok(steps) => grant_refusal(block, steps, 0, giver, receiver, weight, need, bar, kind),
        Err(_) => grant_refusal(
            block,
            &rules::steps(),
            fault(table),
            giver,
            receiver,
            weight,
            need,
            bar,
            kind,
        ),
    }
}

// Record 50: a sub-specification of the payment, which its sum has room for.

#![tactic(auto)]

ghost use Rattle.std.specs.Prelude.{◌≡◌, true, List, ◌++◌, ℕ, eqb, if◌then◌else◌};
ghost use Rattle.fields.specs.Bytes.{part};
ghost use Rattle.figures.specs.Figures.{amount};
ghost use Rattle.layout.specs.Findings.{brings};
ghost use Rattle.layout.specs.Rows.{first_fault, AllHold};
ghost use Rattle.rules.specs.Codes.{service_code};
ghost use Rattle.rules.specs.Layouts.{head50, kid50, sum50, amount50, record50};
ghost use Rattle.rules.specs.Payments.{is_kid_of};

use figures::amounts::Amount;
use figures::groups::Group;
use figures::totals::Totals;
use layout::Reason::{NotFixed, PastLimit, WrongForm};
use layout::{Fault, Finding, demand};
use limits::{MOST_OF_ALL, Record};
use record_shared::digits_at;
use rules::Assignment;

// Fields 1 to 5 of a record 50.
fn heading(r: &Record, a: &Assignment) -> Finding
    ensures { (f : Totals) (ks : List ℕ) → result ≡ first_fault f ks r.now (head50 a.now r.now) }
{
    let listed = fields::same_at(r, 5, 6, b"16") | fields::same_at(r, 5, 6, b"17");
    record_shared::belonging(r, a)?;
    demand(listed, NotFixed, 3)?;
    record_shared::same_number(r, a)
}

// Fields 1 to 5 of a record 50 are those of its transaction: told at once.
fn headed(r: &Record, a: &Assignment) -> bool
    ensures { result ≡ true → (f : Totals) (ks : List ℕ) → AllHold f ks r.now (head50 a.now r.now) }
{
    let code = fields::code_at(r, 5);
    record_shared::belongs_to(r, a.service)
        & ((code == 16) | (code == 17))
        & (record_shared::transaction_number(r) == Ok(a.number))
}

// Field 6 of a record 50, a KID; service 01 takes only the right end.
#[tactic(auto, unfolding(rules::specs::Payments::is_kid_of))]
pub fn kid_sound(r: &Record) -> bool
    ensures { result ≡ is_kid_of (service_code r.now) (part 16 40 r.now) }
{
    if fields::code_at(r, 3) == 1 {
        return fields::kid_right_at(r, 16, 40);
    }
    fields::kid_at(r, 16)
}

// Fields 1 to 6 of a record 50. Where all of it holds, no fault is looked for.
fn referring(r: &Record, a: &Assignment) -> Finding
    ensures { (f : Totals) (ks : List ℕ) → result ≡ first_fault f ks r.now (head50 a.now r.now ++ kid50 r.now) }
{
    if headed(r, a) & kid_sound(r) {
        return Ok(());
    }
    heading(r, a)?;
    demand(kid_sound(r), WrongForm, 6)
}

// The sum that a record 50 of this type adds to.
fn sum_for(code: u8, group: Group) -> Amount
    ensures { result ≡ (if eqb code 16 then group.specified else group.credited) }
{
    if code == 16 {
        return group.specified;
    }
    group.credited
}

// Field 7 of a record 50, which its sum has room for.
#[tactic(auto, unfolding(layout::specs::Rows::first_fault, fields::specs::Numbers::number_of))]
fn specifying(r: &Record, a: &Assignment) -> Result<Amount, Fault>
    ensures { (f : Totals) (ks : List ℕ) → result ≡ brings (first_fault f ks r.now (sum50 a.now r.now)) (amount (amount50 r.now)) }
{
    let n = digits_at(r, 7, 41, 57)?;
    let sum = sum_for(fields::code_at(r, 5), a.group);
    demand(sum.holds(Amount(n), Amount(MOST_OF_ALL)), PastLimit, 7)?;
    Ok(Amount(n))
}

// Record 50 whole: its amount, or the first fault in the order of its fields.
pub fn check50(r: &Record, a: Assignment) -> Result<Amount, Fault>
    ensures { (f : Totals) (ks : List ℕ) → result ≡ brings (first_fault f ks r.now (record50 a r.now)) (amount (amount50 r.now)) }
{
    referring(r, &a)?;
    let amount = specifying(r, &a)?;
    demand(fields::zeros_from(r, 58), NotFixed, 8)?;
    Ok(amount)
}

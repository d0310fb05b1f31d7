// Record 30, the payment: what it brings, or its first fault.

#![tactic(auto)]

ghost use Rattle.std.specs.Prelude.{◌≡◌, List, ℕ};
ghost use Rattle.layout.specs.Findings.{brings};
ghost use Rattle.layout.specs.Rows.{first_fault};
ghost use Rattle.rules.specs.Codes.{service_code};
ghost use Rattle.rules.specs.Layouts.{head30, tail30, record30};
ghost use Rattle.record_30.specs.Paid.{payment_in};

use dates::{Date, Window};
use figures::amounts::Amount;
use figures::counts::TransactionNumber;
use figures::totals::Totals;
use layout::Reason::{NotAddedUp, NotFixed, WrongForm};
use layout::{Fault, Finding, demand};
use limits::Record;
use record_30_fields::{kid_sound, listed, party};
use rules::Assignment;

// What a sound record 30 brings.
#[derive(Clone, Copy, Debug, PartialEq, Eq)]
pub struct Payment {
    pub number: TransactionNumber,
    pub date: Date,
    pub amount: Amount,
}

// The group before is whole; fields 1 to 3. Where all of it holds, no fault is looked for.
fn head(r: &Record, a: Assignment) -> Finding
    ensures { (f : Totals) (ks : List ℕ) → result ≡ first_fault f ks r.now (head30 a r.now) }
{
    let gives = a.group.gives(a.due);
    let code = fields::code_at(r, 5);
    if gives
        & record_shared::belongs_to(r, a.service)
        & listed(services::code_for(a.service), code)
    {
        return Ok(());
    }
    demand(gives, NotAddedUp, 0)?;
    record_shared::belonging(r, &a)?;
    demand(listed(fields::code_at(r, 3), code), NotFixed, 3)
}

// Fields 9 and 10. Merged into the loop over records, as all of a 30 is.
#[inline(always)]
#[tactic(auto, unfolding(layout::specs::Rows::first_fault))]
fn tail(r: &Record, service: u8) -> Finding
    requires { service ≡ service_code r.now }
    ensures { (f : Totals) (ks : List ℕ) → result ≡ first_fault f ks r.now (tail30 r.now) }
{
    demand(kid_sound(r, service), WrongForm, 9)?;
    demand(fields::few_zeros_at(r, 75, 80), NotFixed, 10)
}

// Record 30 whole: what it brings, or the first fault in the order of its fields.
pub fn check30(r: &Record, w: Window, a: Assignment, file: Totals) -> Result<Payment, Fault>
    ensures { (ks : List ℕ) → result ≡ brings (first_fault file ks r.now (record30 w a r.now)) (payment_in r.now) }
{
    head(r, a)?;
    let service = services::code_for(a.service);
    let number = record_30_values::number(r, a)?;
    let date = record_30_values::date(r, w, a)?;
    party(r, service)?;
    let amount = record_30_values::amount(r, a, file)?;
    tail(r, service)?;
    Ok(Payment {
        number,
        date,
        amount,
    })
}

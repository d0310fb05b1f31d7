// Fields that several record types share: the head outside assignments, where a record belongs, and what it repeats of its record 30.

#![tactic(auto)]

ghost use Rattle.std.specs.Prelude.{◌≡◌, true, List, [], ◌∷◌, ℕ, ◌≤◌, ◌+◌};
ghost use Rattle.std.specs.Option.{ok_or};
ghost use Rattle.fields.specs.Bytes.{part, Inside};
ghost use Rattle.fields.specs.Numbers.{number_of};
ghost use Rattle.figures.specs.Figures.{transaction_number};
ghost use Rattle.layout.specs.Findings.{fault, brings};
ghost use Rattle.layout.specs.declared.Reason.TheVariants.{WrongForm};
ghost use Rattle.layout.specs.Rules.{digits};
ghost use Rattle.layout.specs.Rows.{first_fault, AllHold};
ghost use Rattle.rules.specs.Fields.{on, number_in, transaction_field};
ghost use Rattle.rules.specs.Layouts.{outside, belongs, same_number, repeats};
ghost use Rattle.record_shared.specs.Heads.{Belonging};

use figures::counts::TransactionNumber;
use figures::totals::Totals;
use layout::Reason::{Disagrees, NotFixed, WrongForm};
use layout::{Fault, Finding, demand};
use limits::Record;
use rules::Assignment;
use services::Service;

// The number that a field of digits writes; 8 where its bytes are none. Merged into its callers, as the reader that it calls.
#[inline(always)]
pub fn digits_at(r: &[u8], field: u8, from: usize, to: usize) -> Result<u64, Fault>
    requires { Inside from to r.now × (to ≤ from + 16) }
    ensures { result ≡ ok_or (number_of (part from to r.now)) (fault WrongForm field) }
{
    let Some(n) = fields::number_at(r, from, to) else {
        return Err(Fault {
            reason: WrongForm,
            field,
        });
    };
    Ok(n)
}

// Field 5, a transaction's number.
#[tactic(auto, unfolding(layout::specs::Rows::first_fault, fields::specs::Numbers::number_of))]
pub fn transaction_number(r: &Record) -> Result<TransactionNumber, Fault>
    ensures { (f : Totals) (ks : List ℕ) → result ≡ brings (first_fault f ks r.now (on transaction_field digits ∷ [])) (transaction_number (number_in transaction_field r.now)) }
{
    let n = digits_at(r, 5, 9, 15)?;
    Ok(TransactionNumber(n as u32))
}

// Fields 1 to 3 of 10 and 89.
#[tactic(auto, unfolding(layout::specs::Rows::first_fault))]
pub fn outside(r: &Record) -> Finding
    ensures { (f : Totals) (ks : List ℕ) → result ≡ first_fault f ks r.now outside }
{
    demand(fields::same_at(r, 1, 2, b"NY"), NotFixed, 1)?;
    demand(fields::same_at(r, 3, 4, b"00"), NotFixed, 2)?;
    demand(fields::same_at(r, 5, 6, b"00"), NotFixed, 3)
}

// Fields 1 and 2 within the assignment.
#[tactic(auto, unfolding(layout::specs::Rows::first_fault))]
pub fn belonging(r: &Record, a: &Assignment) -> Finding
    ensures { (f : Totals) (ks : List ℕ) → result ≡ first_fault f ks r.now (belongs a.now r.now) }
{
    demand(fields::same_at(r, 1, 2, b"NY"), NotFixed, 1)?;
    let service = services::code_for(a.service);
    demand(fields::code_at(r, 3) == service, Disagrees, 2)
}

// Fields 1 and 2 belong to an assignment of the service: told by one comparison, of NY and the service's code as one number.
pub fn belongs_to(r: &Record, service: Service) -> bool
    ensures { result ≡ true → Belonging service r.now }
{
    let four = fields::four_at(r, 1);
    match service {
        Service::Autogiro => four == 0x3130594E,
        Service::Remittance => four == 0x3430594E,
    }
}

// Field 5 repeats the number of the transaction at hand.
pub fn same_number(r: &Record, a: &Assignment) -> Finding
    ensures { (f : Totals) (ks : List ℕ) → result ≡ first_fault f ks r.now (same_number a.now r.now) }
{
    let number = transaction_number(r)?;
    demand(number == a.number, Disagrees, 5)
}

// Fields 1 to 5 repeat the record 30 at hand.
pub fn repeats(r: &Record, a: &Assignment) -> bool
    ensures { result ≡ true → (f : Totals) (ks : List ℕ) → AllHold f ks r.now (repeats a.now r.now) }
{
    belongs_to(r, a.service)
        & (fields::code_at(r, 5) == a.code)
        & (transaction_number(r) == Ok(a.number))
}

// Fields 1 to 5 of 31, 40, 41 and 49, which repeat their record 30. Where all of them do, no fault is looked for. Merged into the loop over records: the address of the assignment would keep it in memory.
#[inline(always)]
pub fn repeating(r: &Record, a: &Assignment) -> Finding
    ensures { (f : Totals) (ks : List ℕ) → result ≡ first_fault f ks r.now (repeats a.now r.now) }
{
    if repeats(r, a) {
        return Ok(());
    }
    belonging(r, a)?;
    demand(fields::code_at(r, 5) == a.code, Disagrees, 3)?;
    same_number(r, a)
}

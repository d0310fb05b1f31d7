// Records after a record 30: its second half (31) and the payee's address (40).

#![tactic(auto)]

ghost use Rattle.std.specs.Prelude.{◌≡◌, true, List, ℕ};
ghost use Rattle.fields.specs.Bytes.{part, Inside};
ghost use Rattle.layout.specs.Rows.{first_fault, AllHold};
ghost use Rattle.rules.specs.Codes.{type_code};
ghost use Rattle.rules.specs.Layouts.{texts31, address40, record31, record40};
ghost use Rattle.rules.specs.Payments.{name_form, postal_form, filler_form};

use field_bytes::classes::Class;
use figures::totals::Totals;
use layout::Reason::{NotFixed, WrongForm};
use layout::{Finding, demand};
use limits::Record;
use rules::Assignment;

// Fields 6 to 9 of a record 31 hold. Zeros are text too, so that 64 positions are tested at once.
fn sound31(r: &Record) -> bool
    ensures { result ≡ true → (f : Totals) (ks : List ℕ) → AllHold f ks r.now texts31 }
{
    fields::all_at(Class::Text, r, 16, 79) & fields::few_zeros_at(r, 76, 80)
}

// Fields 6 to 9 of a record 31, for their first fault: where all of them hold, none is looked for. Kept out of the loop over records, which looks for it in few of them.
#[inline(never)]
#[tactic(auto, unfolding(layout::specs::Rows::first_fault))]
pub fn texts(r: &Record) -> Finding
    ensures { (f : Totals) (ks : List ℕ) → result ≡ first_fault f ks r.now texts31 }
{
    if sound31(r) {
        return Ok(());
    }
    demand(fields::all_at(Class::Text, r, 16, 25), WrongForm, 6)?;
    demand(fields::all_at(Class::Text, r, 26, 50), WrongForm, 7)?;
    demand(fields::all_at(Class::Text, r, 51, 75), WrongForm, 8)?;
    demand(fields::all_at(Class::Zero, r, 76, 80), NotFixed, 9)
}

// Text; for type 04 not blank.
#[tactic(auto, unfolding(rules::specs::Payments::name_form))]
fn name_at(code: u8, r: &[u8], from: usize, to: usize) -> bool
    requires { Inside from to r.now }
    ensures { result ≡ name_form code (part from to r.now) }
{
    let named = fields::all_at(Class::Text, r, from, to);
    if code == 4 {
        return named & !fields::all_at(Class::Blank, r, from, to);
    }
    named
}

// Digits or blanks; for type 04 digits.
#[tactic(auto, unfolding(rules::specs::Payments::postal_form))]
fn postal_at(code: u8, r: &[u8], from: usize, to: usize) -> bool
    requires { Inside from to r.now }
    ensures { result ≡ postal_form code (part from to r.now) }
{
    if code == 4 {
        return fields::all_at(Class::Digit, r, from, to);
    }
    fields::all_at(Class::DigitOrBlank, r, from, to)
}

// Digits or blanks; for type 04 blanks.
#[tactic(auto, unfolding(rules::specs::Payments::filler_form))]
fn filler_at(code: u8, r: &[u8], from: usize, to: usize) -> bool
    requires { Inside from to r.now }
    ensures { result ≡ filler_form code (part from to r.now) }
{
    if code == 4 {
        return fields::all_at(Class::Blank, r, from, to);
    }
    fields::all_at(Class::DigitOrBlank, r, from, to)
}

// Fields 6 to 10 of a record 40 of this type hold.
#[tactic(auto, unfolding(layout::specs::Rows::AllHold))]
fn sound40(r: &Record, code: u8) -> bool
    ensures { result ≡ true → (f : Totals) (ks : List ℕ) → AllHold f ks r.now (address40 code) }
{
    name_at(code, r, 16, 45)
        & postal_at(code, r, 46, 49)
        & filler_at(code, r, 50, 52)
        & name_at(code, r, 53, 77)
        & fields::all_at(Class::Zero, r, 78, 80)
}

// Fields 6 to 10 of a record 40 of its own type, for their first fault. Kept out of the loop too.
#[inline(never)]
#[tactic(auto, unfolding(layout::specs::Rows::first_fault))]
pub fn address(r: &Record) -> Finding
    ensures { (f : Totals) (ks : List ℕ) → result ≡ first_fault f ks r.now (address40 (type_code r.now)) }
{
    let code = fields::code_at(r, 5);
    demand(name_at(code, r, 16, 45), WrongForm, 6)?;
    demand(postal_at(code, r, 46, 49), WrongForm, 7)?;
    demand(filler_at(code, r, 50, 52), WrongForm, 8)?;
    demand(name_at(code, r, 53, 77), WrongForm, 9)?;
    demand(fields::all_at(Class::Zero, r, 78, 80), NotFixed, 10)
}

// Record 31 whole. Where all of it holds, no fault is looked for.
pub fn check31(r: &Record, a: Assignment) -> Finding
    ensures { (f : Totals) (ks : List ℕ) → result ≡ first_fault f ks r.now (record31 a r.now) }
{
    if record_shared::repeats(r, &a) & sound31(r) {
        return Ok(());
    }
    record_shared::repeating(r, &a)?;
    texts(r)
}

// Record 40 whole, looked at in the same way.
pub fn check40(r: &Record, a: Assignment) -> Finding
    ensures { (f : Totals) (ks : List ℕ) → result ≡ first_fault f ks r.now (record40 a r.now) }
{
    if record_shared::repeats(r, &a) & sound40(r, a.code) {
        return Ok(());
    }
    record_shared::repeating(r, &a)?;
    address(r)
}

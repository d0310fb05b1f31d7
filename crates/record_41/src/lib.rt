// Record 41: the second half of the payee's address.

#![tactic(auto)]

ghost use Rattle.std.specs.Prelude.{◌≡◌, true, List, ℕ};
ghost use Rattle.fields.specs.Bytes.{part};
ghost use Rattle.layout.specs.Rows.{first_fault, AllHold};
ghost use Rattle.rules.specs.Codes.{type_code};
ghost use Rattle.rules.specs.Layouts.{address41, record41};
ghost use Rattle.rules.specs.Payments.{country_form};

use field_bytes::classes::Class;
use figures::totals::Totals;
use layout::Reason::{NotFixed, WrongForm};
use layout::{Finding, demand};
use limits::Record;
use rules::Assignment;

// Field 8, the country: Text; for type 04 blanks.
#[tactic(auto, unfolding(rules::specs::Payments::country_form))]
fn country_at(code: u8, r: &Record) -> bool
    ensures { result ≡ country_form code (part 76 78 r.now) }
{
    if code == 4 {
        return fields::all_at(Class::Blank, r, 76, 78);
    }
    fields::all_at(Class::Text, r, 76, 78)
}

// Fields 6 to 9 of a record 41 of this type hold. Both texts are tested at once.
fn sound41(r: &Record, code: u8) -> bool
    ensures { result ≡ true → (f : Totals) (ks : List ℕ) → AllHold f ks r.now (address41 code) }
{
    fields::all_at(Class::Text, r, 16, 75)
        & country_at(code, r)
        & fields::all_at(Class::Zero, r, 79, 80)
}

// Fields 6 to 9 of a record 41 of its own type, for their first fault. Where all of them hold, none is looked for.
#[tactic(auto, unfolding(layout::specs::Rows::first_fault))]
pub fn second_address(r: &Record) -> Finding
    ensures { (f : Totals) (ks : List ℕ) → result ≡ first_fault f ks r.now (address41 (type_code r.now)) }
{
    let code = fields::code_at(r, 5);
    if sound41(r, code) {
        return Ok(());
    }
    demand(fields::all_at(Class::Text, r, 16, 45), WrongForm, 6)?;
    demand(fields::all_at(Class::Text, r, 46, 75), WrongForm, 7)?;
    demand(country_at(code, r), WrongForm, 8)?;
    demand(fields::all_at(Class::Zero, r, 79, 80), NotFixed, 9)
}

pub fn check41(r: &Record, a: Assignment) -> Finding
    ensures { (f : Totals) (ks : List ℕ) → result ≡ first_fault f ks r.now (record41 a r.now) }
{
    record_shared::repeating(r, &a)?;
    second_address(r)
}

// The own rules of a record that was made: the rows of its table that look at the record alone, each by the code that checking has for it.
// Fields 7, 9 and 10 of a 30 are looked at here: the compiler merges the functions that checking has for them into its loop only while they have one caller.

#![tactic(auto, unfolding(layout::specs::Rows::first_fault))]

ghost use Rattle.std.specs.Prelude.{◌≡◌, ◌&&◌, List, ℕ, eqb};
ghost use Rattle.fields.specs.Bytes.{part};
ghost use Rattle.fields.specs.Kids.{is_reference};
ghost use Rattle.layout.specs.Rows.{first_fault};
ghost use Rattle.rules.specs.Alone.{own_table};
ghost use Rattle.rules.specs.Codes.{service_code, type_code};
ghost use Rattle.rules.specs.Layouts.{party30, tail30};
ghost use Rattle.rules.specs.Payments.{kid_form};
ghost use Rattle.make_rules.specs.Pieces.{serviced, headed, keyed, dated, priced, specified};

use field_bytes::classes::Class;
use figures::totals::Totals;
use layout::Reason::{NotADate, NotFixed, PastLimit, WrongForm};
use layout::{Fault, Finding, demand};
use limits::Record;
use record_shared::{digits_at, transaction_number};
use rules::{Kind, Places};

// Fields 1 and 2: NY, and one of the two services.
#[tactic(auto, unfolding(layout::specs::Rows::first_fault, layout::specs::Rules::one_of))]
fn service(r: &Record) -> Finding
    ensures { (f : Totals) (ks : List ℕ) → result ≡ first_fault f ks r.now serviced }
{
    let one = fields::same_at(r, 3, 4, b"01") | fields::same_at(r, 3, 4, b"04");
    demand(fields::same_at(r, 1, 2, b"NY"), NotFixed, 1)?;
    demand(one, NotFixed, 2)
}

// Fields 1 to 5 of 30, 31, 40, 41 and 49: a service, a type of that service, a transaction number.
fn heading(r: &Record) -> Finding
    ensures { (f : Totals) (ks : List ℕ) → result ≡ first_fault f ks r.now (headed r.now) }
{
    let listed = record_30_fields::listed(fields::code_at(r, 3), fields::code_at(r, 5));
    service(r)?;
    demand(listed, NotFixed, 3)?;
    transaction_number(r)?;
    Ok(())
}

// Fields 5 and 6 of a 20.
fn key(r: &Record) -> Finding
    ensures { (f : Totals) (ks : List ℕ) → result ≡ first_fault f ks r.now keyed }
{
    digits_at(r, 5, 9, 17)?;
    digits_at(r, 6, 18, 24)?;
    Ok(())
}

// Field 6 of a 30, a date.
fn date(r: &Record) -> Finding
    ensures { (f : Totals) (ks : List ℕ) → result ≡ first_fault f ks r.now dated }
{
    let Some(pairs) = fields::pairs_at(r, 16) else {
        return Err(Fault {
            reason: WrongForm,
            field: 6,
        });
    };
    demand(record_30_values::day_in(pairs).is_some(), NotADate, 6)
}

// Field 8 of a 30, within its type's own limit.
fn amount(r: &Record) -> Finding
    ensures { (f : Totals) (ks : List ℕ) → result ≡ first_fault f ks r.now (priced r.now) }
{
    let n = digits_at(r, 8, 33, 49)?;
    let kept = record_30_values::keeps_own_limit(fields::code_at(r, 5), n);
    demand(kept, PastLimit, 8)
}

// Field 7 of a 30 is a reference, which service 01 takes.
fn referred(r: &Record, service: u8) -> bool
    ensures { result ≡ (eqb service 1 && is_reference (part 22 32 r.now)) }
{
    service == 1 && fields::reference_at(r, 22, 32)
}

// Field 7 of a 30: a reference, eleven digits of any sort for type 04 of service 04, or an account.
fn party(r: &Record, service: u8) -> Finding
    requires { service ≡ service_code r.now }
    ensures { (f : Totals) (ks : List ℕ) → result ≡ first_fault f ks r.now (party30 r.now) }
{
    if referred(r, service) {
        return Ok(());
    }
    let account = fields::account_at(r, 22, 32);
    if (service != 1) & (fields::code_at(r, 5) == 4) & record_30_fields::is_number(account) {
        return Ok(());
    }
    layout::account_found(account, 7)
}

// Field 9 of a 30, by service and type.
fn kid(r: &Record, service: u8) -> bool
    requires { service ≡ service_code r.now }
    ensures { result ≡ kid_form (service_code r.now) (type_code r.now) (part 50 74 r.now) }
{
    if service == 1 {
        return fields::all_at(Class::Blank, r, 50, 74) || fields::kid_right_at(r, 50, 74);
    }
    if fields::code_at(r, 5) == 12 {
        return fields::kid_at(r, 50);
    }
    fields::all_at(Class::Blank, r, 50, 74)
}

// Fields 9 and 10 of a 30.
fn tail(r: &Record, service: u8) -> Finding
    requires { service ≡ service_code r.now }
    ensures { (f : Totals) (ks : List ℕ) → result ≡ first_fault f ks r.now (tail30 r.now) }
{
    demand(kid(r, service), WrongForm, 9)?;
    demand(fields::all_at(Class::Zero, r, 75, 80), NotFixed, 10)
}

// Fields 7 and 8 of a 50.
fn specifying(r: &Record) -> Finding
    ensures { (f : Totals) (ks : List ℕ) → result ≡ first_fault f ks r.now specified }
{
    digits_at(r, 7, 41, 57)?;
    demand(fields::zeros_from(r, 58), NotFixed, 8)
}

// A 10 asks nothing of other records.
pub fn own10(r: &Record) -> Finding
    ensures { (f : Totals) (ks : List ℕ) → result ≡ first_fault f ks r.now (own_table Kind.R10 r.now) }
{
    record_10_20::check10(r)
}

pub fn own20(r: &Record) -> Finding
    ensures { (f : Totals) (ks : List ℕ) → result ≡ first_fault f ks r.now (own_table Kind.R20 r.now) }
{
    record_10_20::head(r)?;
    key(r)?;
    record_10_20::tail(r)
}

pub fn own30(r: &Record) -> Finding
    ensures { (f : Totals) (ks : List ℕ) → result ≡ first_fault f ks r.now (own_table Kind.R30 r.now) }
{
    let service = fields::code_at(r, 3);
    heading(r)?;
    date(r)?;
    party(r, service)?;
    amount(r)?;
    tail(r, service)
}

pub fn own31(r: &Record) -> Finding
    ensures { (f : Totals) (ks : List ℕ) → result ≡ first_fault f ks r.now (own_table Kind.R31 r.now) }
{
    heading(r)?;
    record_31_40::texts(r)
}

pub fn own40(r: &Record) -> Finding
    ensures { (f : Totals) (ks : List ℕ) → result ≡ first_fault f ks r.now (own_table Kind.R40 r.now) }
{
    heading(r)?;
    record_31_40::address(r)
}

pub fn own41(r: &Record) -> Finding
    ensures { (f : Totals) (ks : List ℕ) → result ≡ first_fault f ks r.now (own_table Kind.R41 r.now) }
{
    let own = record_41::second_address(r);
    heading(r).and(own)
}

// By itself a 49 finds every place free.
pub fn own49(r: &Record) -> Finding
    ensures { (f : Totals) (ks : List ℕ) → result ≡ first_fault f ks r.now (own_table Kind.R49 r.now) }
{
    heading(r)?;
    record_49::own_fields(r, Places::none())?;
    Ok(())
}

#[tactic(auto, unfolding(layout::specs::Rows::first_fault, layout::specs::Rules::one_of))]
pub fn own50(r: &Record) -> Finding
    ensures { (f : Totals) (ks : List ℕ) → result ≡ first_fault f ks r.now (own_table Kind.R50 r.now) }
{
    let listed = fields::same_at(r, 5, 6, b"16") | fields::same_at(r, 5, 6, b"17");
    service(r)?;
    demand(listed, NotFixed, 3)?;
    transaction_number(r)?;
    demand(record_50::kid_sound(r), WrongForm, 6)?;
    specifying(r)
}

// Single fields of a record 30, the payment: its type, its payee or payer, its KID.

#![tactic(auto)]

ghost use Rattle.std.specs.Prelude.{◌≡◌, ◌&&◌, List, ℕ, eqb};
ghost use Rattle.fields.specs.Bytes.{part};
ghost use Rattle.fields.specs.Accounts.{is_number};
ghost use Rattle.fields.specs.Kids.{is_reference};
ghost use Rattle.layout.specs.Rows.{member, first_fault};
ghost use Rattle.rules.specs.Codes.{service_code, type_code};
ghost use Rattle.rules.specs.Payments.{types_for, is_type, kid_form};
ghost use Rattle.rules.specs.Layouts.{party30};

use field_accounts::Account;
use field_bytes::classes::Class;
use figures::totals::Totals;
use layout::Finding;
use limits::Record;

// A type of service 04, of which each has a bit; 65 and 66 stand where 1 and 2 do.
#[tactic(auto, using(crate::proofs::Types::types_by_bits))]
fn remitted(code: u8) -> bool
    ensures { result ≡ member code (types_for 4) }
{
    let types: u64 = 0x400000210005101E;
    (code < 67) & ((types >> (code % 64)) % 2 == 1)
}

// A type of the service, both by their codes.
#[tactic(auto, using(crate::proofs::Types::types01, crate::proofs::Types::types04))]
pub fn listed(service: u8, code: u8) -> bool
    ensures { result ≡ is_type service code }
{
    if service == 1 {
        return (code == 2) | (code == 3);
    }
    (service == 4) & remitted(code)
}

// The account's eleven bytes are digits.
pub fn is_number(account: Account) -> bool
    ensures { result ≡ is_number account }
{
    !matches!(account, Account::NotDigits)
}

// Field 7 is a reference, which service 01 takes.
fn referred(r: &Record, service: u8) -> bool
    ensures { result ≡ (eqb service 1 && is_reference (part 22 32 r.now)) }
{
    service == 1 && fields::reference_at(r, 22, 32)
}

// Field 7, payee or payer, of a record of the service: a right account, told at once; a reference; eleven digits of any sort for type 04 of service 04.
pub fn party(r: &Record, service: u8) -> Finding
    requires { service ≡ service_code r.now }
    ensures { (f : Totals) (ks : List ℕ) → result ≡ first_fault f ks r.now (party30 r.now) }
{
    if fields::right_account_at(r, 22) {
        return Ok(());
    }
    if referred(r, service) {
        return Ok(());
    }
    let account = fields::account_at(r, 22, 32);
    if (service != 1) & (fields::code_at(r, 5) == 4) & is_number(account) {
        return Ok(());
    }
    layout::account_found(account, 7)
}

// Field 9, by service and type. Merged into the loop over records.
#[inline(always)]
#[tactic(auto, unfolding(rules::specs::Payments::kid_form))]
pub fn kid_sound(r: &Record, service: u8) -> bool
    requires { service ≡ service_code r.now }
    ensures { result ≡ kid_form (service_code r.now) (type_code r.now) (part 50 74 r.now) }
{
    if service == 1 {
        return fields::blank_or_right_at(r, 50, 74);
    }
    if fields::code_at(r, 5) == 12 {
        return fields::kid_at(r, 50);
    }
    fields::all_at(Class::Blank, r, 50, 74)
}

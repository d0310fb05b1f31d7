// The records that start something: 10 a file, 20 an assignment.

#![tactic(auto)]

ghost use Rattle.std.specs.Prelude.{◌≡◌, List, true, ℕ, ◌+◌, ◌*◌, ◌<◌, ◌≤◌, ◌++◌, length, take};
ghost use Rattle.fields.specs.Bytes.{every, is_digit, part};
ghost use Rattle.layout.specs.Findings.{brings};
ghost use Rattle.layout.specs.Rows.{first_fault, member};
ghost use Rattle.rules.specs.Codes.{key_in};
ghost use Rattle.rules.specs.Layouts.{record10, may_open, head20, key20, record20, tail20};

use figures::totals::Totals;
use layout::Reason::{KeySeen, NotAddedUp, NotFixed, TooManyAssignments};
use layout::{Fault, Finding, demand};
use limits::{MOST_ASSIGNMENTS, Record};
use record_shared::digits_at;
use rules::Assignment;

pub fn check10(r: &Record) -> Finding
    ensures { (f : Totals) (ks : List ℕ) → result ≡ first_fault f ks r.now record10 }
{
    record_shared::outside(r)?;
    digits_at(r, 5, 9, 16)?;
    digits_at(r, 6, 17, 23)?;
    demand(fields::same_at(r, 24, 31, b"00008080"), NotFixed, 7)?;
    demand(fields::zeros_from(r, 32), NotFixed, 8)
}

// An agreement and an assignment number as one key.
fn joined(agreement: u64, number: u64) -> u64
    requires { (agreement < 1000000000) × (number < 10000000) }
    ensures { result ≡ agreement * 10000000 + number }
{
    agreement * 10000000 + number
}

// The key of a record 20: agreement and assignment number together.
pub fn key_of(r: &Record) -> u64
    ensures { every is_digit (part 9 17 r.now) ≡ true → every is_digit (part 18 24 r.now) ≡ true → result ≡ key_in r.now }
{
    let agreement = fields::number_at(r, 9, 17).unwrap_or(0);
    let number = fields::number_at(r, 18, 24).unwrap_or(0);
    joined(agreement, number)
}

// The key stands among these. No early exit: the loop becomes vector code.
pub fn seen(keys: &[u64], key: u64) -> bool
    ensures { result ≡ member key keys.now }
{
    let mut found = false;
    for other in keys {
        found |= key == *other;
    }
    found
}

// A 20 may open an assignment: there is room for one more, and the group before it gives its amount.
#[tactic(auto, unfolding(layout::specs::Rows::first_fault))]
fn may_open(a: Assignment, file: Totals) -> Finding
    ensures { (ks r : List ℕ) → result ≡ first_fault file ks r (may_open a) }
{
    demand(
        (file.assignments.0 as usize) < MOST_ASSIGNMENTS,
        TooManyAssignments,
        4,
    )?;
    demand(a.group.gives(a.due), NotAddedUp, 0)
}

// Fields 1 to 3 of a record 20.
#[tactic(auto, unfolding(layout::specs::Rows::first_fault, layout::specs::Rules::one_of))]
pub fn head(r: &Record) -> Finding
    ensures { (f : Totals) (ks : List ℕ) → result ≡ first_fault f ks r.now head20 }
{
    let service = fields::same_at(r, 3, 4, b"01") | fields::same_at(r, 3, 4, b"04");
    demand(fields::same_at(r, 1, 2, b"NY"), NotFixed, 1)?;
    demand(service, NotFixed, 2)?;
    demand(fields::same_at(r, 5, 6, b"00"), NotFixed, 3)
}

// Fields 7 and 8 of a record 20: the account, then zeros.
pub fn tail(r: &Record) -> Finding
    ensures { (f : Totals) (ks : List ℕ) → result ≡ first_fault f ks r.now tail20 }
{
    layout::account_found(fields::account_at(r, 25, 35), 7)?;
    demand(fields::zeros_from(r, 36), NotFixed, 8)
}

// Fields 5 to 8 of a record 20: a key that no assignment before has, and what stands after it.
fn behind_head(r: &Record, keys: &[u64]) -> Result<u64, Fault>
    ensures { (f : Totals) → result ≡ brings (first_fault f keys.now r.now (key20 r.now ++ tail20)) (key_in r.now) }
{
    let agreement = digits_at(r, 5, 9, 17)?;
    let number = digits_at(r, 6, 18, 24)?;
    let key = joined(agreement, number);
    demand(!seen(keys, key), KeySeen, 6)?;
    tail(r)?;
    Ok(key)
}

// The key of a record 20, or its first fault. The first keys are those of the assignments before.
pub fn check20(r: &Record, a: Assignment, file: Totals, keys: &[u64]) -> Result<u64, Fault>
    requires { file.assignments.0 ≤ length keys.now }
    ensures { result ≡ brings (first_fault file (take file.assignments.0 keys.now) r.now (record20 a r.now)) (key_in r.now) }
{
    may_open(a, file)?;
    head(r)?;
    behind_head(r, &keys[..file.assignments.0 as usize])
}

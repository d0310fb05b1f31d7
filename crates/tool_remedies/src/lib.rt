// What would be right in a refused field, where the rules know it, and which record types may stand next.

#![tactic(auto)]

ghost use Rattle.std.specs.Prelude.{◌≡◌, length};
ghost use Rattle.limits.specs.Limits.{record_bytes};
ghost use Rattle.figures.specs.Totals.{none};
ghost use Rattle.fields.specs.Accounts.{account_of};
ghost use Rattle.rules.specs.Order.{may_follow};
ghost use Rattle.rules.specs.Run.{records_of};
ghost use Rattle.tool_walk.specs.Seen.{outside_of, seen_in, Followed};
ghost use Rattle.tool_remedies.specs.Remedies.{account_part, account_for, remedy_for, at_hand, next_types};

use field_accounts::Account;
use figures::amounts::Amount;
use figures::groups::Group;
use layout::Reason;
use limits::{RECORD_BYTES, Record};
use rules::{Assignment, Kind, Mode, Places};
use std::fmt;
use tool_fixed::Remedy;
use tool_walk::Seen;

// A digit that is wrong in an account.
fn account(kind: Kind, r: &Record) -> Remedy
    ensures { result ≡ account_for kind r.now }
{
    match account_in(kind, r) {
        Account::WrongDigit(digit) => Remedy::Digit(digit),
        Account::NoRightDigit => Remedy::NoDigit,
        Account::Right | Account::NotDigits => Remedy::Unknown,
    }
}

fn account_in(kind: Kind, r: &Record) -> Account
    ensures { result ≡ account_of (account_part kind r.now) }
{
    match kind {
        Kind::R20 => fields::account_at(r, 25, 35),
        _ => fields::account_at(r, 22, 32),
    }
}

// What would be right in this field of the record after the others; of what is no record nothing is known.
pub fn remedy_for(reason: Reason, field: u8, before: &[u8], r: &[u8]) -> Remedy
    ensures { length r.now ≡ record_bytes → Followed (outside_of Kind.Other none) (records_of before.now) → result ≡ remedy_for reason field (seen_in (records_of before.now)) r.now }
{
    if r.len() != RECORD_BYTES {
        return Remedy::Unknown;
    }
    right_in(reason, field, before, rules::record_at(r, 0))
}

fn right_in(reason: Reason, field: u8, before: &[u8], r: &Record) -> Remedy
    ensures { Followed (outside_of Kind.Other none) (records_of before.now) → result ≡ remedy_for reason field (seen_in (records_of before.now)) r.now }
{
    let kind = run_order::kind_of(r);
    match reason {
        Reason::NotFixed => tool_fixed::fixed(kind, field, fields::code_at(r, 3)),
        Reason::WrongAccount => account(kind, r),
        Reason::Disagrees => tool_expected::repeated(kind, field, tool_walk::seen_in(before)),
        Reason::WrongFigure => tool_expected::figure_of(kind, field, tool_walk::seen_in(before)),
        _ => Remedy::Unknown,
    }
}

// The assignment at hand, as far as it decides what may follow.
fn at_hand(seen: Seen) -> Assignment
    ensures { result ≡ at_hand seen }
{
    Assignment {
        last: seen.last,
        service: seen.service,
        totals: seen.totals,
        number: seen.number,
        code: seen.code,
        due: Amount(0),
        group: Group::empty(),
        places: Places::none(),
    }
}

// The record types that may stand next: by what has come, in a file or in a draft.
#[derive(Clone, Copy, Debug, PartialEq, Eq)]
pub struct NextTypes {
    pub mode: Mode,
    pub behind: Assignment,
}

// The record types that may stand after these records.
pub fn types_after(mode: Mode, before: &[u8]) -> NextTypes
    ensures { Followed (outside_of Kind.Other none) (records_of before.now) → result ≡ next_types mode (seen_in (records_of before.now)) }
{
    NextTypes {
        mode,
        behind: at_hand(tool_walk::seen_in(before)),
    }
}

impl NextTypes {
    // Whether a record of this type is one of them.
    pub fn has(self, kind: Kind) -> bool
        ensures { result ≡ may_follow self.mode self.behind kind }
    {
        run_order::may_follow(self.mode, self.behind, kind)
    }
}

// In the order in which they are told.
const TYPES: [Kind; 10] = [
    Kind::R10,
    Kind::R20,
    Kind::R30,
    Kind::R31,
    Kind::R40,
    Kind::R41,
    Kind::R49,
    Kind::R50,
    Kind::R88,
    Kind::R89,
];

impl fmt::Display for NextTypes {
    fn fmt<W: fmt::Write>(&self, f: &mut fmt::Formatter<W>) -> fmt::Result {
        let mut types = TYPES.into_iter().filter(|kind| self.has(*kind));
        let Some(first) = types.next() else {
            return f.write_str("Nothing");
        };
        write!(f, "A record {}", run_order::number_of(first))?;
        for kind in types {
            write!(f, " or {}", run_order::number_of(kind))?;
        }
        Ok(())
    }
}

// What is seen in the records before a refused one: the last record, the assignment, the transaction, and the figures.

#![tactic(auto, unfolding(crate::specs::Seen::has_room))]

ghost use Rattle.std.specs.Prelude.{◌≡◌, true, Some};
ghost use Rattle.dates.specs.Dates.{read_day};
ghost use Rattle.rules.specs.Payments.{the_date};
ghost use Rattle.rules.specs.Run.{records_of};
ghost use Rattle.figures.specs.Totals.{none};
ghost use Rattle.tool_walk.specs.Seen.{outside_of, passed_on, paid_on, onward_for, onward, seen_in, has_room, Takes, Payable, Follows, Followed};

use dates::Date;
use figures::amounts::Amount;
use figures::counts::TransactionNumber;
use figures::totals::{AssignmentTotals, Totals};
use limits::{MOST_OF_ALL, MOST_RECORDS, Record};
use rules::Kind;
use services::Service;

// The last transaction number: it has seven digits.
pub const LAST_NUMBER: u64 = 9_999_999;

#[derive(Clone, Copy, Debug, PartialEq, Eq)]
pub struct Seen {
    pub last: Kind,
    pub service: Service,
    // the transaction's type and number; 0 before the first
    pub code: u8,
    pub number: TransactionNumber,
    // the assignment's figures, and the file's
    pub totals: AssignmentTotals,
    pub file: Totals,
}

// After a record of this type, before any assignment.
fn outside(kind: Kind, file: Totals) -> Seen
    ensures { result ≡ outside_of kind file }
{
    Seen {
        last: kind,
        service: Service::Remittance,
        code: 0,
        number: TransactionNumber(0),
        totals: AssignmentTotals::none(),
        file,
    }
}

// Figures that take a record more: no sound file has larger ones.
fn has_room(t: Totals) -> bool
    ensures { result ≡ has_room t }
{
    ((t.assignments.0 as usize) < MOST_RECORDS)
        & ((t.transactions.0 as usize) < MOST_RECORDS)
        & ((t.records.0 as usize) < MOST_RECORDS)
        & (t.sum.0 <= MOST_OF_ALL)
}

fn opened(seen: Seen, r: &Record) -> Seen
    requires { has_room seen.file ≡ true }
    ensures { result ≡ onward_for Kind.R20 r.now seen }
{
    Seen {
        service: services::service_for(fields::code_at(r, 3)),
        totals: AssignmentTotals::none().with_assignment(),
        ..outside(Kind::R20, seen.file.with_assignment())
    }
}

fn passed(seen: Seen, kind: Kind) -> Seen
    requires { (has_room seen.file ≡ true) × (has_room seen.totals.totals ≡ true) }
    ensures { result ≡ passed_on kind seen }
{
    Seen {
        last: kind,
        totals: seen.totals.with_record(),
        file: seen.file.with_record(),
        ..seen
    }
}

fn date_from(ddmmyy: u64) -> Date
    ensures { result ≡ the_date (read_day ddmmyy) }
{
    dates::read_day(ddmmyy).unwrap_or(Date(0))
}

// After a record 30 of this number, amount and date; none where a sum does not take the amount.
fn with_payment(seen: Seen, code: u8, number: u32, amount: Amount, date: Date) -> Option<Seen>
    requires { (has_room seen.file ≡ true) × (has_room seen.totals.totals ≡ true) }
    ensures { Takes seen amount → result ≡ Some (paid_on code number amount date seen) }
{
    if !seen.totals.totals.sum.holds(amount, Amount(MOST_OF_ALL)) {
        return None;
    }
    if !seen.file.sum.holds(amount, Amount(MOST_OF_ALL)) {
        return None;
    }
    Some(Seen {
        last: Kind::R30,
        code,
        number: TransactionNumber(number),
        totals: seen.totals.with_transaction(amount, date),
        file: seen.file.with_transaction(amount, date),
        ..seen
    })
}

// None where the record was not found sound.
fn paid(seen: Seen, r: &Record) -> Option<Seen>
    requires { (has_room seen.file ≡ true) × (has_room seen.totals.totals ≡ true) }
    ensures { Payable seen r.now → result ≡ Some (onward_for Kind.R30 r.now seen) }
{
    let number = fields::number_at(r, 9, 15)?;
    let ddmmyy = fields::number_at(r, 16, 21)?;
    let amount = fields::number_at(r, 33, 49)?;
    if LAST_NUMBER < number {
        return None;
    }
    let code = fields::code_at(r, 5);
    with_payment(seen, code, number as u32, Amount(amount), date_from(ddmmyy))
}

// After one record more; none where it was not found sound.
fn grown(seen: Seen, r: &Record) -> Option<Seen>
    ensures { Follows seen r.now → result ≡ Some (onward r.now seen) }
{
    if !has_room(seen.file) {
        return None;
    }
    if !has_room(seen.totals.totals) {
        return None;
    }
    match run_order::kind_of(r) {
        Kind::R10 => Some(outside(Kind::R10, seen.file.with_record())),
        Kind::R20 => Some(opened(seen, r)),
        Kind::R30 => paid(seen, r),
        Kind::Other => None,
        kind => Some(passed(seen, kind)),
    }
}

// After all these records.
pub fn seen_in(records: &[u8]) -> Seen
    ensures { Followed (outside_of Kind.Other none) (records_of records.now) → result ≡ seen_in (records_of records.now) }
{
    let mut seen = outside(Kind::Other, Totals::none());
    for r in rules::records_of(records) {
        seen = grown(seen, r).unwrap_or(seen);
    }
    seen
}

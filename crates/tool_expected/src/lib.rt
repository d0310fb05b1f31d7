// What a field must have by the records before it: what it repeats, the next number, the figures of an end record.

#![tactic(auto, unfolding(crate::specs::Expected::next_number, crate::specs::Expected::repeated_for, crate::specs::Expected::figure_in))]

ghost use Rattle.std.specs.Prelude.{◌≡◌};
ghost use Rattle.tool_expected.specs.Expected.{next_number, number_after, repeated_for, figure_in, figure_for};

use dates::Date;
use figures::totals::Totals;
use rules::Kind;
use tool_fixed::Remedy;
use tool_walk::{LAST_NUMBER, Seen};

// The number of the record 30 after this one.
fn next_number(number: u64) -> Remedy
    ensures { result ≡ next_number number }
{
    if number == 0 {
        return Remedy::AboveZero;
    }
    if LAST_NUMBER <= number {
        return Remedy::NoneLeft;
    }
    Remedy::Value {
        number: number + 1,
        width: 7,
    }
}

// A record 30 has the next number, any other repeats the last one.
fn number_after(kind: Kind, number: u64) -> Remedy
    ensures { result ≡ number_after kind number }
{
    match kind {
        Kind::R30 => next_number(number),
        _ => Remedy::Value { number, width: 7 },
    }
}

// What a field must repeat that is refused as disagreeing: the service, the type, the transaction number or the next one.
pub fn repeated(kind: Kind, field: u8, seen: Seen) -> Remedy
    ensures { result ≡ repeated_for kind field seen }
{
    let (number, width) = match field {
        2 => (services::code_for(seen.service) as u64, 2),
        3 => (seen.code as u64, 2),
        _ => return number_after(kind, seen.number.0 as u64),
    };
    Remedy::Value { number, width }
}

// A figure of an end record, which counts itself.
fn figure(field: u8, t: Totals, last: Date) -> Remedy
    ensures { result ≡ figure_in field t last }
{
    let (number, width) = match field {
        5 => (t.transactions.0 as u64, 8),
        6 => (t.records.0 as u64 + 1, 8),
        7 => (t.sum.0, 17),
        8 => (dates::ddmmyy_of(t.first), 6),
        _ => (dates::ddmmyy_of(last), 6),
    };
    Remedy::Value { number, width }
}

// An 89 has the file's figures, an 88 its assignment's.
pub fn figure_of(kind: Kind, field: u8, seen: Seen) -> Remedy
    ensures { result ≡ figure_for kind field seen }
{
    match kind {
        Kind::R89 => figure(field, seen.file, seen.totals.last),
        _ => figure(field, seen.totals.totals, seen.totals.last),
    }
}

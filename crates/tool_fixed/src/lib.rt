// The fixed value of each field of each record type, and what a field may be told to have.

#![tactic(auto, unfolding(crate::specs::Fixed::message_fields, crate::specs::Fixed::fixed_for))]

ghost use Rattle.std.specs.Prelude.{◌≡◌};
ghost use Rattle.tool_fixed.specs.Fixed.{types_of, message_fields, fixed_fields, fixed_for};

use rules::Kind;
use std::fmt;

// Values that a field chooses from.
#[derive(Clone, Copy, Debug, PartialEq, Eq)]
pub enum Choice {
    Services,
    ClaimTypes,
    RemittanceTypes,
    SpecificationTypes,
    Lines,
    Columns,
}

impl fmt::Display for Choice {
    fn fmt<W: fmt::Write>(&self, f: &mut fmt::Formatter<W>) -> fmt::Result {
        f.write_str(match self {
            Choice::Services => "01 or 04",
            Choice::ClaimTypes => "02 or 03 (service 01)",
            Choice::RemittanceTypes => {
                "01, 02, 03, 04, 12, 16, 18, 32, 37, 62, 65 or 66 (service 04)"
            }
            Choice::SpecificationTypes => "16 or 17",
            Choice::Lines => "001 to 021, or 000 for a text without a place,",
            Choice::Columns => "1 or 2, or 0 for a text without a place,",
        })
    }
}

#[derive(Clone, Copy, Debug, PartialEq, Eq)]
pub enum Remedy {
    // the rules do not know it
    Unknown,
    // this number, in so many digits
    Value { number: u64, width: u8 },
    // the letters NY
    Start,
    Zeros,
    OneOf(Choice),
    // a first number above 0, and none after the last one
    AboveZero,
    NoneLeft,
    // the account's last digit; none where the ten before it cannot be right
    Digit(u8),
    NoDigit,
}

// Each service has its own types of record 30.
fn types_of(service: u8) -> Remedy
    ensures { result ≡ types_of service }
{
    if service == 1 {
        return Remedy::OneOf(Choice::ClaimTypes);
    }
    Remedy::OneOf(Choice::RemittanceTypes)
}

// Of a message: service 04 has no mark 3 before the line.
fn message_fields(service: u8) -> [Remedy; 7]
    ensures { result ≡ message_fields service }
{
    let services = Remedy::OneOf(Choice::Services);
    let types = types_of(service);
    let zeros = Remedy::Zeros;
    let mark = Remedy::Value {
        number: 3,
        width: 1,
    };
    let line = Remedy::OneOf(Choice::Lines);
    let column = Remedy::OneOf(Choice::Columns);
    if service == 4 {
        return [services, types, zeros, zeros, line, column, zeros];
    }
    [services, types, zeros, zeros, mark, line, column]
}

// What fields 2 to 8 of a record of this type and service must have where they are refused with 7.
fn fixed_fields(kind: Kind, service: u8) -> [Remedy; 7]
    ensures { result ≡ fixed_fields kind service }
{
    let zeros = Remedy::Zeros;
    let none = Remedy::Value {
        number: 0,
        width: 2,
    };
    let services = Remedy::OneOf(Choice::Services);
    let types = types_of(service);
    let receiver = Remedy::Value {
        number: 8080,
        width: 8,
    };
    let specified = Remedy::OneOf(Choice::SpecificationTypes);
    match kind {
        Kind::R10 => [none, none, zeros, zeros, zeros, receiver, zeros],
        Kind::R20 => [services, none, zeros, zeros, zeros, zeros, zeros],
        Kind::R30 | Kind::R31 | Kind::R40 | Kind::R41 => {
            [services, types, zeros, zeros, zeros, zeros, zeros]
        }
        Kind::R49 => message_fields(service),
        Kind::R50 => [services, specified, zeros, zeros, zeros, zeros, zeros],
        Kind::R88 | Kind::R89 => [none, none, zeros, zeros, zeros, zeros, zeros],
        Kind::Other => [Remedy::Unknown; 7],
    }
}

// What a field must have that is refused with 7: NY in field 1, and zeros in what the table does not have.
pub fn fixed(kind: Kind, field: u8, service: u8) -> Remedy
    ensures { result ≡ fixed_for kind field service }
{
    match field {
        1 => Remedy::Start,
        2..=8 => fixed_fields(kind, service)[field as usize - 2],
        _ => Remedy::Zeros,
    }
}

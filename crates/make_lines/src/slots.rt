// What the values of a line stand for, by its record type, and what is found in them before a record is made.

ghost use Rattle.std.specs.Prelude.{◌≡◌};
ghost use Rattle.make_lines.specs.Draft.{type_given, slots_of, field_of, slot_found, counted, numerals, service_given, slots_found, is_given, fault_in, kind_in, given_in};

use crate::lines::{is_numeral, number_at, only_semicolons, value_at, value_start};
use crate::slots::Slot::{Numeral, Words};
use layout::Reason::{NotFixed, WrongForm};
use layout::{Fault, Finding, demand};
use rules::Kind;

// A value of a line: a number or a text, and its field.
#[derive(Clone, Copy, Debug, PartialEq, Eq)]
pub enum Slot {
    Numeral(u8),
    Words(u8),
}

impl Slot {
    pub fn field(self) -> u8
        ensures { result ≡ field_of self }
    {
        match self {
            Numeral(k) | Words(k) => k,
        }
    }
}

// The record type that a line begins with.
#[tactic(auto, unfolding(crate::specs::Draft::type_given, field_bytes::specs::Bytes::same))]
fn type_given(s: &[u8]) -> Kind
    ensures { result ≡ type_given s.now }
{
    match s {
        b"10" => Kind::R10,
        b"20" => Kind::R20,
        b"30" => Kind::R30,
        b"31" => Kind::R31,
        b"40" => Kind::R40,
        b"41" => Kind::R41,
        b"49" => Kind::R49,
        b"50" => Kind::R50,
        _ => Kind::Other,
    }
}

pub fn kind_in(line: &[u8]) -> Kind
    ensures { result ≡ kind_in line.now }
{
    type_given(value_at(line, 0))
}

// The service that a line gives, as far as its fields go by it: 4, or as service 01.
pub fn service_in(line: &[u8]) -> u8
    ensures { result ≡ service_given (given_in line.now) }
{
    let four = (number_at(line, 1) == 4) & is_numeral(value_at(line, 1));
    if four { 4 } else { 1 }
}

const FILE_START: &[Slot] = &[Numeral(5), Numeral(6)];

const ASSIGNMENT_START: &[Slot] = &[Numeral(2), Numeral(5), Numeral(6), Numeral(7)];

const PAYMENT: &[Slot] = &[
    Numeral(2),
    Numeral(3),
    Numeral(5),
    Numeral(6), // the date
    Words(7), // the payee or payer
    Numeral(8), // the amount
    Words(9), // the KID
];

const THREE_TEXTS: &[Slot] = &[
    Numeral(2),
    Numeral(3),
    Numeral(5),
    Words(6),
    Words(7),
    Words(8),
];

const FOUR_TEXTS: &[Slot] = &[
    Numeral(2),
    Numeral(3),
    Numeral(5),
    Words(6),
    Words(7),
    Words(8),
    Words(9),
];

const MESSAGE_01: &[Slot] = &[
    Numeral(2),
    Numeral(3),
    Numeral(5),
    Numeral(7), // the line, behind the notification code
    Numeral(8),
    Words(9),
];

const MESSAGE_04: &[Slot] = &[
    Numeral(2),
    Numeral(3),
    Numeral(5),
    Numeral(6), // the line, with no code before it
    Numeral(7),
    Words(8), // the text in service 04
];

const SPECIFICATION: &[Slot] = &[Numeral(2), Numeral(3), Numeral(5), Words(6), Numeral(7)];

// The values behind the record type. A message has its fields by the service.
#[tactic(auto, unfolding(rules::specs::Fields::message_of))]
pub fn slots_of(kind: Kind, service: u8) -> &'static [Slot]
    ensures { result.now ≡ slots_of kind service }
{
    match kind {
        Kind::R10 => FILE_START,
        Kind::R20 => ASSIGNMENT_START,
        Kind::R30 => PAYMENT,
        Kind::R31 | Kind::R41 => THREE_TEXTS,
        Kind::R40 => FOUR_TEXTS,
        Kind::R49 if service == 4 => MESSAGE_04,
        Kind::R49 => MESSAGE_01,
        Kind::R50 => SPECIFICATION,
        Kind::R88 | Kind::R89 | Kind::Other => &[],
    }
}

// A number has to be one.
fn slot_found(slot: Slot, value: &[u8]) -> Finding
    ensures { result ≡ slot_found slot value.now }
{
    match slot {
        Numeral(k) => demand(is_numeral(value), WrongForm, k),
        Words(_k) => Ok(()),
    }
}

// Too few values, or too many: a semicolon stands before each value behind the record type, and those behind the last that is asked for have to be empty.
fn counted(slots: &[Slot], line: &[u8]) -> Finding
    ensures { result ≡ counted slots.now (given_in line.now) }
{
    let given = line.iter().filter(|b| **b == b';').count();
    if let Some(missing) = slots.get(given) {
        return Err(Fault {
            reason: WrongForm,
            field: missing.field(),
        });
    }
    let more = value_start(line, slots.len() + 1);
    demand(only_semicolons(&line[more..]), WrongForm, 0)
}

// The first number that is none.
fn numerals(slots: &[Slot], line: &[u8]) -> Finding
    ensures { result ≡ numerals slots.now (given_in line.now) }
{
    for (i, slot) in slots.iter().enumerate() {
        slot_found(*slot, value_at(line, i + 1))?;
    }
    Ok(())
}

fn slots_found(kind: Kind, line: &[u8]) -> Finding
    ensures { result ≡ slots_found kind (given_in line.now) }
{
    let slots = slots_of(kind, service_in(line));
    counted(slots, line)?;
    numerals(slots, line)
}

// The record types that lines have.
fn is_given(kind: Kind) -> bool
    ensures { result ≡ is_given kind }
{
    !matches!(kind, Kind::R88 | Kind::R89 | Kind::Other)
}

// What is found before a record is made.
pub fn fault_in(kind: Kind, line: &[u8]) -> Finding
    ensures { result ≡ fault_in kind (given_in line.now) }
{
    demand(is_given(kind), NotFixed, 4)?;
    slots_found(kind, line)
}

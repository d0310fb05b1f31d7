// The tool's phrases: what a refusal means, what a field is called, and how the tool is used.

#![tactic(auto)]

pub mod help;

use layout::Reason;
use rules::Kind;

// What a refusal's reason means.
pub fn meaning(reason: Reason) -> &'static str {
    match reason {
        Reason::NoProcessDay => "the process day is not a date",
        Reason::BrokenLength =>
            "the file is empty, or does not consist of whole records of 81 bytes",
        Reason::TooManyRecords => "there are more than 200,000 records",
        Reason::NoLineFeed => "no line feed stands behind the 80 characters of the record",
        Reason::OutOfPlace => "a record of this type may not stand here",
        Reason::EndsEarly => "the file ends too early, a record is missing",
        Reason::NotFixed => "a fixed text, code, line or column is wrong",
        Reason::WrongForm => "the field has the wrong form",
        Reason::NotADate => "this is not a date",
        Reason::OutOfTime => "the date is too late or too early",
        Reason::WrongAccount => "the account's last digit is wrong",
        Reason::Disagrees =>
            "service, type or transaction number disagrees with the records before",
        Reason::PastLimit => "an amount or a sum is past its limit, or is 0 for type 16",
        Reason::NotAddedUp =>
            "the records 50 before do not add up to the amount of their record 30",
        Reason::KeySeen => "agreement and assignment number stood before",
        Reason::TooManyAssignments => "there are more than 500 assignments",
        Reason::PlaceTaken => "this line and column of the message was taken before",
        Reason::WrongFigure => "an end record's figure is wrong",
        Reason::NoRoom => "the output is too short",
        Reason::OtherSender => "the two files have different senders",
        Reason::NoBoundaryThere => "the file cannot be parted there",
        Reason::TooLong => "a value is too long for its field",
        Reason::MessageFull => "the message has more than 42 texts, counting those without a place",
    }
}

// What the fields behind the first four are called, in each type of record.
const START: [&str; 3] = ["sender", "number", "receiver 00008080"];

const ASSIGNMENT: [&str; 3] = ["agreement", "assignment number", "account"];

const PAYMENT: [&str; 5] = [
    "transaction number",
    "date",
    "payee or payer",
    "amount",
    "KID",
];

const REFERENCES: [&str; 4] = [
    "transaction number",
    "short name",
    "own reference",
    "reference for the other party",
];

const ADDRESS: [&str; 5] = [
    "transaction number",
    "name",
    "postal code",
    "postal filler",
    "area",
];

const SECOND_ADDRESS: [&str; 4] = [
    "transaction number",
    "first address line",
    "second address line",
    "country code",
];

const MESSAGE_04: [&str; 4] = ["transaction number", "line", "column", "text"];

const MESSAGE_01: [&str; 5] = [
    "transaction number",
    "message mark 3",
    "line",
    "column",
    "text",
];

const SPECIFICATION: [&str; 3] = ["transaction number", "KID", "amount"];

const ASSIGNMENT_END: [&str; 5] = ["transactions", "records", "sum", "first date", "last date"];

const FILE_END: [&str; 4] = ["transactions", "records", "sum", "first date"];

// Of a record type, with a message as its service has it.
fn own_fields(kind: Kind, service: u8) -> &'static [&'static str] {
    match kind {
        Kind::R10 => &START,
        Kind::R20 => &ASSIGNMENT,
        Kind::R30 => &PAYMENT,
        Kind::R31 => &REFERENCES,
        Kind::R40 => &ADDRESS,
        Kind::R41 => &SECOND_ADDRESS,
        Kind::R49 if service == 4 => &MESSAGE_04,
        Kind::R49 => &MESSAGE_01,
        Kind::R50 => &SPECIFICATION,
        Kind::R88 => &ASSIGNMENT_END,
        Kind::R89 => &FILE_END,
        Kind::Other => &[],
    }
}

// What a field is called in a record of this type and service; what has no name of its own is zeros.
pub fn field_name(kind: Kind, field: u8, service: u8) -> &'static str {
    let unnamed = match kind {
        Kind::Other => "unknown",
        _ => "zeros",
    };
    let own = own_fields(kind, service);
    match field {
        1 => "start NY",
        2 => "service",
        3 => "type",
        4 => "record type",
        5.. => own.get(field as usize - 5).copied().unwrap_or(unnamed),
        0 => unnamed,
    }
}

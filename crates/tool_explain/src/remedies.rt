// What would be right, in words.

use layout::Reason;
use rules::{Mode, Refusal};
use std::io;
use tool_fixed::Remedy;

// A figure of an end record follows from the records; any other value is fixed or repeated.
fn say_value(rt: &impl Print, reason: Reason, number: u64, width: usize) -> io::Result<()> {
    match reason {
        Reason::WrongFigure => println!(rt; "The records give {number:0width$} here."),
        _ => println!(rt; "{number:0width$} would be right here."),
    }
}

// What would be right, in a line.
pub fn say_remedy(rt: &impl Print, reason: Reason, remedy: Remedy) -> io::Result<()> {
    match remedy {
        Remedy::Unknown => Ok(()),
        Remedy::Value { number, width } => say_value(rt, reason, number, width as usize),
        Remedy::Start => println!(rt; "NY would be right here."),
        Remedy::Zeros => println!(rt; "Only zeros would be right here."),
        Remedy::OneOf(choice) => println!(rt; "{choice} would be right here."),
        Remedy::AboveZero => println!(rt; "The first number would have to be above 0."),
        Remedy::NoneLeft => {
            println!(rt; "No number is left behind 9999999. Begin a new assignment.")
        }
        Remedy::Digit(digit) => println!(rt; "The last digit would have to be {digit}."),
        Remedy::NoDigit => {
            println!(rt; "No last digit is right: one of the ten before it is wrong.")
        }
    }
}

// The record types that may stand next.
fn say_types(rt: &impl Print, mode: Mode, before: &[u8]) -> io::Result<()> {
    println!(rt;
        "{} may stand here.",
        tool_remedies::types_after(mode, before)
    )
}

// What may stand after the last record, where one is missing.
pub fn say_missing(rt: &impl Print, reason: Reason, mode: Mode, before: &[u8]) -> io::Result<()> {
    match reason {
        Reason::EndsEarly => say_types(rt, mode, before),
        _ => Ok(()),
    }
}

// What may stand in the place of a record. A draft has no end records: closing adds them.
fn say_place(rt: &impl Print, mode: Mode, before: &[u8]) -> io::Result<()> {
    say_types(rt, mode, before)?;
    match mode {
        Mode::File => Ok(()),
        Mode::Draft => println!(rt; "A draft has no records 88 and 89: closing adds them."),
    }
}

// A figure that is put right to match a wrong payment lets that payment pass: the payments come first.
const CAUTION: &str = "\
Either a payment above was changed, lost or added, or this figure is wrong.
Compare the payments with your list before you touch the figure.";

// What would be right in a refused record, where the rules know it.
pub fn say_right(
    rt: &impl Print,
    x: Refusal,
    mode: Mode,
    before: &[u8],
    r: &[u8],
) -> io::Result<()> {
    match x.reason {
        Reason::OutOfPlace => return say_place(rt, mode, before),
        Reason::WrongFigure => println!(rt; "{CAUTION}"),
        _ => Ok(()),
    }?;
    let remedy = tool_remedies::remedy_for(x.reason, x.field, before, r);
    say_remedy(rt, x.reason, remedy)
}

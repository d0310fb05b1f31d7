// Lines of values as the tool tells of them: how many records they made, or what is wrong with a line, with the value underlined.

#![tactic(auto)]

use field_accounts::Account;
use layout::Reason;
use make_lines::lines::{line_at, number_at, value_at, value_start};
use make_lines::slots::{Slot, kind_in, service_in, slots_of};
use program_lines::{Answer, Made};
use rules::{Kind, Refusal};
use std::io;
use tool_explain::remedies::say_remedy;
use tool_explain::{Field, Letters, Underline};
use tool_fixed::Remedy;
use tool_phrases::meaning;
use tool_positions::Positions;

// A sound line is never longer; of a longer one the start is shown.
const SHOWN: usize = 160;

pub fn tell_made(rt: &impl Print, records: u64) -> io::Result<()> {
    println!(rt; "{}", Made(records))
}

// A refused line, with what it says of its record, and the refused field's number and place; the record type is in place 0.
#[derive(Clone, Copy)]
struct Line<'a> {
    text: &'a [u8],
    kind: Kind,
    service: u8,
    field: u8,
    place: usize,
}

impl<'a> Line<'a> {
    fn of(text: &'a [u8], field: u8) -> Line<'a> {
        let kind = kind_in(text);
        let service = service_in(text);
        Line {
            text,
            kind,
            service,
            field,
            place: place_of(kind, service, field),
        }
    }

    fn value(self) -> &'a [u8] {
        value_at(self.text, self.place)
    }
}

// Where in a line the value of a field stands; what has no field stands behind the last value.
fn place_of(kind: Kind, service: u8, field: u8) -> usize {
    if field == 4 {
        return 0;
    }
    let slots = slots_of(kind, service);
    let found = slots.iter().position(|slot| slot.field() == field);
    found.unwrap_or(slots.len()) + 1
}

// A line with its value underlined; one mark where it has none.
fn show_line(rt: &impl Print, line: Line) -> io::Result<()> {
    let text = line.text;
    if SHOWN < text.len() {
        return println!(rt; "{} ..", Letters(&text[..SHOWN]));
    }
    let start = value_start(text, line.place);
    let marks = Positions {
        from: start as u64 + 1,
        to: (start + line.value().len().max(1)) as u64,
    };
    println!(rt; "{}\n{}", Letters(text), Underline(marks))
}

// The account's last digit that would be right, of eleven digits written out or as a number.
fn say_account(rt: &impl Print, line: Line) -> io::Result<()> {
    let mut digits = [b'0'; 11];
    fields::put_number(&mut digits, number_at(line.text, line.place));
    let remedy = match field_accounts::account_of(&digits) {
        Account::WrongDigit(digit) => Remedy::Digit(digit),
        Account::NoRightDigit => Remedy::NoDigit,
        Account::Right | Account::NotDigits => Remedy::Unknown,
    };
    say_remedy(rt, Reason::WrongAccount, remedy)
}

fn say_code(rt: &impl Print, line: Line) -> io::Result<()> {
    match line.field {
        4 => {
            println!(rt; "A line begins with its record type: 10, 20, 30, 31, 40, 41, 49 or 50.")
        }
        field => say_remedy(
            rt,
            Reason::NotFixed,
            tool_fixed::fixed(line.kind, field, line.service),
        ),
    }
}

fn say_form(rt: &impl Print, line: Line) -> io::Result<()> {
    if line.field == 0 {
        return println!(rt; "The line has more values than its record takes.");
    }
    if line.value().is_empty() {
        return println!(rt; "A value is missing here.");
    }
    if line.place == 0 {
        return Ok(());
    }
    match slots_of(line.kind, line.service).get(line.place - 1) {
        Some(Slot::Numeral(_)) => println!(rt; "Only digits would be right here."),
        _ => Ok(()),
    }
}

// How many places a field has.
fn say_places(rt: &impl Print, line: Line) -> io::Result<()> {
    match tool_positions::positions_of(line.kind, line.service, line.field as usize) {
        Some(p) if p.from == p.to => println!(rt; "The field has 1 place."),
        Some(p) => {
            println!(rt;
                "The field has {} places.",
                p.to.saturating_sub(p.from).saturating_add(1)
            )
        }
        None => Ok(()),
    }
}

// What would be right, where the rules know it.
fn say_right(rt: &impl Print, reason: Reason, line: Line) -> io::Result<()> {
    match reason {
        Reason::NotFixed => say_code(rt, line),
        Reason::WrongForm => say_form(rt, line),
        Reason::WrongAccount => say_account(rt, line),
        Reason::TooLong => say_places(rt, line),
        _ => tool_explain::say_form(rt, reason),
    }
}

// A refused line: the reason in words, the field by name, the line itself, and what would be right.
fn explain_line(rt: &impl Print, x: Refusal, line: Line) -> io::Result<()> {
    let field = Field {
        kind: line.kind,
        service: line.service,
        field: line.field,
        positions: None,
    };
    println!(rt; "{}: line {}{field}", meaning(x.reason), x.record)?;
    show_line(rt, line)?;
    say_right(rt, x.reason, line)
}

// What a reason means that speaks of the values as a whole.
fn whole_meaning(reason: Reason) -> &'static str {
    match reason {
        Reason::BrokenLength => "no line has a record: each is empty or begins with #",
        Reason::TooManyRecords => {
            "there are more than 199,998 records, and no file has room for them"
        }
        _ => meaning(reason),
    }
}

// The machine's line of a refusal, and what it means; the refusal bears a line of these values in the place of a record.
pub fn tell_not_made(rt: &impl Print, x: Refusal, values: &[u8]) -> io::Result<()> {
    println!(rt; "{}", Answer(Err(x)))?;
    if x.record == 0 {
        return rt.println(whole_meaning(x.reason));
    }
    explain_line(rt, x, Line::of(line_at(values, x.record), x.field))
}

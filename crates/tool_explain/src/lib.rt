// What people read after a refusal: the reason in words, where it stands, and the record with its field underlined.

#![tactic(auto)]

pub mod answers;
pub mod remedies;

use layout::Reason;
use limits::{RECORD_BYTES, Record};
use rules::{Kind, Mode, Refusal};
use std::{fmt, io};
use tool_phrases::{field_name, meaning};
use tool_positions::Positions;

// Where a record's line feed stands, after its letters.
const LINE_FEED: usize = RECORD_BYTES - 1;

// Letters of ISO 8859-1; a point for what cannot be printed.
#[derive(Clone, Copy)]
pub struct Letters<'a>(pub &'a [u8]);

fn letter(b: u8) -> char {
    match b {
        0..=31 | 127..=159 => '.',
        _ => char::from(b),
    }
}

impl fmt::Display for Letters<'_> {
    fn fmt<W: fmt::Write>(&self, f: &mut fmt::Formatter<W>) -> fmt::Result {
        for b in self.0 {
            f.write_char(letter(*b))?;
        }
        Ok(())
    }
}

// Marks below these positions, and blanks before them.
#[derive(Clone, Copy)]
pub struct Underline(pub Positions);

impl fmt::Display for Underline {
    fn fmt<W: fmt::Write>(&self, f: &mut fmt::Formatter<W>) -> fmt::Result {
        for position in 1..=self.0.to {
            f.write_char(if position < self.0.from { ' ' } else { '^' })?;
        }
        Ok(())
    }
}

// The field that a refusal names, where it names one: by number, name, and position where that is told.
#[derive(Clone, Copy)]
pub struct Field {
    pub kind: Kind,
    pub service: u8,
    pub field: u8,
    pub positions: Option<Positions>,
}

impl fmt::Display for Field {
    fn fmt<W: fmt::Write>(&self, f: &mut fmt::Formatter<W>) -> fmt::Result {
        if self.field == 0 {
            return Ok(());
        }
        let name = field_name(self.kind, self.field, self.service);
        write!(f, ", field {} ({name}", self.field)?;
        match self.positions {
            Some(p) if p.from == p.to => write!(f, ", position {})", p.to),
            Some(p) => write!(f, ", positions {} to {})", p.from, p.to),
            None => f.write_str(")"),
        }
    }
}

// Where a refusal stands: the record, and of two files which.
#[derive(Clone, Copy)]
struct Place(Refusal);

impl fmt::Display for Place {
    fn fmt<W: fmt::Write>(&self, f: &mut fmt::Formatter<W>) -> fmt::Result {
        let x = self.0;
        if x.record == 0 {
            return Ok(());
        }
        let operand = match x.operand {
            1 => "the first file, ",
            2 => "the second file, ",
            _ => "",
        };
        write!(f, ": {operand}record {}", x.record)
    }
}

// The positions that a refusal of a record marks: those of the field, or the last where the line feed is missing.
fn positions_marked(kind: Kind, service: u8, x: Refusal) -> Option<Positions> {
    match x.reason {
        Reason::NoLineFeed => Some(Positions {
            from: RECORD_BYTES as u64,
            to: RECORD_BYTES as u64,
        }),
        _ => tool_positions::positions_of(kind, service, x.field as usize),
    }
}

// The record that was refused, with its field by name, position and underlined; with the letter after it where that has to be a line feed and is not.
fn show(rt: &impl Print, x: Refusal, r: &Record) -> io::Result<()> {
    let kind = run_order::kind_of(r);
    let service = fields::code_at(r, 3);
    let positions = positions_marked(kind, service, x);
    let field = Field {
        kind,
        service,
        field: x.field,
        positions,
    };
    let shown = match x.reason {
        Reason::NoLineFeed => RECORD_BYTES,
        _ => LINE_FEED,
    };
    println!(rt; "{field}\n{}", Letters(&r[..shown]))?;
    match positions {
        Some(p) => println!(rt; "{}", Underline(p)),
        None => Ok(()),
    }
}

// The record that a refusal names, where the file has it, and what would be right.
fn show_record(rt: &impl Print, x: Refusal, mode: Mode, file: &[u8]) -> io::Result<()> {
    if x.record == 0 {
        return rt.println("");
    }
    let before = x.record as usize - 1;
    let Some(r) = rules::records_of(file).get(before) else {
        rt.println("")?;
        return remedies::say_missing(rt, x.reason, mode, file);
    };
    show(rt, x, r)?;
    remedies::say_right(rt, x, mode, &file[..RECORD_BYTES * before], r)
}

// What the reason alone tells: the right form of a day and a date, and what a message past its limit can do without. It has a text without a place, since there are only as many places as it may have texts.
pub fn say_form(rt: &impl Print, reason: Reason) -> io::Result<()> {
    match reason {
        Reason::NoProcessDay => {
            println!(rt; "A day is written DDMMYY: 011025 is 1 October 2025.")
        }
        Reason::NotADate => { println!(rt; "A date is written DDMMYY: 011125 is 1 November 2025.") }
        Reason::OutOfTime => {
            println!(rt;
                "A date is at most one year after the process day; for service 01 also at most one year before it."
            )
        }
        Reason::MessageFull => {
            println!(rt;
                "Leave out a text with line 000 or column 0: the notification does not show it."
            )
        }
        _ => Ok(()),
    }
}

// What people read after the machine's line; `file` is the one that the refusal speaks of.
pub fn explain(rt: &impl Print, x: Refusal, mode: Mode, file: &[u8]) -> io::Result<()> {
    print!(rt; "{}{}", meaning(x.reason), Place(x))?;
    show_record(rt, x, mode, file)?;
    say_form(rt, x.reason)
}

// The sender of the first of two files, which the second would have to have.
pub fn say_sender(rt: &impl Print, first: &[u8]) -> io::Result<()> {
    match first.get(8..16) {
        Some(sender) => println!(rt; "The first file has {} here.", Letters(sender)),
        None => Ok(()),
    }
}

// Where a file of so many assignments can be parted.
pub fn say_boundaries(rt: &impl Print, assignments: u32) -> io::Result<()> {
    match assignments {
        0 | 1 => println!(rt; "The file has 1 assignment, so it cannot be parted."),
        2 => println!(rt; "The file has 2 assignments, so K is 1."),
        n => println!(rt;
            "The file has {n} assignments, so K is from 1 to {}.",
            n - 1
        ),
    }
}

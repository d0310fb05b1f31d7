// What the programs read and print: a file by its name and as far as there is room, a process day from six digits, and each answer as its line.

#![tactic(auto)]

ghost use Rattle.std.specs.Prelude.{◌≡◌};
ghost use Rattle.std.specs.Io.{ReadsAtMost};
ghost use Rattle.program_lines.specs.Days.{day_written};
ghost use Rattle.program_lines.specs.Answers.{word_for};

use dates::ProcessDay;
use figures::totals::Totals;
use operations::{NotParted, Parting};
use rules::{Refusal, Verdict};
use std::fs::{File, Files};
use std::io::{ErrorKind, Read};
use std::{fmt, io};

// A name as the system takes it: the bytes of a text in UTF-8.
pub fn path(name: &[u8]) -> io::Result<&str> {
    str::from_utf8(name).map_err(|_| io::Error::from(ErrorKind::InvalidData))
}

// The file of this name, to be read.
pub fn open<R: Files>(rt: &R, name: &[u8]) -> io::Result<R::File> {
    File::open(rt, path(name)?)
}

// Reads until the buffer is full or the input ends, and says how many bytes came.
pub fn read_full(input: &mut impl Read, buffer: &mut [u8]) -> io::Result<usize>
    ensures { ReadsAtMost result buffer.new }
{
    let mut done: usize = 0;
    while done < buffer.len() {
        match input.read(&mut buffer[done..])? {
            0 => break,
            n => done += n,
        }
    }
    Ok(done)
}

// The day that six digits DDMMYY name; it may be no date.
pub fn process_day(ddmmyy: u64) -> ProcessDay
    ensures { result ≡ day_written ddmmyy }
{
    ProcessDay {
        year: 2000 + ddmmyy % 100,
        month: ddmmyy / 100 % 100,
        day: ddmmyy / 10000,
    }
}

// The word that an answer begins with, and that decides the status of the office's tool.
fn word_of(verdict: &Verdict) -> &'static str
    ensures { result.now ≡ word_for verdict.now }
{
    match verdict {
        Ok(_) => "accepted",
        Err(_) => "refused ",
    }
}

// The five figures of an accepted file; the first date as DDMMYY.
#[derive(Clone, Copy)]
struct Figures(Totals);

impl fmt::Display for Figures {
    fn fmt<W: fmt::Write>(&self, f: &mut fmt::Formatter<W>) -> fmt::Result {
        let t = self.0;
        let assignments = t.assignments.0;
        let transactions = t.transactions.0;
        let records = t.records.0;
        let sum = t.sum.0;
        let first = dates::ddmmyy_of(t.first);
        write!(
            f,
            " {assignments} {transactions} {records} {sum} {first:06}"
        )
    }
}

// A refusal's number, record and field.
#[derive(Clone, Copy)]
struct Refused(Refusal);

impl fmt::Display for Refused {
    fn fmt<W: fmt::Write>(&self, f: &mut fmt::Formatter<W>) -> fmt::Result {
        let x = self.0;
        write!(f, "{} {} {}", x.reason.number(), x.record, x.field)
    }
}

// An answer as document 01's program prints it.
#[derive(Clone, Copy)]
pub struct Answer(pub Verdict);

impl fmt::Display for Answer {
    fn fmt<W: fmt::Write>(&self, f: &mut fmt::Formatter<W>) -> fmt::Result {
        let word = word_of(&self.0);
        match self.0 {
            Ok(t) => write!(f, "{word}{}", Figures(t)),
            Err(x) => write!(f, "{word}{}", Refused(x)),
        }
    }
}

// The answer of a joining: behind a refusal stands its operand.
#[derive(Clone, Copy)]
pub struct JoinAnswer(pub Verdict);

impl fmt::Display for JoinAnswer {
    fn fmt<W: fmt::Write>(&self, f: &mut fmt::Formatter<W>) -> fmt::Result {
        Answer(self.0).fmt(f)?;
        match self.0 {
            Ok(_) => Ok(()),
            Err(x) => write!(f, " {}", x.operand),
        }
    }
}

// The answer of a parting.
#[derive(Clone, Copy)]
pub struct PartAnswer(pub Parting);

impl fmt::Display for PartAnswer {
    fn fmt<W: fmt::Write>(&self, f: &mut fmt::Formatter<W>) -> fmt::Result {
        match self.0 {
            Ok(_) => f.write_str("parted"),
            Err(NotParted::NoBoundary(_)) => Answer(Err(operations::no_boundary())).fmt(f),
            Err(NotParted::Refused(x)) => Answer(Err(x)).fmt(f),
        }
    }
}

// The answer of a making: how many records were made.
#[derive(Clone, Copy)]
pub struct Made(pub u64);

impl fmt::Display for Made {
    fn fmt<W: fmt::Write>(&self, f: &mut fmt::Formatter<W>) -> fmt::Result {
        write!(f, "made {}", self.0)
    }
}

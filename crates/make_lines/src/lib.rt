// Lines of values as a spreadsheet exports them, and the draft that they make.

#![tactic(auto)]

ghost use Rattle.std.specs.Prelude.{◌≡◌, length, not};
ghost use Rattle.make_lines.specs.Lines.{lines_of, bearing, passed_over, without_return};
ghost use Rattle.make_lines.specs.Draft.{line_taken, taken_bytes, LinesPromise, enough, DraftPromise};

use crate::lines::{is_passed_over, without_return};
use crate::records::make_line;
use layout::Reason::{BrokenLength, TooManyRecords};
use layout::{Fault, Finding, demand};
use limits::{MOST_RECORDS, RECORD_BYTES};
use make_record::refusing;
use rules::Refusal;

pub mod lines;
pub mod records;
pub mod slots;

// What making a draft answers: how many records it has, or a refusal that bears the line in the place of a record.
pub type Drafting = Result<u64, Refusal>;

// What a line adds: none or one record; or why it is refused.
pub type Taken = Result<u64, Fault>;

// A line bears a record.
fn bears(line: &[u8]) -> bool
    ensures { result ≡ not (passed_over (without_return line.now)) }
{
    !is_passed_over(without_return(line))
}

// How many lines bear a record.
fn count_bearing(values: &[u8]) -> u64
    ensures { result ≡ bearing (lines_of values.now) }
{
    let lines = values.split(|b| *b == b'\n');
    lines.filter(|line| bears(line)).count() as u64
}

// A draft has at least an 88 and an 89 less than the longest file.
const MOST_DRAFTED: u64 = MOST_RECORDS as u64 - 2;

// None is too few, and more than any file takes are too many.
#[tactic(auto, unfolding(crate::specs::Draft::enough))]
fn found_enough(n: u64) -> Finding
    ensures { result ≡ enough n }
{
    demand(n != 0, BrokenLength, 0)?;
    demand(n <= MOST_DRAFTED, TooManyRecords, 0)
}

// A line into a buffer.
fn take_line(line: &[u8], out: &mut [u8]) -> Taken
    ensures { (result ≡ line_taken line.now (length out.old)) × (out.new ≡ taken_bytes line.now out.old) }
{
    if is_passed_over(line) {
        return Ok(0);
    }
    let making = make_line(line, out);
    match making {
        Ok(()) => Ok(1),
        Err(x) => Err(Fault {
            reason: x.reason,
            field: x.field,
        }),
    }
}

// The lines in turn, up to the first that is refused: each record behind the one before it.
fn take_lines(values: &[u8], out: &mut [u8]) -> Drafting
    ensures { LinesPromise values.now out.old result out.new }
{
    let mut records: u64 = 0;
    for (i, line) in values.split(|b| *b == b'\n').enumerate() {
        let to = RECORD_BYTES * records as usize;
        let taken = take_line(without_return(line), &mut out[to..]);
        match taken {
            Ok(n) => {
                records += n;
            }
            Err(fault) => {
                return Err(Refusal::at(fault.reason, i as u64 + 1, fault.field));
            }
        }
    }
    Ok(records)
}

// The draft that lines of values make, over the start of an output.
pub fn make_draft(values: &[u8], out: &mut [u8]) -> Drafting
    ensures { DraftPromise values.now out.old result out.new }
{
    refusing(found_enough(count_bearing(values)))?;
    take_lines(values, out)
}

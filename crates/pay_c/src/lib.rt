// The operations for programs in C or Rust: a slice is a pointer and a length, and the answer goes into sixteen lent numbers. include/pay.h declares them.

#![tactic(auto)]

pub mod make;

ghost use Rattle.std.specs.Prelude.{◌≡◌};
ghost use Rattle.operations.specs.Answers.{day_from, refused_numbers, accepted_numbers, checked_numbers, written_numbers, parted_numbers, made_numbers};
ghost use Rattle.operations.specs.Promises.{CheckNumbers, CloseNumbers, JoinNumbers, PartNumbers};

use dates::ProcessDay;
use figures::totals::Totals;
use limits::RECORD_BYTES;
use operations::{Making, NotParted, Parting};
use rules::{Refusal, Verdict};

#[tactic(auto, unfolding(operations::specs::Answers::refused_numbers))]
fn tell_refused(x: Refusal, answer: &mut [u64; 16])
    ensures { answer.new ≡ refused_numbers x }
{
    *answer = [
        0,
        x.reason.number() as u64,
        x.operand as u64,
        x.record,
        x.field as u64,
        0,
        0,
        0,
        0,
        0,
        0,
        0,
        0,
        0,
        0,
        0,
    ];
}

// Figures, and how many bytes were written.
#[tactic(auto, unfolding(operations::specs::Answers::accepted_numbers))]
fn tell_accepted(t: Totals, written: u64, answer: &mut [u64; 16])
    ensures { answer.new ≡ accepted_numbers t written }
{
    *answer = [
        1,
        0,
        0,
        0,
        0,
        t.assignments.0 as u64,
        t.transactions.0 as u64,
        t.records.0 as u64,
        t.sum.0,
        t.first.0 as u64,
        written,
        0,
        0,
        0,
        0,
        0,
    ];
}

#[tactic(auto, unfolding(operations::specs::Answers::checked_numbers))]
fn tell_checked(verdict: Verdict, answer: &mut [u64; 16])
    ensures { answer.new ≡ checked_numbers verdict }
{
    match verdict {
        Ok(t) => tell_accepted(t, 0, answer),
        Err(x) => tell_refused(x, answer),
    }
}

// A verdict on a file that was written where it is accepted.
#[tactic(auto, unfolding(operations::specs::Answers::written_numbers))]
fn tell_written(verdict: Verdict, answer: &mut [u64; 16])
    ensures { answer.new ≡ written_numbers verdict }
{
    match verdict {
        Ok(t) => tell_accepted(t, RECORD_BYTES as u64 * t.records.0 as u64, answer),
        Err(x) => tell_refused(x, answer),
    }
}

#[tactic(auto, unfolding(operations::specs::Answers::parted_numbers))]
fn tell_parted(parting: Parting, answer: &mut [u64; 16])
    ensures { answer.new ≡ parted_numbers parting }
{
    match parting {
        Ok((n, m)) => {
            *answer = [2, 0, 0, 0, 0, 0, 0, 0, 0, 0, n as u64, 0, 0, 0, 0, m as u64];
        }
        Err(NotParted::NoBoundary(_assignments)) => {
            tell_refused(operations::no_boundary(), answer)
        }
        Err(NotParted::Refused(x)) => tell_refused(x, answer),
    }
}

#[tactic(auto, unfolding(operations::specs::Answers::made_numbers))]
fn tell_made(making: Making, answer: &mut [u64; 16])
    ensures { answer.new ≡ made_numbers making }
{
    match making {
        Ok(()) => {
            *answer = [
                3,
                0,
                0,
                0,
                0,
                0,
                0,
                0,
                0,
                0,
                RECORD_BYTES as u64,
                0,
                0,
                0,
                0,
                0,
            ];
        }
        Err(x) => tell_refused(x, answer),
    }
}

#[unsafe(no_mangle)]
pub extern "C" fn pay_check(year: u64, month: u64, day: u64, file: &[u8], answer: &mut [u64; 16])
    ensures { CheckNumbers (day_from year month day) file.now answer.new }
{
    tell_checked(
        check_file::check(ProcessDay { year, month, day }, file),
        answer,
    );
}

#[unsafe(no_mangle)]
pub extern "C" fn pay_close(
    year: u64,
    month: u64,
    day: u64,
    draft: &[u8],
    out: &mut [u8],
    answer: &mut [u64; 16],
)
    ensures { CloseNumbers (day_from year month day) draft.now out.old answer.new out.new }
{
    tell_written(
        close_draft::close(ProcessDay { year, month, day }, draft, out),
        answer,
    );
}

#[unsafe(no_mangle)]
pub extern "C" fn pay_join(
    year: u64,
    month: u64,
    day: u64,
    first: &[u8],
    second: &[u8],
    out: &mut [u8],
    answer: &mut [u64; 16],
)
    ensures { JoinNumbers (day_from year month day) first.now second.now out.old answer.new out.new }
{
    tell_written(
        join_files::join(ProcessDay { year, month, day }, first, second, out),
        answer,
    );
}

#[unsafe(no_mangle)]
pub extern "C" fn pay_part(
    year: u64,
    month: u64,
    day: u64,
    file: &[u8],
    k: u64,
    first: &mut [u8],
    second: &mut [u8],
    answer: &mut [u64; 16],
)
    ensures { PartNumbers (day_from year month day) file.now k first.old second.old answer.new first.new second.new }
{
    tell_parted(
        part_file::part(ProcessDay { year, month, day }, file, k, first, second),
        answer,
    );
}

// Checking a file, of any bytes, on any process day.

#![tactic(auto)]

ghost use Rattle.std.specs.Prelude.{◌≡◌, length};
ghost use Rattle.limits.specs.Limits.{most_assignments};
ghost use Rattle.operations.specs.Promises.{CheckPromise};
ghost use Rattle.rules.specs.Refusals.{refused};
ghost use Rattle.rules.specs.Run.{bad_length, judge, check_of};
ghost use Rattle.run_loop.specs.Left.{Left};

use dates::{ProcessDay, Window};
use layout::Reason;
use limits::{MOST_ASSIGNMENTS, MOST_RECORDS, RECORD_BYTES};
use rules::{Mode, Refusal, Verdict};

// A refusal of the whole input: no record, no field.
pub fn refuse(reason: Reason) -> Verdict
    ensures { result ≡ refused reason 0 0 0 }
{
    Err(Refusal::whole(reason))
}

// Nothing at all, or no multiple of 81 bytes.
pub fn bad_length(bytes: &[u8]) -> bool
    ensures { result ≡ bad_length bytes.now }
{
    bytes.is_empty() || bytes.len() % RECORD_BYTES != 0
}

// On a process day that is one: the length, the number of records, then the records in turn. An accepted file leaves its keys, and where there is room its figures.
pub fn judge(w: Window, file: &[u8], keys: &mut [u64], figures: &mut [u64]) -> Verdict
    requires { length keys.old ≡ most_assignments }
    ensures { (result ≡ judge w file.now) × Left file.now keys.new figures.new result }
{
    if bad_length(file) {
        return refuse(Reason::BrokenLength);
    }
    if MOST_RECORDS < file.len() / RECORD_BYTES {
        return refuse(Reason::TooManyRecords);
    }
    run_loop::run_over(Mode::File, w, file, keys, figures)
}

// Accepted with the figures of its records, or refused for its first fault; leaves what judging leaves.
pub fn check_into(day: ProcessDay, file: &[u8], keys: &mut [u64], figures: &mut [u64]) -> Verdict
    requires { length keys.old ≡ most_assignments }
    ensures { (result ≡ check_of day file.now) × Left file.now keys.new figures.new result }
{
    let w = day.window().ok_or(Refusal::whole(Reason::NoProcessDay))?;
    judge(w, file, keys, figures)
}

// Accepted with the figures of its records, or refused for its first fault. No slot is lent for figures: none are wanted.
pub fn check(day: ProcessDay, file: &[u8]) -> Verdict
    ensures { CheckPromise day file.now result }
{
    let mut keys = [0u64; MOST_ASSIGNMENTS];
    check_into(day, file, &mut keys, &mut [])
}

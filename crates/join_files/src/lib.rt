// Joining two files, of any bytes, on any process day, into any output: judge first, then write.

#![tactic(auto)]

ghost use Rattle.std.specs.Prelude.{◌≡◌, length, Ok, IfOk};
ghost use Rattle.limits.specs.Limits.{most_assignments};
ghost use Rattle.join_pairs.specs.Pairs.{Judged};
ghost use Rattle.operations.specs.Joining.{of_operand, weigh_join};
ghost use Rattle.operations.specs.Promises.{JoinPromise};
ghost use Rattle.rules.specs.Run.{judge};
ghost use Rattle.join_files.specs.Days.{OnDay, verdict_of};

use dates::{ProcessDay, Window};
use join_pairs::Accepted;
use layout::Reason;
use limits::{MOST_ASSIGNMENTS, RECORD_BYTES};
use rules::{Refusal, Verdict};

// A file, judged: its refusal names it as the first or the second; where it is accepted, its keys lie in what is lent. No figures of assignments are wanted: none are lent.
fn judged<'a>(
    w: Window,
    operand: u8,
    file: &'a [u8],
    slots: &'a mut [u64],
) -> Result<Accepted<'a>, Refusal>
    requires { OnDay w × (length slots.old ≡ most_assignments) }
    ensures told { verdict_of result ≡ of_operand operand (judge w file.now) Ok }
    ensures known { IfOk result (λ a. (a.file.now ≡ file.now) × Judged file.now a.totals a.keys.now) }
{
    let totals = check_file::judge(w, file, slots, &mut []).map_err(|x| x.of(operand))?;
    let keys = &slots[..totals.assignments.0 as usize];
    Ok(Accepted { file, totals, keys })
}

// All that is judged before the output is looked at.
fn weigh(day: ProcessDay, first: &[u8], second: &[u8]) -> Verdict
    ensures { result ≡ weigh_join day first.now second.now }
{
    let w = day.window().ok_or(Refusal::whole(Reason::NoProcessDay))?;
    let mut ours = [0u64; MOST_ASSIGNMENTS];
    let one = judged(w, 1, first, &mut ours)?;
    // cleared only where it is wanted
    let mut theirs = [0u64; MOST_ASSIGNMENTS];
    let other = judged(w, 2, second, &mut theirs)?;
    join_pairs::weigh_both(one, other)
}

// Accepted with the figures of the file that was written, or refused with no byte changed.
pub fn join(day: ProcessDay, first: &[u8], second: &[u8], out: &mut [u8]) -> Verdict
    ensures { JoinPromise day first.now second.now out.old result out.new }
{
    let t = operations::given(out.len(), weigh(day, first, second)?)?;
    let first_end = first.len() - RECORD_BYTES;
    let second_end = second.len() - RECORD_BYTES;
    write_file::put_file(
        out,
        &first[..first_end],
        &second[RECORD_BYTES..second_end],
        t,
    );
    Ok(t)
}

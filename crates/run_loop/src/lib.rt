// The records of a file or a draft in turn: the run over all of them.

#![tactic(auto)]

ghost use Rattle.std.specs.Prelude.{◌≡◌, ◌/◌, ◌≤◌, length};
ghost use Rattle.limits.specs.Limits.{record_bytes, most_records, most_assignments};
ghost use Rattle.rules.specs.Growth.{start};
ghost use Rattle.rules.specs.Run.{ended, at_end};
ghost use Rattle.run_loop.specs.Left.{Ran};

use dates::Window;
use figures::totals::Totals;
use layout::Reason;
use rules::{Assignment, Kind, Mode, Refusal, State, Verdict};

// The last group gave its amount; a file has told so before its end.
fn gave(mode: Mode, a: Assignment) -> bool
    ensures { result ≡ ended mode a }
{
    match mode {
        Mode::File => true,
        Mode::Draft => a.group.gives(a.due),
    }
}

// The end after this many records.
#[tactic(auto, unfolding(rules::specs::Run::at_end))]
fn finish(mode: Mode, st: State, before: usize) -> Verdict
    requires { before ≤ most_records }
    ensures { result ≡ at_end mode before st }
{
    if !run_order::may_end(mode, st.assignment) {
        return Err(Refusal::at(Reason::EndsEarly, before as u64 + 1, 0));
    }
    if !gave(mode, st.assignment) {
        return Err(Refusal::at(Reason::NotAddedUp, before as u64 + 1, 0));
    }
    Ok(st.file.copied())
}

fn begin() -> State
    ensures { result ≡ start }
{
    State {
        file: Totals::none(),
        assignment: run_growth::before_assignments(Kind::Other),
    }
}

// All records in turn: each is handed on as its own 81 bytes. The keys of the assignments are left in what is lent, and where there is room their figures.
pub fn run_over(
    mode: Mode,
    w: Window,
    bytes: &[u8],
    keys: &mut [u64],
    figures: &mut [u64],
) -> Verdict
    requires { (length bytes.now / record_bytes ≤ most_records) × (length keys.old ≡ most_assignments) }
    ensures { Ran mode w bytes.now keys.new figures.new result }
{
    let records = rules::records_of(bytes);
    let mut st = begin();
    for (k, r) in records.iter().enumerate() {
        // A match and no `map_err`, which would hand the whole state on once more.
        match run_step::take_record(mode, w, st, r, keys, figures) {
            Err(fault) => return Err(Refusal::at(fault.reason, k as u64 + 1, fault.field)),
            Ok(next) => st = next,
        }
    }
    let assignments = st.file.assignments.0 as usize;
    run_figures::keep_figures(st.assignment.totals, figures, assignments);
    finish(mode, st, records.len())
}

// Weighing a draft, of any bytes, before anything is written: its refusal, or the figures of the file to be written.

#![tactic(auto)]

ghost use Rattle.std.specs.Prelude.{◌≡◌, [], ◌/◌, ◌≤◌, length};
ghost use Rattle.limits.specs.Limits.{record_bytes};
ghost use Rattle.operations.specs.Closing.{opens, openings, closed_figures, weigh};
ghost use Rattle.rules.specs.Growth.{start};
ghost use Rattle.rules.specs.Run.{run, records_of};
ghost use Rattle.rules.specs.declared.Mode.TheVariants.{Draft};
ghost use Rattle.close_weigh.specs.Leaves.{CanClose, LeftBy};

use dates::Window;
use figures::totals::Totals;
use layout::Reason;
use limits::{MOST_ASSIGNMENTS, MOST_RECORDS, RECORD_BYTES, Record};
use rules::{Mode, Refusal, Verdict};

// Positions 7 and 8 are 20.
fn opens(r: &Record) -> bool
    ensures { result ≡ opens r.now }
{
    fields::code_at(r, 7) == 20
}

// How many records have 20 in positions 7 and 8.
fn openings_in(draft: &[u8]) -> usize
    ensures { (result ≡ openings (records_of draft.now)) × (result ≤ length draft.now / record_bytes) }
{
    rules::records_of(draft).iter().filter(|r| opens(r)).count()
}

// The same, once the run over them has answered: a sound draft has an assignment for each, and is not read again.
fn opened(ran: Verdict, draft: &[u8]) -> usize
    ensures { (w : Window) → ran ≡ run Draft w 0 start [] (records_of draft.now) → result ≡ openings (records_of draft.now) }
{
    match ran {
        Ok(t) => t.assignments.0 as usize,
        Err(_refusal) => openings_in(draft),
    }
}

// The figures of the file to be written: an 88 more for each assignment, and the 89.
fn closed_figures(t: Totals) -> Totals
    requires { CanClose t }
    ensures { result ≡ closed_figures t }
{
    t.with_records(t.assignments.0).with_records(1)
}

// What the draft itself gives, with the figures of the file to be written; those of its assignments are left in what is lent.
pub fn weigh(w: Window, draft: &[u8], figures: &mut [u64]) -> Verdict
    ensures { (result ≡ weigh w draft.now) × LeftBy draft.now figures.new result }
{
    if check_file::bad_length(draft) {
        return Err(Refusal::whole(Reason::BrokenLength));
    }
    let count = draft.len() / RECORD_BYTES;
    if MOST_RECORDS <= count {
        return Err(Refusal::whole(Reason::TooManyRecords));
    }
    let mut keys = [0u64; MOST_ASSIGNMENTS];
    let ran = run_loop::run_over(Mode::Draft, w, draft, &mut keys, figures);
    if MOST_RECORDS < count + opened(ran, draft) + 1 {
        return Err(Refusal::whole(Reason::TooManyRecords));
    }
    Ok(closed_figures(ran?))
}

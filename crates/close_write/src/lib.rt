// The file that a sound draft is closed to: its assignments as they stand, and the end records after them.

#![tactic(auto)]

ghost use Rattle.std.specs.Prelude.{◌≡◌, ◌++◌, ◌+◌, ◌*◌, ◌-◌, ◌≤◌, length, drop};
ghost use Rattle.limits.specs.Limits.{record_bytes};
ghost use Rattle.operations.specs.Closing.{closed_file};
ghost use Rattle.services.specs.Services.{code_for, service_for};
ghost use Rattle.rules.specs.Codes.{service_code};
ghost use Rattle.rules.specs.Growth.{start};
ghost use Rattle.rules.specs.Run.{records_of};
ghost use Rattle.run_figures.specs.Blocks.{blocks};
ghost use Rattle.run_figures.specs.Slots.{Holding};
ghost use Rattle.close_write.specs.Weighed.{span, end_of, InDraft, Weighed};

use dates::Date;
use figures::totals::{AssignmentTotals, Totals};
use limits::{RECORD_BYTES, Record};

// The code of the service that a sound record 20 names.
fn service_in(r: &Record) -> u64
    ensures { result ≡ code_for (service_for (service_code r.now)) }
{
    services::code_for(services::service_for(fields::code_at(r, 3))) as u64
}

// Puts the records from one on to before another, an assignment, and the 88 that ends it over the start of an output; answers how many bytes that is.
fn put_assignment(
    out: &mut [u8],
    draft: &[u8],
    from: usize,
    next: usize,
    own: AssignmentTotals,
) -> usize
    requires { InDraft draft.now from next × (record_bytes * next - record_bytes * from + record_bytes ≤ length out.old) }
    ensures { (result ≡ record_bytes * next - record_bytes * from + record_bytes) × (out.new ≡ (span from next draft.now ++ end_of draft.now from own) ++ drop result out.old) }
{
    let start = RECORD_BYTES * from;
    let end = RECORD_BYTES * next;
    let service = service_in(rules::record_at(draft, from));
    let size = end - start;
    field_texts::copy_to(out, &draft[start..end]);
    write_file::put_end(&mut out[size..], service, 88, own.totals, own.last);
    size + RECORD_BYTES
}

// Writes the file that a sound draft is closed to over the start of an output, by the figures that the run left: no record is read again.
pub fn write(draft: &[u8], totals: Totals, figures: &[u64], out: &mut [u8])
    requires { Weighed draft.now totals × Holding figures.now 0 (blocks start.assignment (records_of draft.now)) × (length (closed_file draft.now) ≤ length out.old) }
    ensures { out.new ≡ closed_file draft.now ++ drop (length (closed_file draft.now)) out.old }
{
    field_texts::copy_to(out, &draft[0..RECORD_BYTES]);
    let mut at = RECORD_BYTES;
    let mut k: usize = 1;
    for j in 1..totals.assignments.0 as usize + 1 {
        let own = run_figures::figures_at(figures, j);
        let next = k + own.totals.records.0 as usize;
        at += put_assignment(&mut out[at..], draft, k, next, own.with_record());
        k = next;
    }
    write_file::put_end(&mut out[at..], 0, 89, totals, Date(0));
}

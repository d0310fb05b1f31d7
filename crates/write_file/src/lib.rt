// Writing into lent memory: end records made from their figures, and files of parts that are there.

#![tactic(auto)]

ghost use Rattle.std.specs.Prelude.{◌≡◌, ◌++◌, ◌+◌, ◌≤◌, length, drop};
ghost use Rattle.limits.specs.Limits.{record_bytes};
ghost use Rattle.operations.specs.Ends.{end_record, end89};
ghost use Rattle.write_file.specs.Parts.{figure_bytes};

use dates::Date;
use figures::totals::Totals;

// The figures of an end record, its zeros and its line feed, over the start of an output.
fn put_figures(out: &mut [u8], t: Totals, last: Date)
    requires { 73 ≤ length out.old }
    ensures { out.new ≡ figure_bytes t last ++ drop 73 out.old }
{
    write_fields::put_digits(out, 0, 8, u64::from(t.transactions.0));
    write_fields::put_digits(out, 8, 8, u64::from(t.records.0));
    write_fields::put_digits(out, 16, 17, t.sum.0);
    write_fields::put_digits(out, 33, 6, dates::ddmmyy_of(t.first));
    write_fields::put_digits(out, 39, 6, dates::ddmmyy_of(last));
    write_fields::put_digits(out, 45, 27, 0);
    write_fields::put_byte(out, 72, b'\n');
}

// An end record over the start of an output.
pub fn put_end(out: &mut [u8], service: u64, kind: u64, t: Totals, last: Date)
    requires { record_bytes ≤ length out.old }
    ensures { out.new ≡ end_record service kind t last ++ drop record_bytes out.old }
{
    write_fields::put_head(out, service, 0, kind);
    put_figures(&mut out[8..], t, last);
}

// A file over the start of an output: its start, its assignments, and its 89.
pub fn put_file(out: &mut [u8], start: &[u8], body: &[u8], t: Totals)
    requires { length start.now + length body.now + record_bytes ≤ length out.old }
    ensures { out.new ≡ (start.now ++ (body.now ++ end89 t)) ++ drop (length start.now + length body.now + record_bytes) out.old }
{
    let from = start.len();
    let to = from + body.len();
    field_texts::copy_to(out, start);
    field_texts::copy_to(&mut out[from..], body);
    put_end(&mut out[to..], 0, 89, t, Date(0));
}

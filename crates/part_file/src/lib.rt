// Parting a file, of any bytes, on any process day, into any two outputs: judge first, then write.

#![tactic(auto)]

ghost use Rattle.std.specs.Prelude.{◌≡◌, ◌&&◌, leb, ltb};
ghost use Rattle.operations.specs.Promises.{PartPromise};

use dates::ProcessDay;
use figures::counts::Count;
use limits::{FIGURE_SLOTS, MOST_ASSIGNMENTS, RECORD_BYTES};
use operations::{NotParted, Parting};

// Some assignments stand before the boundary, and some after it.
fn is_boundary(k: u64, assignments: Count) -> bool
    ensures { result ≡ leb 1 k && ltb k assignments.0 }
{
    (1 <= k) & (k < assignments.0 as u64)
}

// Parted after the k-th assignment, or refused with no byte changed.
pub fn part(day: ProcessDay, file: &[u8], k: u64, first: &mut [u8], second: &mut [u8]) -> Parting
    ensures { PartPromise day file.now k first.old second.old result first.new second.new }
{
    let mut keys = [0u64; MOST_ASSIGNMENTS];
    let mut figures = [0u64; FIGURE_SLOTS];
    let t = check_file::check_into(day, file, &mut keys, &mut figures)?;
    if !is_boundary(k, t.assignments) {
        return Err(NotParted::NoBoundary(t.assignments));
    }
    let end = file.len() - RECORD_BYTES;
    part_divide::divide(
        &file[0..RECORD_BYTES],
        &file[RECORD_BYTES..end],
        &figures,
        k as usize,
        t.assignments.0 as usize,
        first,
        second,
    )
}

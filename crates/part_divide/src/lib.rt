// Dividing the assignments of a sound file in two, each part a file of its own with the record 10 before it and an 89 after it.

#![tactic(auto)]

ghost use Rattle.std.specs.Prelude.{◌≡◌, length};
ghost use Rattle.figures.specs.Totals.{◌⊕◌, one_record};
ghost use Rattle.limits.specs.Limits.{most_records};
ghost use Rattle.run_growth.specs.Bounds.{Bounded};
ghost use Rattle.operations.specs.Parting.{lent_parted};
ghost use Rattle.part_divide.specs.Halves.{Divisible, first_half, second_half, divided};

use figures::totals::Totals;
use layout::Reason;
use limits::RECORD_BYTES;
use operations::{NotParted, Parting};
use rules::Refusal;

// Figures with a record 10 before them.
fn with_head(t: Totals) -> Totals
    requires { Bounded most_records t }
    ensures { result ≡ one_record ⊕ t }
{
    Totals::none().with_record().plus(t)
}

// And with an 89 after them.
fn with_ends(t: Totals) -> Totals
    requires { Bounded most_records t }
    ensures { result ≡ (one_record ⊕ t) ⊕ one_record }
{
    with_head(t).with_record()
}

// Parts the assignments after the k-th of all, by the figures that the run left: 19 if either output is too short, and then neither is written.
// The last assignment's figures count the file's 89 too, which the second part's 89 takes the place of.
pub fn divide(
    head: &[u8],
    body: &[u8],
    figures: &[u64],
    k: usize,
    all: usize,
    first: &mut [u8],
    second: &mut [u8],
) -> Parting
    requires { Divisible head.now body.now figures.now k all }
    ensures { (result ≡ divided head.now body.now k (length first.old) (length second.old)) × (first.new ≡ lent_parted result (first_half head.now body.now k) first.old) × (second.new ≡ lent_parted result (second_half head.now body.now k) second.old) }
{
    let front = run_figures::sum_of(figures, 1, k + 1);
    let (before, behind) = body.split_at(RECORD_BYTES * front.records.0 as usize);
    let first_size = before.len() + 2 * RECORD_BYTES;
    let second_size = behind.len() + 2 * RECORD_BYTES;
    if first.len() < first_size || second.len() < second_size {
        return Err(NotParted::Refused(Refusal::whole(Reason::NoRoom)));
    }
    let back = run_figures::sum_of(figures, k + 1, all + 1);
    write_file::put_file(first, head, before, with_ends(front));
    write_file::put_file(second, head, behind, with_head(back));
    Ok((first_size, second_size))
}

// The figures of assignments in lent slots, five numbers for each: put there by the run, and read again, those of one and those of several together.

#![tactic(auto)]

ghost use Rattle.std.specs.Prelude.{◌≡◌, ◌-◌, ◌≤◌};
ghost use Rattle.limits.specs.Limits.{most_assignments};
ghost use Rattle.run_figures.specs.Slots.{with_figures, entry, summed, Legible, Summable};

use dates::Date;
use figures::amounts::Amount;
use figures::counts::Count;
use figures::totals::{AssignmentTotals, Totals};

// Slots for the figures of 500 assignments, and for what stands before the first.
pub const SLOTS_OF_ALL: usize = 2_505;

// Puts an assignment's figures after those of so many others; nothing where there is no room.
pub fn keep_figures(t: AssignmentTotals, figures: &mut [u64], before: usize)
    requires { before ≤ most_assignments }
    ensures { figures.new ≡ with_figures before t figures.old }
{
    let at = 5 * before;
    if figures.len() < at + 5 {
        return;
    }
    figures[at..at + 5].copy_from_slice(&[
        t.totals.transactions.0 as u64,
        t.totals.records.0 as u64,
        t.totals.sum.0,
        t.totals.first.0 as u64,
        t.last.0 as u64,
    ]);
}

// The figures of the j-th assignment.
#[tactic(auto, unfolding(crate::specs::Slots::entry))]
pub fn figures_at(figures: &[u64], j: usize) -> AssignmentTotals
    requires { Legible figures.now j }
    ensures { result ≡ entry figures.now j }
{
    let at = 5 * j;
    AssignmentTotals::of(
        Count(figures[at] as u32),
        Count(figures[at + 1] as u32),
        Amount(figures[at + 2]),
        Date(figures[at + 3] as u32),
        Date(figures[at + 4] as u32),
    )
}

// The figures of the assignments from one on to before another, together.
pub fn sum_of(figures: &[u64], from: usize, to: usize) -> Totals
    requires { Summable figures.now from to }
    ensures { result ≡ summed figures.now from (to - from) }
{
    let mut sum = Totals::none();
    for j in from..to {
        sum = sum.plus(figures_at(figures, j).totals);
    }
    sum
}

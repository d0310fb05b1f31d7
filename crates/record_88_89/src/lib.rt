// The records that end something: 88 an assignment, 89 a file. Their figures have to be those of the records before them.

#![tactic(auto)]

ghost use Rattle.std.specs.Prelude.{◌≡◌, List, ℕ, ◌+◌, ◌≤◌};
ghost use Rattle.fields.specs.Bytes.{Inside};
ghost use Rattle.layout.specs.Rows.{first_fault};
ghost use Rattle.rules.specs.Layouts.{own, head88, figures88, record88, record89};

use figures::totals::Totals;
use layout::Reason::{NotAddedUp, NotFixed, WrongFigure};
use layout::{Finding, demand};
use limits::Record;
use rules::Assignment;

// A figure: digits, and the right number.
#[tactic(auto, unfolding(layout::specs::Rows::first_fault, fields::specs::Numbers::number_of))]
fn figure_at(r: &[u8], field: u8, from: usize, to: usize, right: u64) -> Finding
    requires { Inside from to r.now × (to ≤ from + 16) }
    ensures { (f : Totals) (ks : List ℕ) → result ≡ first_fault f ks r.now (own (record { number = field; from = from; to = to }) r.now right) }
{
    let n = record_shared::digits_at(r, field, from, to)?;
    demand(n == right, WrongFigure, field)
}

// Fields 5 to 8 against the totals up to this record, which counts itself. The first that has a fault ends it.
fn figures_against(r: &Record, totals: Totals) -> Finding
    ensures { (f : Totals) (ks : List ℕ) → result ≡ first_fault f ks r.now (figures88 r.now totals) }
{
    figure_at(r, 5, 9, 16, u64::from(totals.transactions.0))?;
    figure_at(r, 6, 17, 24, u64::from(totals.records.0) + 1)?;
    figure_at(r, 7, 25, 41, totals.sum.0)?;
    figure_at(r, 8, 42, 47, dates::ddmmyy_of(totals.first))
}

// Fields 1 to 3 of a record 88, after a group that gives its amount.
fn belonging88(r: &Record, a: &Assignment) -> Finding
    ensures { (f : Totals) (ks : List ℕ) → result ≡ first_fault f ks r.now (head88 a.now r.now) }
{
    demand(a.group.gives(a.due), NotAddedUp, 0)?;
    record_shared::belonging(r, a)?;
    demand(fields::same_at(r, 5, 6, b"00"), NotFixed, 3)
}

// Record 88 whole: the first fault in the order of its fields.
pub fn check88(r: &Record, a: Assignment) -> Finding
    ensures { (f : Totals) (ks : List ℕ) → result ≡ first_fault f ks r.now (record88 a r.now) }
{
    belonging88(r, &a)?;
    figures_against(r, a.totals.totals)?;
    figure_at(r, 9, 48, 53, dates::ddmmyy_of(a.totals.last))?;
    demand(fields::zeros_from(r, 54), NotFixed, 10)
}

// Record 89 whole: the first fault in the order of its fields.
pub fn check89(r: &Record, file: Totals) -> Finding
    ensures { (ks : List ℕ) → result ≡ first_fault file ks r.now (record89 r.now) }
{
    record_shared::outside(r)?;
    figures_against(r, file)?;
    demand(fields::zeros_from(r, 48), NotFixed, 9)
}

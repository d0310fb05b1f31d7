// One record after the state: what its check found, the state after it, and what it adds to the keys and the figures.

#![tactic(auto)]

ghost use Rattle.std.specs.Prelude.{◌≡◌, List, ℕ};
ghost use Rattle.limits.specs.Limits.{most_records};
ghost use Rattle.run_growth.specs.Bounds.{Small};
ghost use Rattle.rules.specs.Codes.{kind_of};
ghost use Rattle.rules.specs.Run.{stepped, kind_step, step_of};
ghost use Rattle.run_step.specs.Passed.{passed_on};
ghost use Rattle.run_step.specs.Took.{keys_of, Ready, Took};

use dates::Window;
use figures::groups::Group;
use layout::{Finding, Reason, demand};
use limits::Record;
use rules::{Kind, Mode, Places, State, Step};

// After a sound record that brings no transaction, with the group and the places as they then are.
fn pass_with(st: State, kind: Kind, group: Group, places: Places) -> State
    requires { Small most_records st }
    ensures { result ≡ passed_on kind group places st }
{
    State {
        file: st.file.with_record(),
        assignment: run_growth::pass(st.assignment, kind, group, places),
    }
}

// On after a record that leaves the group and the places as they were, or stop at what was found in it.
fn pass_on(st: State, kind: Kind, found: Finding) -> Step
    requires { Small most_records st }
    ensures { result ≡ stepped found (passed_on kind st.assignment.group st.assignment.places st) }
{
    found?;
    Ok(pass_with(st, kind, st.assignment.group, st.assignment.places))
}

fn step10(st: State, r: &Record) -> Step
    requires { Small most_records st }
    ensures { (w : Window) (ks : List ℕ) → result ≡ kind_step Kind.R10 w st ks r.now }
{
    record_10_20::check10(r)?;
    Ok(State {
        file: st.file.with_record(),
        assignment: run_growth::before_assignments(Kind::R10),
    })
}

// A sound record 20 puts its key after those before, and the figures of what it ends after theirs.
fn step20(st: State, r: &Record, keys: &mut [u64], figures: &mut [u64]) -> Step
    requires { Ready st keys.old }
    ensures { (w : Window) → Took (kind_step Kind.R20 w st (keys_of st keys.old) r.now) Kind.R20 st r.now keys.old figures.old result keys.new figures.new }
{
    let key = record_10_20::check20(r, st.assignment, st.file, keys)?;
    let before = st.file.assignments.0 as usize;
    keys[before] = key;
    run_figures::keep_figures(st.assignment.totals, figures, before);
    Ok(State {
        file: st.file.with_assignment(),
        assignment: run_growth::open_for(services::service_for(fields::code_at(r, 3))),
    })
}

fn step30(st: State, r: &Record, w: Window) -> Step
    requires { Small most_records st }
    ensures { (ks : List ℕ) → result ≡ kind_step Kind.R30 w st ks r.now }
{
    let paid = record_30::check30(r, w, st.assignment, st.file)?;
    let code = fields::code_at(r, 5);
    Ok(State {
        file: st.file.with_transaction(paid.amount, paid.date),
        assignment: run_growth::pay(st.assignment, code, paid.number, paid.amount, paid.date),
    })
}

fn step49(st: State, r: &Record) -> Step
    requires { Small most_records st }
    ensures { (w : Window) (ks : List ℕ) → result ≡ kind_step Kind.R49 w st ks r.now }
{
    let places = record_49::check49(r, st.assignment)?;
    Ok(pass_with(st, Kind::R49, st.assignment.group, places))
}

fn step50(st: State, r: &Record) -> Step
    requires { Small most_records st }
    ensures { (w : Window) (ks : List ℕ) → result ≡ kind_step Kind.R50 w st ks r.now }
{
    let amount = record_50::check50(r, st.assignment)?;
    let group = run_growth::group_with(st.assignment.group, fields::code_at(r, 5), amount);
    Ok(pass_with(st, Kind::R50, group, st.assignment.places))
}

// A record whose type may stand here.
fn step_for(
    kind: Kind,
    w: Window,
    st: State,
    r: &Record,
    keys: &mut [u64],
    figures: &mut [u64],
) -> Step
    requires { Ready st keys.old × (kind ≡ Kind.Other → ⊥) }
    ensures { Took (kind_step kind w st (keys_of st keys.old) r.now) kind st r.now keys.old figures.old result keys.new figures.new }
{
    let a = st.assignment;
    match kind {
        Kind::R30 => step30(st, r, w),
        Kind::R31 => pass_on(st, Kind::R31, record_31_40::check31(r, a)),
        Kind::R40 => pass_on(st, Kind::R40, record_31_40::check40(r, a)),
        Kind::R41 => pass_on(st, Kind::R41, record_41::check41(r, a)),
        Kind::R49 => step49(st, r),
        Kind::R50 => step50(st, r),
        Kind::R88 => pass_on(st, Kind::R88, record_88_89::check88(r, a)),
        Kind::R20 => step20(st, r, keys, figures),
        Kind::R10 => step10(st, r),
        Kind::R89 => pass_on(st, Kind::R89, record_88_89::check89(r, st.file)),
        Kind::Other => unreachable!(),
    }
}

// One record after the state. The first keys are those of the assignments before, and the first figures those of the assignments that have ended.
pub fn take_record(
    mode: Mode,
    w: Window,
    st: State,
    r: &Record,
    keys: &mut [u64],
    figures: &mut [u64],
) -> Step
    requires { Ready st keys.old }
    ensures { Took (step_of mode w st (keys_of st keys.old) r.now) (kind_of r.now) st r.now keys.old figures.old result keys.new figures.new }
{
    demand(r[80] == b'\n', Reason::NoLineFeed, 0)?;
    let kind = run_order::kind_of(r);
    demand(
        run_order::may_follow(mode, st.assignment, kind),
        Reason::OutOfPlace,
        4,
    )?;
    step_for(kind, w, st, r, keys, figures)
}

// What a sound record makes of the assignment at hand.

#![tactic(auto)]

ghost use Rattle.std.specs.Prelude.{◌≡◌};
ghost use Rattle.limits.specs.Limits.{most_records};
ghost use Rattle.figures.specs.Totals.{one_record, one_transaction};
ghost use Rattle.run_growth.specs.Bounds.{Bounded, WithinWide};
ghost use Rattle.rules.specs.Growth.{nothing_yet, opened, passed, due_for, paid_as, grouped_as};

use dates::Date;
use figures::amounts::Amount;
use figures::counts::TransactionNumber;
use figures::groups::Group;
use figures::totals::AssignmentTotals;
use rules::{Assignment, Kind, Places};
use services::Service;

// Before any assignment, after the record of this type.
pub fn before_assignments(kind: Kind) -> Assignment
    ensures { result ≡ nothing_yet kind }
{
    Assignment {
        last: kind,
        service: Service::Remittance,
        totals: AssignmentTotals::none(),
        number: TransactionNumber(0),
        code: 0,
        due: Amount(0),
        group: Group::empty(),
        places: Places::none(),
    }
}

// After a record 20 of the service.
pub fn open_for(service: Service) -> Assignment
    ensures { result ≡ opened service }
{
    Assignment {
        service,
        totals: AssignmentTotals::none().with_assignment(),
        ..before_assignments(Kind::R20)
    }
}

// After a record that brings no transaction, with the group and the places as they then are.
pub fn pass(a: Assignment, kind: Kind, group: Group, places: Places) -> Assignment
    requires { Bounded most_records a.totals.totals }
    ensures { result ≡ passed kind group places a }
{
    Assignment {
        last: kind,
        totals: a.totals.with_record(),
        group,
        places,
        ..a
    }
}

// What the sub-specifications of a transaction have to give: nothing but for type 16.
fn due_for(code: u8, amount: Amount) -> Amount
    ensures { result ≡ due_for code amount }
{
    if code == 16 {
        return amount;
    }
    Amount(0)
}

// After a record 30 of this type, number, amount and date.
pub fn pay(
    a: Assignment,
    code: u8,
    number: TransactionNumber,
    amount: Amount,
    date: Date,
) -> Assignment
    requires { Bounded most_records a.totals.totals × WithinWide amount }
    ensures { result ≡ paid_as code number amount date a }
{
    Assignment {
        last: Kind::R30,
        totals: a.totals.with_transaction(amount, date),
        number,
        code,
        due: due_for(code, amount),
        group: Group::empty(),
        places: Places::none(),
        ..a
    }
}

// A group with one sub-specification more: type 16 specifies, type 17 credits.
pub fn group_with(g: Group, code: u8, amount: Amount) -> Group
    requires { WithinWide g.specified × WithinWide g.credited × WithinWide amount }
    ensures { result ≡ grouped_as code amount g }
{
    if code == 16 {
        return g.with_specified(amount);
    }
    g.with_credited(amount)
}

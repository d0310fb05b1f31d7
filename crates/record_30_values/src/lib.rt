// Fields of a record 30, the payment, that bring a value: its number, its date, its amount.

#![tactic(auto)]

ghost use Rattle.std.specs.Prelude.{◌≡◌, List, ℕ, ◌<◌};
ghost use Rattle.dates.specs.Dates.{read_day};
ghost use Rattle.fields.specs.Numbers.{pairs_of};
ghost use Rattle.figures.specs.Figures.{transaction_number};
ghost use Rattle.layout.specs.Findings.{brings};
ghost use Rattle.layout.specs.Rows.{first_fault};
ghost use Rattle.rules.specs.Fields.{number_in, transaction_field};
ghost use Rattle.rules.specs.Layouts.{number30, date30, amount30};
ghost use Rattle.rules.specs.Payments.{own_limit, limit_for, date_in, amount_in};

use dates::{Date, Window};
use figures::amounts::Amount;
use figures::counts::TransactionNumber;
use figures::totals::Totals;
use layout::Reason::{Disagrees, NotADate, OutOfTime, PastLimit, WrongForm};
use layout::{Fault, demand};
use limits::{MOST_OF_ALL, MOST_OF_SERVICE_04, MOST_OF_TYPE_04, Record};
use record_shared::{digits_at, transaction_number};
use rules::Assignment;
use services::Service;

// Field 5, the number that comes next.
pub fn number(r: &Record, a: Assignment) -> Result<TransactionNumber, Fault>
    ensures { (f : Totals) (ks : List ℕ) → result ≡ brings (first_fault f ks r.now (number30 a r.now)) (transaction_number (number_in transaction_field r.now)) }
{
    let number = transaction_number(r)?;
    demand(a.number.precedes(number), Disagrees, 5)?;
    Ok(number)
}

// The date whose day, month and year are numbers of two digits, side by side.
pub fn day_in(pairs: u64) -> Option<Date>
    ensures { (n : ℕ) → n < 1000000 → pairs ≡ pairs_of n → result ≡ read_day n }
{
    dates::day_of(
        2000 + pairs / 0x1000000000000 % 0x100,
        pairs / 0x100000000 % 0x100,
        pairs / 0x10000 % 0x100,
    )
}

// Field 6, a date that is in time for the service.
pub fn date(r: &Record, w: Window, a: Assignment) -> Result<Date, Fault>
    ensures { (f : Totals) (ks : List ℕ) → result ≡ brings (first_fault f ks r.now (date30 w a r.now)) (date_in r.now) }
{
    let Some(pairs) = fields::pairs_at(r, 16) else {
        return Err(Fault {
            reason: WrongForm,
            field: 6,
        });
    };
    let date = day_in(pairs).ok_or(Fault {
        reason: NotADate,
        field: 6,
    })?;
    demand(w.in_time(a.service, date), OutOfTime, 6)?;
    Ok(date)
}

// The amount's own limit, by the type.
#[tactic(auto, unfolding(rules::specs::Payments::own_limit))]
pub fn keeps_own_limit(code: u8, n: u64) -> bool
    ensures { result ≡ own_limit code n }
{
    match code {
        4 => n <= MOST_OF_TYPE_04,
        16 => 0 < n,
        _ => true,
    }
}

// The limit of an assignment's sum.
fn limit_for(service: Service) -> Amount
    ensures { result ≡ limit_for service }
{
    match service {
        Service::Autogiro => Amount(MOST_OF_ALL),
        Service::Remittance => Amount(MOST_OF_SERVICE_04),
    }
}

// Field 8: its own limit, the assignment's, the file's. Merged into the loop over records, as every function that is handed the assignment: one that is called would have all of it laid in memory for each record.
#[inline(always)]
#[tactic(auto, unfolding(layout::specs::Rows::first_fault, fields::specs::Numbers::number_of))]
pub fn amount(r: &Record, a: Assignment, file: Totals) -> Result<Amount, Fault>
    ensures { (ks : List ℕ) → result ≡ brings (first_fault file ks r.now (amount30 a r.now)) (amount_in r.now) }
{
    let n = digits_at(r, 8, 33, 49)?;
    let amount = Amount(n);
    let sum = a.totals.totals.sum;
    demand(keeps_own_limit(fields::code_at(r, 5), n), PastLimit, 8)?;
    demand(sum.holds(amount, limit_for(a.service)), PastLimit, 8)?;
    demand(file.sum.holds(amount, Amount(MOST_OF_ALL)), PastLimit, 8)?;
    Ok(amount)
}

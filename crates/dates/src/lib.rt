// Dates of the years 2000 to 2099, and the window that a process day opens.

#![tactic(auto, unfolding(crate::specs::Dates::days_in, crate::specs::Dates::is_date, crate::specs::Dates::day_of, crate::specs::Dates::read_day, crate::specs::Dates::ddmmyy, crate::specs::Dates::earlier, crate::specs::Dates::later, crate::specs::Windows::window_of, crate::specs::Windows::in_time, crate::specs::Windows::too_late, crate::specs::Windows::too_early))]

ghost use Rattle.std.specs.Prelude.{◌≡◌, ◌||◌, eqb};
ghost use Rattle.dates.specs.Dates.{days_in, is_date, day_of, read_day, ddmmyy, earlier, later};
ghost use Rattle.dates.specs.Windows.{window_of, earliest, in_time};

use services::Service;

// A date's number: year times 10000, month times 100, day. 0 stands for no date yet.
#[derive(Clone, Copy, Debug, PartialEq, Eq)]
pub struct Date(pub u32);

// The day that the caller processes on, in full: 2025, 10, 1. It may be no date at all.
#[derive(Clone, Copy, Debug, PartialEq, Eq)]
pub struct ProcessDay {
    pub year: u64,
    pub month: u64,
    pub day: u64,
}

// All that a rule asks of the process day.
#[derive(Clone, Copy, Debug, PartialEq, Eq)]
pub struct Window {
    pub latest: Date,
    pub earliest01: Date,
    pub earliest04: Date,
}

// A month of 30 days.
fn is_short(month: u64) -> bool
    ensures { result ≡ (eqb month 4 || eqb month 6 || eqb month 9 || eqb month 11) }
{
    (month == 4) | (month == 6) | (month == 9) | (month == 11)
}

// February has a test of its own; the others are told by arithmetic, since a branch on the month is guessed wrong.
fn days_in(year: u64, month: u64) -> u64
    ensures { result ≡ days_in year month }
{
    if month == 2 {
        if year % 4 == 0 {
            return 29;
        }
        return 28;
    }
    31 - u64::from(is_short(month))
}

fn is_date(year: u64, month: u64, day: u64) -> bool
    ensures { result ≡ is_date year month day }
{
    (2000 <= year)
        & (year <= 2099)
        & ((1 <= month) & (month <= 12))
        & ((1 <= day) & (day <= days_in(year, month)))
}

// The date of a year, a month and a day, of any size.
pub fn day_of(year: u64, month: u64, day: u64) -> Option<Date>
    ensures { result ≡ day_of year month day }
{
    if !is_date(year, month, day) {
        return None;
    }
    Some(Date((year * 10000 + month * 100 + day) as u32))
}

// The date that a number reads as, its digits being DDMMYY.
pub fn read_day(n: u64) -> Option<Date>
    ensures { result ≡ read_day n }
{
    day_of(2000 + n % 100, n / 100 % 100, n / 10000)
}

// The number whose digits are a date's DDMMYY.
pub fn ddmmyy_of(d: Date) -> u64
    ensures { result ≡ ddmmyy d }
{
    let n = u64::from(d.0);
    n % 100 * 10000 + n / 100 % 100 * 100 + n / 10000 % 100
}

pub fn earlier_of(a: Date, b: Date) -> Date
    ensures { result ≡ earlier a b }
{
    if a.0 == 0 {
        return b;
    }
    if b.0 == 0 {
        return a;
    }
    if b.0 < a.0 { b } else { a }
}

pub fn later_of(a: Date, b: Date) -> Date
    ensures { result ≡ later a b }
{
    if a.0 < b.0 { b } else { a }
}

impl ProcessDay {
    // The window of the process day, or that it is no date.
    pub fn window(self) -> Option<Window>
        ensures { result ≡ window_of self }
    {
        let day = day_of(self.year, self.month, self.day)?;
        Some(Window {
            latest: Date(day.0 + 10000),
            earliest01: Date(day.0 - 10000),
            earliest04: Date(0),
        })
    }
}

impl Window {
    // Neither too late nor, for the service, too early.
    pub fn in_time(self, service: Service, d: Date) -> bool
        ensures { result ≡ in_time self service d }
    {
        let first = self.earliest_for(service);
        (d.0 <= self.latest.0) & (first.0 <= d.0)
    }

    fn earliest_for(self, service: Service) -> Date
        ensures { result ≡ earliest self service }
    {
        match service {
            Service::Autogiro => self.earliest01,
            Service::Remittance => self.earliest04,
        }
    }
}

// The running totals of a file and of an assignment. Each method answers the totals grown by what one record brings.

ghost use Rattle.std.specs.Prelude.{◌≡◌, ◌+◌, ◌≤◌};
ghost use Rattle.figures.specs.Figures.{Fits};
ghost use Rattle.figures.specs.Totals.{none, ◌⊕◌, one_record, one_assignment, one_transaction, with_records, less_records, none_yet, one_of, ◌⊞◌, undated, dated, Room};

use super::amounts::Amount;
use super::counts::Count;
use dates::Date;

#[derive(Clone, Copy, Debug, PartialEq, Eq)]
pub struct Totals {
    pub assignments: Count,
    pub transactions: Count,
    pub records: Count,
    pub sum: Amount,
    pub first: Date,
}

#[derive(Clone, Copy, Debug, PartialEq, Eq)]
pub struct AssignmentTotals {
    pub totals: Totals,
    pub last: Date,
}

impl Totals {
    pub fn none() -> Totals
        ensures { result ≡ none }
    {
        Totals {
            assignments: Count(0),
            transactions: Count(0),
            records: Count(0),
            sum: Amount(0),
            first: Date(0),
        }
    }

    pub fn plus(self, more: Totals) -> Totals
        requires { Room self more }
        ensures { result ≡ self ⊕ more }
    {
        Totals {
            assignments: self.assignments.plus(more.assignments),
            transactions: self.transactions.plus(more.transactions),
            records: self.records.plus(more.records),
            sum: self.sum.plus(more.sum),
            first: dates::earlier_of(self.first, more.first),
        }
    }

    // One record more.
    pub fn with_record(self) -> Totals
        requires { Room self one_record }
        ensures { result ≡ self ⊕ one_record }
    {
        self.plus(Totals {
            records: Count(1),
            ..Totals::none()
        })
    }

    // A record 20 more.
    pub fn with_assignment(self) -> Totals
        requires { Room self one_assignment }
        ensures { result ≡ self ⊕ one_assignment }
    {
        self.plus(Totals {
            assignments: Count(1),
            records: Count(1),
            ..Totals::none()
        })
    }

    // A record 30 more, of this amount and date.
    pub fn with_transaction(self, amount: Amount, date: Date) -> Totals
        requires { Room self (one_transaction amount date) }
        ensures { result ≡ self ⊕ one_transaction amount date }
    {
        self.plus(Totals {
            transactions: Count(1),
            records: Count(1),
            sum: amount,
            first: date,
            ..Totals::none()
        })
    }

    // So many records more.
    pub fn with_records(self, n: u32) -> Totals
        requires { Fits 32 (self.records.0 + n) }
        ensures { result ≡ with_records n self }
    {
        Totals {
            records: Count(self.records.0 + n),
            ..self
        }
    }

    // So many records fewer.
    pub fn less_records(self, n: u32) -> Totals
        requires { n ≤ self.records.0 }
        ensures { result ≡ less_records n self }
    {
        Totals {
            records: Count(self.records.0 - n),
            ..self
        }
    }

    // The same, number by number: a copy of the whole would tie what is copied to the layout of what it is copied into.
    pub fn copied(self) -> Totals
        ensures { result ≡ self }
    {
        Totals {
            assignments: Count(self.assignments.0),
            transactions: Count(self.transactions.0),
            records: Count(self.records.0),
            sum: Amount(self.sum.0),
            first: Date(self.first.0),
        }
    }
}

impl AssignmentTotals {
    // One assignment of these figures.
    pub fn of(
        transactions: Count,
        records: Count,
        sum: Amount,
        first: Date,
        last: Date,
    ) -> AssignmentTotals
        ensures { result ≡ one_of transactions records sum first last }
    {
        AssignmentTotals {
            totals: Totals {
                assignments: Count(1),
                transactions,
                records,
                sum,
                first,
            },
            last,
        }
    }

    pub fn none() -> AssignmentTotals
        ensures { result ≡ none_yet }
    {
        AssignmentTotals {
            totals: Totals::none(),
            last: Date(0),
        }
    }

    pub fn with_record(self) -> AssignmentTotals
        requires { Room self.totals one_record }
        ensures { result ≡ self ⊞ undated one_record }
    {
        AssignmentTotals {
            totals: self.totals.with_record(),
            ..self
        }
    }

    pub fn with_assignment(self) -> AssignmentTotals
        requires { Room self.totals one_assignment }
        ensures { result ≡ self ⊞ undated one_assignment }
    {
        AssignmentTotals {
            totals: self.totals.with_assignment(),
            ..self
        }
    }

    pub fn with_transaction(self, amount: Amount, date: Date) -> AssignmentTotals
        requires { Room self.totals (one_transaction amount date) }
        ensures { result ≡ self ⊞ dated amount date }
    {
        AssignmentTotals {
            totals: self.totals.with_transaction(amount, date),
            last: dates::later_of(self.last, date),
        }
    }
}

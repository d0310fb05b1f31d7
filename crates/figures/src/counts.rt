// Counts of records, transactions and assignments, and the numbers that transactions bear.

ghost use Rattle.std.specs.Prelude.{◌≡◌, ◌+◌};
ghost use Rattle.figures.specs.Figures.{follows, Fits};
ghost use Rattle.figures.specs.Totals.{count_plus};

#[derive(Clone, Copy, Debug, PartialEq, Eq)]
pub struct Count(pub u32);

// The number of a transaction; 0 where there is none yet.
#[derive(Clone, Copy, Debug, PartialEq, Eq)]
pub struct TransactionNumber(pub u32);

impl Count {
    pub fn plus(self, more: Count) -> Count
        requires { Fits 32 (self.0 + more.0) }
        ensures { result ≡ count_plus self more }
    {
        Count(self.0 + more.0)
    }
}

impl TransactionNumber {
    // `n` may come next after this number.
    pub fn precedes(self, n: TransactionNumber) -> bool
        ensures { result ≡ follows self n }
    {
        if self.0 == 0 {
            return 0 < n.0;
        }
        if n.0 == 0 {
            return false;
        }
        n.0 - 1 == self.0
    }
}

// Amounts in øre.

ghost use Rattle.std.specs.Prelude.{◌≡◌, ◌+◌};
ghost use Rattle.figures.specs.Figures.{plus, within, Fits};

#[derive(Clone, Copy, Debug, PartialEq, Eq)]
pub struct Amount(pub u64);

impl Amount {
    // This sum with `more` added stays at or below the limit. Nothing is added to find out, so nothing wraps.
    pub fn holds(self, more: Amount, limit: Amount) -> bool
        ensures { result ≡ within self more limit }
    {
        if limit.0 < self.0 {
            return false;
        }
        more.0 <= limit.0 - self.0
    }

    pub fn plus(self, more: Amount) -> Amount
        requires { Fits 64 (self.0 + more.0) }
        ensures { result ≡ plus self more }
    {
        Amount(self.0 + more.0)
    }
}

// A group of records 50: what is specified (type 16) and what is credited (type 17).

ghost use Rattle.std.specs.Prelude.{◌≡◌, ◌+◌};
ghost use Rattle.figures.specs.Figures.{Fits};
ghost use Rattle.figures.specs.Groups.{empty_group, with_specified, with_credited, gives};

use super::amounts::Amount;

#[derive(Clone, Copy, Debug, PartialEq, Eq)]
pub struct Group {
    pub specified: Amount,
    pub credited: Amount,
}

impl Group {
    pub fn empty() -> Group
        ensures { result ≡ empty_group }
    {
        Group {
            specified: Amount(0),
            credited: Amount(0),
        }
    }

    pub fn with_specified(self, a: Amount) -> Group
        requires { Fits 64 (self.specified.0 + a.0) }
        ensures { result ≡ with_specified self a }
    {
        Group {
            specified: self.specified.plus(a),
            ..self
        }
    }

    pub fn with_credited(self, a: Amount) -> Group
        requires { Fits 64 (self.credited.0 + a.0) }
        ensures { result ≡ with_credited self a }
    {
        Group {
            credited: self.credited.plus(a),
            ..self
        }
    }

    // The group gives the amount of its record 30. Compared by taking off, so nothing wraps.
    pub fn gives(self, a: Amount) -> bool
        ensures { result ≡ gives self a }
    {
        if self.specified.0 < self.credited.0 {
            return false;
        }
        self.specified.0 - self.credited.0 == a.0
    }
}

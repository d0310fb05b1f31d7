// Fields 1 to 5 of the records of a transaction.

ghost use Rattle.std.specs.Prelude.{◌≡◌, ◌++◌, drop};
ghost use Rattle.make_values.specs.Opening.{opening_long, opening_bytes};

use crate::fits;
use layout::Finding;
use limits::Record;
use write_fields::{put_digits, put_head};

// Service, type and transaction number. `code` is the type.
#[derive(Clone, Copy, Debug, PartialEq, Eq)]
pub struct Opening {
    pub service: u64,
    pub code: u64,
    pub number: u64,
}

impl Opening {
    #[tactic(auto, unfolding(operations::specs::Making::too_long, crate::specs::Opening::opening_long))]
    pub(crate) fn too_long(&self) -> Finding
        ensures { result ≡ opening_long self.now.service self.now.code self.now.number }
    {
        fits(self.service < 100, 2)?;
        fits(self.code < 100, 3)?;
        fits(self.number < 10000000, 5)
    }

    pub(crate) fn put(&self, r: &mut Record, kind: u64)
        ensures { r.new ≡ opening_bytes self.now.service self.now.code kind self.now.number ++ drop 15 r.old }
    {
        put_head(r, self.service, self.code, kind);
        put_digits(r, 8, 7, self.number);
    }
}

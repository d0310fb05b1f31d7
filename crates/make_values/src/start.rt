// The starts: record 10 of a file, record 20 of an assignment.

ghost use Rattle.rules.specs.declared.Kind.{Kind};
ghost use Rattle.operations.specs.Making.{made10, made20};

use crate::{Values, fits};
use layout::Finding;
use limits::Record;
use write_fields::{put_byte, put_digits, put_head};

// Record 10, the start of a file.
#[derive(Clone, Copy, Debug, PartialEq, Eq)]
pub struct FileStart {
    pub sender: u64,
    pub number: u64,
}

impl Values for FileStart {
    ghost kind = { Kind.R10 };

    ghost puts = { λ v. made10 v.sender v.number };

    ghost texts_fit = { λ v. Unit {0} };

    ghost fitting = { λ v h. tt };

    #[tactic(auto, unfolding(operations::specs::Making::too_long))]
    fn too_long(&self) -> Finding {
        fits(self.sender < 100000000, 5)?;
        fits(self.number < 10000000, 6)
    }

    fn put(&self, r: &mut Record) {
        put_head(r, 0, 0, 10);
        put_digits(r, 8, 8, self.sender);
        put_digits(r, 16, 7, self.number);
        put_digits(r, 23, 8, 8080);
        put_digits(r, 31, 49, 0);
        put_byte(r, 80, 10);
    }
}

// Record 20, the start of an assignment.
#[derive(Clone, Copy, Debug, PartialEq, Eq)]
pub struct AssignmentStart {
    pub service: u64,
    pub agreement: u64,
    pub assignment: u64,
    pub account: u64,
}

impl Values for AssignmentStart {
    ghost kind = { Kind.R20 };

    ghost puts = { λ v. made20 v.service v.agreement v.assignment v.account };

    ghost texts_fit = { λ v. Unit {0} };

    ghost fitting = { λ v h. tt };

    #[tactic(auto, unfolding(operations::specs::Making::too_long))]
    fn too_long(&self) -> Finding {
        fits(self.service < 100, 2)?;
        fits(self.agreement < 1000000000, 5)?;
        fits(self.assignment < 10000000, 6)?;
        fits(self.account < 100000000000, 7)
    }

    fn put(&self, r: &mut Record) {
        put_head(r, self.service, 0, 20);
        put_digits(r, 8, 9, self.agreement);
        put_digits(r, 17, 7, self.assignment);
        put_digits(r, 24, 11, self.account);
        put_digits(r, 35, 45, 0);
        put_byte(r, 80, 10);
    }
}

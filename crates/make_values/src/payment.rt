// The payment: record 30, its second half 31, and the sub-specification 50.

ghost use Rattle.std.proofs.Common.{rules};
ghost use Rattle.std.specs.Prelude.{◌≤◌, length};
ghost use Rattle.rules.specs.declared.Kind.{Kind};
ghost use Rattle.operations.specs.Making.{made30, made31, made50};

use crate::{Opening, Values, fits};
use figures::amounts::Amount;
use layout::Finding;
use limits::Record;
use write_fields::{put_byte, put_digits, put_left_at, put_right_at};

// Record 30, the payment.
#[derive(Clone, Copy, Debug, PartialEq, Eq)]
pub struct Payment<'a> {
    pub opening: Opening,
    pub date: u64,
    pub party: &'a [u8],
    pub amount: Amount,
    pub kid: &'a [u8],
}

impl<'a> Values for Payment<'a> {
    ghost kind = { Kind.R30 };

    ghost puts = { λ v. made30 v.opening.service v.opening.code v.opening.number v.date v.party.now v.amount.0 v.kid.now };

    ghost texts_fit = { λ v. (length v.party.now ≤ 11) × (length v.kid.now ≤ 25) };

    ghost fitting = { Prim.search rules };

    #[tactic(auto, unfolding(operations::specs::Making::too_long, crate::specs::Opening::opening_long))]
    fn too_long(&self) -> Finding {
        self.opening.too_long()?;
        fits(self.date < 1000000, 6)?;
        fits(self.party.len() <= 11, 7)?;
        fits(self.amount.0 < 100000000000000000, 8)?;
        fits(self.kid.len() <= 25, 9)
    }

    fn put(&self, r: &mut Record) {
        self.opening.put(r, 30);
        put_digits(r, 15, 6, self.date);
        put_right_at(r, 21, 11, self.party);
        put_digits(r, 32, 17, self.amount.0);
        put_right_at(r, 49, 25, self.kid);
        put_digits(r, 74, 6, 0);
        put_byte(r, 80, 10);
    }
}

// Record 31, the payment's second half.
#[derive(Clone, Copy, Debug, PartialEq, Eq)]
pub struct PaymentTexts<'a> {
    pub opening: Opening,
    pub text6: &'a [u8],
    pub text7: &'a [u8],
    pub text8: &'a [u8],
}

impl<'a> Values for PaymentTexts<'a> {
    ghost kind = { Kind.R31 };

    ghost puts = { λ v. made31 v.opening.service v.opening.code v.opening.number v.text6.now v.text7.now v.text8.now };

    ghost texts_fit = { λ v. (length v.text6.now ≤ 10) × (length v.text7.now ≤ 25) × (length v.text8.now ≤ 25) };

    ghost fitting = { Prim.search rules };

    #[tactic(auto, unfolding(operations::specs::Making::too_long, crate::specs::Opening::opening_long))]
    fn too_long(&self) -> Finding {
        self.opening.too_long()?;
        fits(self.text6.len() <= 10, 6)?;
        fits(self.text7.len() <= 25, 7)?;
        fits(self.text8.len() <= 25, 8)
    }

    fn put(&self, r: &mut Record) {
        self.opening.put(r, 31);
        put_left_at(r, 15, 10, self.text6);
        put_left_at(r, 25, 25, self.text7);
        put_left_at(r, 50, 25, self.text8);
        put_digits(r, 75, 5, 0);
        put_byte(r, 80, 10);
    }
}

// Record 50, a sub-specification.
#[derive(Clone, Copy, Debug, PartialEq, Eq)]
pub struct Specification<'a> {
    pub opening: Opening,
    pub kid: &'a [u8],
    pub amount: Amount,
}

impl<'a> Values for Specification<'a> {
    ghost kind = { Kind.R50 };

    ghost puts = { λ v. made50 v.opening.service v.opening.code v.opening.number v.kid.now v.amount.0 };

    ghost texts_fit = { λ v. length v.kid.now ≤ 25 };

    ghost fitting = { Prim.search rules };

    #[tactic(auto, unfolding(operations::specs::Making::too_long, crate::specs::Opening::opening_long))]
    fn too_long(&self) -> Finding {
        self.opening.too_long()?;
        fits(self.kid.len() <= 25, 6)?;
        fits(self.amount.0 < 100000000000000000, 7)
    }

    fn put(&self, r: &mut Record) {
        self.opening.put(r, 50);
        put_right_at(r, 15, 25, self.kid);
        put_digits(r, 40, 17, self.amount.0);
        put_digits(r, 57, 23, 0);
        put_byte(r, 80, 10);
    }
}

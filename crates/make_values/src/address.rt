// The payee's address: record 40, and its second half 41.

ghost use Rattle.std.proofs.Common.{rules};
ghost use Rattle.std.specs.Prelude.{◌≤◌, length};
ghost use Rattle.rules.specs.declared.Kind.{Kind};
ghost use Rattle.operations.specs.Making.{made40, made41};

use crate::{Opening, Values, fits};
use layout::Finding;
use limits::Record;
use write_fields::{put_byte, put_digits, put_left_at};

// Record 40, the payee's address.
#[derive(Clone, Copy, Debug, PartialEq, Eq)]
pub struct Address<'a> {
    pub opening: Opening,
    pub name: &'a [u8],
    pub postal: &'a [u8],
    pub filler: &'a [u8],
    pub area: &'a [u8],
}

impl<'a> Values for Address<'a> {
    ghost kind = { Kind.R40 };

    ghost puts = { λ v. made40 v.opening.service v.opening.code v.opening.number v.name.now v.postal.now v.filler.now v.area.now };

    ghost texts_fit = { λ v. (length v.name.now ≤ 30) × (length v.postal.now ≤ 4) × (length v.filler.now ≤ 3) × (length v.area.now ≤ 25) };

    ghost fitting = { Prim.search rules };

    #[tactic(auto, unfolding(operations::specs::Making::too_long, crate::specs::Opening::opening_long))]
    fn too_long(&self) -> Finding {
        self.opening.too_long()?;
        fits(self.name.len() <= 30, 6)?;
        fits(self.postal.len() <= 4, 7)?;
        fits(self.filler.len() <= 3, 8)?;
        fits(self.area.len() <= 25, 9)
    }

    fn put(&self, r: &mut Record) {
        self.opening.put(r, 40);
        put_left_at(r, 15, 30, self.name);
        put_left_at(r, 45, 4, self.postal);
        put_left_at(r, 49, 3, self.filler);
        put_left_at(r, 52, 25, self.area);
        put_digits(r, 77, 3, 0);
        put_byte(r, 80, 10);
    }
}

// Record 41, the second half of the payee's address.
#[derive(Clone, Copy, Debug, PartialEq, Eq)]
pub struct AddressLines<'a> {
    pub opening: Opening,
    pub address1: &'a [u8],
    pub address2: &'a [u8],
    pub country: &'a [u8],
}

impl<'a> Values for AddressLines<'a> {
    ghost kind = { Kind.R41 };

    ghost puts = { λ v. made41 v.opening.service v.opening.code v.opening.number v.address1.now v.address2.now v.country.now };

    ghost texts_fit = { λ v. (length v.address1.now ≤ 30) × (length v.address2.now ≤ 30) × (length v.country.now ≤ 3) };

    ghost fitting = { Prim.search rules };

    #[tactic(auto, unfolding(operations::specs::Making::too_long, crate::specs::Opening::opening_long))]
    fn too_long(&self) -> Finding {
        self.opening.too_long()?;
        fits(self.address1.len() <= 30, 6)?;
        fits(self.address2.len() <= 30, 7)?;
        fits(self.country.len() <= 3, 8)
    }

    fn put(&self, r: &mut Record) {
        self.opening.put(r, 41);
        put_left_at(r, 15, 30, self.address1);
        put_left_at(r, 45, 30, self.address2);
        put_left_at(r, 75, 3, self.country);
        put_digits(r, 78, 2, 0);
        put_byte(r, 80, 10);
    }
}

// Records from the till: a record is made from its values into a lent buffer.

#![tactic(auto)]

ghost use Rattle.std.specs.Prelude.{◌≡◌, List, ℕ};
ghost use Rattle.layout.specs.Rows.{first_fault};
ghost use Rattle.rules.specs.Alone.{own_table};
ghost use Rattle.operations.specs.Making.{on_sound, recorded};
ghost use Rattle.operations.specs.Promises.{MakePromise};

use figures::totals::Totals;
use layout::{Finding, Reason};
use limits::{RECORD_BYTES, Record};
use make_values::{
    Address, AddressLines, AssignmentStart, FileStart, MessageLine, Payment, PaymentTexts,
    Specification, Values,
};
use operations::Making;
use rules::Refusal;

// Values whose record has rules of its own.
pub trait Ruled: Values {
    // The first of the rules that look at the record alone which is broken.
    fn own(&self, r: &Record) -> Finding
        ensures { (f : Totals) (ks : List ℕ) → result ≡ first_fault f ks r.now (own_table Self.kind r.now) };
}

impl Ruled for FileStart {
    fn own(&self, r: &Record) -> Finding {
        make_rules::own10(r)
    }
}

impl Ruled for AssignmentStart {
    fn own(&self, r: &Record) -> Finding {
        make_rules::own20(r)
    }
}

impl<'a> Ruled for Payment<'a> {
    fn own(&self, r: &Record) -> Finding {
        make_rules::own30(r)
    }
}

impl<'a> Ruled for PaymentTexts<'a> {
    fn own(&self, r: &Record) -> Finding {
        make_rules::own31(r)
    }
}

impl<'a> Ruled for Address<'a> {
    fn own(&self, r: &Record) -> Finding {
        make_rules::own40(r)
    }
}

impl<'a> Ruled for AddressLines<'a> {
    fn own(&self, r: &Record) -> Finding {
        make_rules::own41(r)
    }
}

impl<'a> Ruled for MessageLine<'a> {
    fn own(&self, r: &Record) -> Finding {
        make_rules::own49(r)
    }
}

impl<'a> Ruled for Specification<'a> {
    fn own(&self, r: &Record) -> Finding {
        make_rules::own50(r)
    }
}

// What is found, as what making answers: a refusal names no record.
pub fn refusing(found: Finding) -> Making
    ensures { result ≡ on_sound found recorded }
{
    found.map_err(|fault| Refusal::at(fault.reason, 0, fault.field))
}

// A record from values that fit and break none of its own rules goes over the start of the lent buffer, if that has room for it.
pub fn make<V: Ruled>(values: &V, out: &mut [u8]) -> Making
    ensures { MakePromise V.kind (V.puts values.now) out.old result out.new }
{
    refusing(values.too_long())?;
    let mut r = [0u8; RECORD_BYTES];
    values.put(&mut r);
    refusing(values.own(&r))?;
    if out.len() < RECORD_BYTES {
        return Err(Refusal::whole(Reason::NoRoom));
    }
    field_texts::copy_to(out, &r);
    Ok(())
}

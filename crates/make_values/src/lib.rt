// Values into records: which are too long for their fields, and the record that the others make.

#![tactic(auto)]

ghost use Rattle.std.specs.Prelude.{◌≡◌, List};
ghost use Rattle.layout.specs.Findings.{demanded, sound};
ghost use Rattle.rules.specs.declared.Kind.{Kind};
ghost use Rattle.operations.specs.Making.{Put, record_from, too_long};
ghost use Rattle.make_values.specs.Fitting.{EachFits};

mod address;
mod message;
mod opening;
mod payment;
mod start;

pub use address::{Address, AddressLines};
use layout::{Finding, Reason, demand};
use limits::Record;
pub use message::MessageLine;
pub use opening::Opening;
pub use payment::{Payment, PaymentTexts, Specification};
pub use start::{AssignmentStart, FileStart};

// The values of one record. They stand in its fields in their order, and are looked at in that order.
pub trait Values {
    // The record's type.
    ghost kind: { Kind };

    // What the values put into the record.
    ghost puts: { Self → List Put };

    // A text is put whole, so that it has to fit; a number is put in as many digits as its field has.
    ghost texts_fit: { Self → Type 0 };

    // Refusal 22: a value that is too long for its field.
    fn too_long(&self) -> Finding
        ensures { result ≡ too_long (puts self.now) };

    // One field behind the other, and a line feed.
    fn put(&self, r: &mut Record)
        requires { texts_fit self.now }
        ensures { r.new ≡ record_from (puts self.now) };

    // Where each value fits, so does each text.
    ghost fitting: { (v : Self) → EachFits (puts v) → texts_fit v };
}

// A value that does not fit is too long for its field.
fn fits(ok: bool, field: u8) -> Finding
    ensures { result ≡ demanded sound ok Reason.TooLong field }
{
    demand(ok, Reason::TooLong, field)
}

// The message: a line of it in record 49, as the service has it.

ghost use Rattle.std.specs.Prelude.{◌≡◌, ◌++◌, ◌≤◌, length, take};
ghost use Rattle.rules.specs.Fields.{message_of};
ghost use Rattle.rules.specs.declared.Kind.{Kind};
ghost use Rattle.operations.specs.Making.{made49};
ghost use Rattle.make_values.specs.Fitting.{words_fit};
ghost use Rattle.make_values.specs.Opening.{message_bytes};

use crate::{Opening, Values, fits};
use layout::Finding;
use limits::Record;
use write_fields::{put_byte, put_digits, put_left_at};

// Record 49, a line of the message.
#[derive(Clone, Copy, Debug, PartialEq, Eq)]
pub struct MessageLine<'a> {
    pub opening: Opening,
    pub line: u64,
    pub column: u64,
    pub text: &'a [u8],
}

// The field of a message's line, which column and text follow: service 04 has no notification code before it.
fn line_field(service: u64) -> u8
    ensures { (result ≡ (message_of service).line.number) × (result ≤ 7) }
{
    if service == 4 {
        return 6;
    }
    7
}

impl<'a> MessageLine<'a> {
    // The message from its line on, after the first `at` bytes, and the end of its record.
    fn put_after(&self, r: &mut Record, at: usize)
        requires { (at ≤ 36) × (length self.now.text.now ≤ 40) }
        ensures { r.new ≡ take at r.old ++ message_bytes at self.now.line self.now.column self.now.text.now }
    {
        put_digits(r, at, 3, self.line);
        put_digits(r, at + 3, 1, self.column);
        put_left_at(r, at + 4, 40, self.text);
        put_digits(r, at + 44, 36 - at, 0);
        put_byte(r, 80, 10);
    }
}

impl<'a> Values for MessageLine<'a> {
    ghost kind = { Kind.R49 };

    ghost puts = { λ v. made49 v.opening.service v.opening.code v.opening.number v.line v.column v.text.now };

    ghost texts_fit = { λ v. length v.text.now ≤ 40 };

    ghost fitting = { λ v h. words_fit v.opening.service v.line v.column v.text.now h.1.1.1.1.1 };

    fn too_long(&self) -> Finding {
        let field = line_field(self.opening.service);
        self.opening.too_long()?;
        fits(self.line < 1000, field)?;
        fits(self.column < 10, field + 1)?;
        fits(self.text.len() <= 40, field + 2)
    }

    // In service 04 the message stands where another service has the notification code.
    fn put(&self, r: &mut Record) {
        self.opening.put(r, 49);
        if self.opening.service == 4 {
            self.put_after(r, 15);
            return;
        }
        put_byte(r, 15, 51);
        self.put_after(r, 16);
    }
}

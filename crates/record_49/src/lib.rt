// Record 49: a piece of the message to the payee, and the place that it takes, if any.

#![tactic(auto)]

ghost use Rattle.std.specs.Prelude.{◌≡◌, List, ℕ, ◌+◌, ◌<◌, ◌≤◌};
ghost use Rattle.std.specs.Option.{ok_or};
ghost use Rattle.limits.specs.Limits.{most_in_message};
ghost use Rattle.fields.specs.Bytes.{part, Inside};
ghost use Rattle.layout.specs.Findings.{fault, brings};
ghost use Rattle.layout.specs.declared.Reason.TheVariants.{NotFixed};
ghost use Rattle.layout.specs.Rows.{first_fault};
ghost use Rattle.rules.specs.Layouts.{free49, place49, message49, fields49, record49};
ghost use Rattle.rules.specs.Messages.{taken, with_place, is_place, clashes, with49, used, with_at, with_record};
ghost use Rattle.record_49.specs.Bounds.{up_to};
ghost use Rattle.record_49.specs.Found.{message_from};

use field_bytes::classes::Class;
use figures::totals::Totals;
use layout::Reason::{MessageFull, NotFixed, PlaceTaken, WrongForm};
use layout::{Fault, demand};
use limits::{MOST_IN_MESSAGE, Record};
use rules::{Assignment, Places};

// The place is among those taken.
fn is_taken(mask: u64, place: u64) -> bool
    requires { place < 64 }
    ensures { result ≡ taken mask place }
{
    (mask >> place) % 2 == 1
}

// The places taken with this one more.
fn with_place(mask: u64, place: u64) -> u64
    requires { place < 64 }
    ensures { result ≡ with_place mask place }
{
    mask | (1 << place)
}

// Line 0 or column 0 is no place.
fn is_place(line: u64, column: u64) -> bool
    ensures { result ≡ is_place line column }
{
    (0 < line) & (0 < column)
}

// A record on this line and in this column wants a place that is taken; one without a place wants none.
fn is_clash(places: Places, line: u64, column: u64) -> bool
    requires { (line ≤ 21) × (column ≤ 2) }
    ensures { result ≡ clashes places line column }
{
    if !is_place(line, column) {
        return false;
    }
    is_taken(places.mask, line * 2 + column)
}

// The number of places taken plus the number of unplaced records.
#[tactic(auto, unfolding(rules::specs::Messages::used))]
fn used_in(places: Places) -> u64
    ensures { result ≡ used places }
{
    u64::from(places.mask.count_ones()) + u64::from(places.unplaced)
}

// The places after a record on this line and in this column.
fn with_record(places: Places, line: u64, column: u64) -> Places
    requires { (line ≤ 21) × (column ≤ 2) × (used places < most_in_message) }
    ensures { result ≡ with49 places line column }
{
    if !is_place(line, column) {
        return Places {
            mask: places.mask,
            unplaced: places.unplaced + 1,
        };
    }
    Places {
        mask: with_place(places.mask, line * 2 + column),
        unplaced: places.unplaced,
    }
}

// A field of digits whose number is at most `most`. One that is no such number is not fixed, and never of the wrong form.
#[tactic(auto, unfolding(crate::specs::Bounds::up_to, crate::specs::Bounds::is_up_to, fields::specs::Numbers::number_of))]
fn number_up_to(r: &[u8], field: u8, from: usize, to: usize, most: u64) -> Result<u64, Fault>
    requires { Inside from to r.now × (to ≤ from + 16) }
    ensures { result ≡ ok_or (up_to most (part from to r.now)) (fault NotFixed field) }
{
    match fields::few_digits_at(r, from, to) {
        Some(n) if n <= most => Ok(n),
        _ => Err(Fault {
            reason: NotFixed,
            field,
        }),
    }
}

// The places after line and column of a message, or what they find of it: its place is taken, or the message has no room for one record more.
fn put_on(places: Places, line: u64, column: u64) -> Result<Places, Fault>
    requires { (line ≤ 21) × (column ≤ 2) }
    ensures { (f : Totals) (ks r : List ℕ) → result ≡ brings (first_fault f ks r (free49 places line column)) (with49 places line column) }
{
    demand(!is_clash(places, line, column), PlaceTaken, 7)?;
    demand(used_in(places) < MOST_IN_MESSAGE, MessageFull, 7)?;
    Ok(with_record(places, line, column))
}

// Line and column of a message, and what they find of it: `field` and `from` are the line's.
#[tactic(auto, unfolding(layout::specs::Rows::first_fault, rules::specs::Payments::is_line, rules::specs::Payments::is_column, crate::specs::Bounds::up_to, crate::specs::Bounds::is_up_to))]
fn placing(r: &Record, places: Places, field: u8, from: usize) -> Result<Places, Fault>
    requires { (1 ≤ from) × (from ≤ 17) × (field ≤ 7) }
    ensures { (f : Totals) (ks : List ℕ) → result ≡ brings (first_fault f ks r.now (place49 (message_from field from) places r.now)) (with_at (message_from field from) places r.now) }
{
    let line = number_up_to(r, field, from, from + 2, 21)?;
    let column = number_up_to(r, field + 1, from + 3, from + 3, 2)?;
    put_on(places, line, column)
}

// A message from its line on, which is `field` and stands at `from`.
fn message(r: &Record, places: Places, field: u8, from: usize) -> Result<Places, Fault>
    requires { (1 ≤ from) × (from ≤ 17) × (field ≤ 7) }
    ensures { (f : Totals) (ks : List ℕ) → result ≡ brings (first_fault f ks r.now (message49 (message_from field from) places r.now)) (with_at (message_from field from) places r.now) }
{
    let after = placing(r, places, field, from)?;
    let text = fields::all_at(Class::Text, r, from + 4, from + 43);
    demand(text, WrongForm, field + 2)?;
    demand(fields::zeros_from(r, from + 44), NotFixed, field + 3)?;
    Ok(after)
}

// Fields 6 on of a 49, as its service has them: a message, and before it the notification code where the service is not 04.
pub fn own_fields(r: &Record, places: Places) -> Result<Places, Fault>
    ensures { (f : Totals) (ks : List ℕ) → result ≡ brings (first_fault f ks r.now (fields49 places r.now)) (with_record places r.now) }
{
    if fields::code_at(r, 3) == 4 {
        return message(r, places, 6, 16);
    }
    demand(fields::same_at(r, 16, 16, b"3"), NotFixed, 6)?;
    message(r, places, 7, 17)
}

// Record 49 whole: the places after it, or the first fault in the order of its fields.
pub fn check49(r: &Record, a: Assignment) -> Result<Places, Fault>
    ensures { (f : Totals) (ks : List ℕ) → result ≡ brings (first_fault f ks r.now (record49 a r.now)) (with_record a.places r.now) }
{
    record_shared::repeating(r, &a)?;
    own_fields(r, a.places)
}

// What may follow: the record type decides, with choices on the record before, the service and the transaction type.

#![tactic(auto)]

ghost use Rattle.std.specs.Prelude.{◌≡◌, eqb, length};
ghost use Rattle.limits.specs.Limits.{record_bytes};
ghost use Rattle.rules.specs.Codes.{kind_of, kind_for, number_of_kind};
ghost use Rattle.rules.specs.Order.{may_follow, may_end};
ghost use Rattle.run_order.specs.Whole.{whole_behind, messages_behind, is_remittance};

use limits::Record;
use rules::{Assignment, Kind, Mode};
use services::Service;

// The record type in field 4. Nine records of ten are a 31 or a 30, and are told by their two bytes.
pub fn kind_of(r: &Record) -> Kind
    ensures { result ≡ kind_of r.now }
{
    if fields::same_at(r, 7, 8, b"31") {
        return Kind::R31;
    }
    if fields::same_at(r, 7, 8, b"30") {
        return Kind::R30;
    }
    kind_for(fields::code_at(r, 7))
}

#[tactic(auto, unfolding(rules::specs::Codes::kind_for))]
fn kind_for(code: u8) -> Kind
    ensures { result ≡ kind_for code }
{
    match code {
        30 => Kind::R30,
        31 => Kind::R31,
        40 => Kind::R40,
        41 => Kind::R41,
        49 => Kind::R49,
        50 => Kind::R50,
        10 => Kind::R10,
        20 => Kind::R20,
        88 => Kind::R88,
        89 => Kind::R89,
        _ => Kind::Other,
    }
}

// The number that a record of this type bears in field 4.
pub fn number_of(kind: Kind) -> u8
    ensures { result ≡ number_of_kind kind }
{
    match kind {
        Kind::R10 => 10,
        Kind::R20 => 20,
        Kind::R30 => 30,
        Kind::R31 => 31,
        Kind::R40 => 40,
        Kind::R41 => 41,
        Kind::R49 => 49,
        Kind::R50 => 50,
        Kind::R88 => 88,
        Kind::R89 => 89,
        Kind::Other => 0,
    }
}

// A whole transaction has come: the next one, or the end of the assignment, may follow.
fn whole_behind(a: Assignment) -> bool
    ensures { result ≡ whole_behind (number_of_kind a.last) (is_remittance a.service) (eqb a.code 4) (eqb a.code 16) }
{
    match a.last {
        Kind::R31 => !((a.service == Service::Remittance) & ((a.code == 4) | (a.code == 16))),
        Kind::R40 | Kind::R41 | Kind::R49 | Kind::R50 => true,
        _ => false,
    }
}

// An address or a 49 has come: a 49 may follow.
fn messages_behind(before: Kind) -> bool
    ensures { result ≡ messages_behind (number_of_kind before) }
{
    matches!(before, Kind::R40 | Kind::R41 | Kind::R49)
}

// A record of this type may stand after the assignment's last one.
pub fn may_follow(mode: Mode, a: Assignment, kind: Kind) -> bool
    ensures { result ≡ may_follow mode a kind }
{
    let before = a.last;
    // Nothing is computed before this match, so that it can be one jump with the match in `kind_for`.
    match kind {
        Kind::R30 => (before == Kind::R20) | whole_behind(a),
        Kind::R31 => before == Kind::R30,
        Kind::R40 => (before == Kind::R31)
            & (a.service == Service::Remittance)
            & ((a.code == 3) | (a.code == 4)),
        Kind::R41 => before == Kind::R40,
        Kind::R49 => messages_behind(before)
            | ((before == Kind::R31) & (a.service == Service::Autogiro) & (a.code == 3)),
        Kind::R50 => (before == Kind::R50)
            | ((before == Kind::R31) & (a.service == Service::Remittance) & (a.code == 16)),
        Kind::R88 => (mode == Mode::File) & whole_behind(a),
        Kind::R20 => (before == Kind::R10)
            | (before == Kind::R88)
            | ((mode == Mode::Draft) & whole_behind(a)),
        Kind::R89 => before == Kind::R88,
        Kind::R10 => before == Kind::Other,
        Kind::Other => false,
    }
}

// The input may end after the assignment's last record.
pub fn may_end(mode: Mode, a: Assignment) -> bool
    ensures { result ≡ may_end mode a }
{
    match mode {
        Mode::File => a.last == Kind::R89,
        Mode::Draft => whole_behind(a),
    }
}

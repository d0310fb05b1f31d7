// KIDs and references: one run of digits at an end of the field, blanks elsewhere.

#![tactic(auto, using(crate::proofs::Runs::right_is, crate::proofs::Runs::left_is, crate::proofs::Runs::blank_or_right_is, crate::proofs::Runs::reference_is), unfolding(crate::specs::Kids::is_kid))]

ghost use Rattle.std.specs.Prelude.{◌≡◌, ◌||◌, ◌<◌, length};
ghost use Rattle.field_bytes.specs.Bytes.{every, is_blank};
ghost use Rattle.field_references.specs.Kids.{at_right, at_left, is_kid, is_reference};
ghost use Rattle.field_references.specs.OnTheWay.{runs_on, joins, chain};

use field_bytes::classes::Class;

// The end at which the digits stand.
#[derive(Clone, Copy, Debug, PartialEq, Eq)]
pub enum Side {
    Left,
    Right,
}

// Of two neighbours, `outer` is further from the digits' end: it is blank, or both are digits.
fn runs_on(outer: u8, inner: u8) -> bool
    ensures { result ≡ runs_on outer inner }
{
    (outer == b' ') | (Class::Digit.has(outer) & Class::Digit.has(inner))
}

fn joined(side: Side, a: u8, b: u8) -> bool
    ensures { result ≡ joins side a b }
{
    match side {
        Side::Left => runs_on(b, a),
        Side::Right => runs_on(a, b),
    }
}

// Every two neighbours are joined. No early exit: the loop becomes vector code.
fn runs_to(side: Side, s: &[u8]) -> bool
    requires { 0 < length s.now }
    ensures { result ≡ chain (joins side) s.now }
{
    let mut ok = true;
    for i in 1..s.len() {
        ok &= joined(side, s[i - 1], s[i]);
    }
    ok
}

// A KID at the right end.
pub fn kid_right(s: &[u8]) -> bool
    requires { 0 < length s.now }
    ensures { result ≡ at_right s.now }
{
    runs_to(Side::Right, s) & Class::Digit.has(s[s.len() - 1])
}

// Blank, or a KID at the right end. One pass tells both: neighbours that join and end in a blank are all blank.
pub fn blank_or_right(s: &[u8]) -> bool
    requires { 0 < length s.now }
    ensures { result ≡ (every is_blank s.now || at_right s.now) }
{
    runs_to(Side::Right, s) & Class::DigitOrBlank.has(s[s.len() - 1])
}

// A KID at the left end.
pub fn kid_left(s: &[u8]) -> bool
    requires { 0 < length s.now }
    ensures { result ≡ at_left s.now }
{
    runs_to(Side::Left, s) & Class::Digit.has(s[0])
}

// A KID at either end.
pub fn kid(s: &[u8]) -> bool
    requires { 0 < length s.now }
    ensures { result ≡ is_kid s.now }
{
    kid_right(s) | kid_left(s)
}

// Digits at the right, the first place blank.
pub fn reference(s: &[u8]) -> bool
    requires { 1 < length s.now }
    ensures { result ≡ is_reference s.now }
{
    (s[0] == b' ') & kid_right(&s[1..])
}

// The fields of a record by their positions, counted from 1 as document 01 counts them, and numbers into fields. What a field's bytes may be is in the crates below;
// the definitions that other crates name are passed on here.

#![tactic(auto)]

ghost use Rattle.std.specs.Prelude.{◌≡◌, ◌||◌, ◌+◌, ◌≤◌, length};
ghost use Rattle.limits.specs.Limits.{record_bytes};
ghost use Rattle.field_bytes.specs.Bytes.{every, is_zero, is_blank, same, part, Inside};
ghost use Rattle.field_bytes.specs.Classes.{in_class};
ghost use Rattle.field_digits.specs.Numbers.{number_of, paired, written, code_of};
ghost use Rattle.field_accounts.specs.Accounts.{account_of, is_right};
ghost use Rattle.field_references.specs.Kids.{at_right, is_kid, is_reference};
ghost use Rattle.field_words.specs.Words.{bytes_of};

use field_accounts::Account;
use field_bytes::classes::Class;
use limits::Record;

// Merged into its callers, whose positions are fixed, so that how they are read is chosen before anything runs.
#[inline(always)]
pub fn number_at(r: &[u8], from: usize, to: usize) -> Option<u64>
    requires { Inside from to r.now × (to ≤ from + 16) }
    ensures { result ≡ number_of (part from to r.now) }
{
    // Seven digits are read with the byte before them, as one word.
    if 1 < from {
        if to - from == 6 {
            return field_digits::last_seven(&r[from - 2..to]);
        }
    }
    field_digits::number(&r[from - 1..to])
}

// A number of few digits, read one by one.
pub fn few_digits_at(r: &[u8], from: usize, to: usize) -> Option<u64>
    requires { Inside from to r.now × (to ≤ from + 16) }
    ensures { result ≡ number_of (part from to r.now) }
{
    field_digits::by_bytes(&r[from - 1..to])
}

// Six digits two by two, read with the two bytes before them, as one word, where there are two.
pub fn pairs_at(r: &[u8], from: usize) -> Option<u64>
    requires { Inside from (from + 5) r.now }
    ensures { result ≡ paired (number_of (part from (from + 5) r.now)) }
{
    if from < 3 {
        return field_digits::pairs(&r[from - 1..from + 5]);
    }
    field_digits::last_pairs(&r[from - 3..from + 5])
}

// A code of two digits as a number, or 100.
pub fn code_at(r: &[u8], from: usize) -> u8
    requires { Inside from (from + 1) r.now }
    ensures { result ≡ code_of (part from (from + 1) r.now) }
{
    let tens = r[from - 1];
    let ones = r[from];
    if !(Class::Digit.has(tens) & Class::Digit.has(ones)) {
        return 100;
    }
    (tens - b'0') * 10 + (ones - b'0')
}

pub fn all_at(class: Class, r: &[u8], from: usize, to: usize) -> bool
    requires { Inside from to r.now }
    ensures { result ≡ every (in_class class) (part from to r.now) }
{
    class.has_all(&r[from - 1..to])
}

// Zeros in four to eight positions.
pub fn few_zeros_at(r: &[u8], from: usize, to: usize) -> bool
    requires { Inside from to r.now × (from + 3 ≤ to) × (to ≤ from + 7) }
    ensures { result ≡ every is_zero (part from to r.now) }
{
    field_words::few_zeros(&r[from - 1..to])
}

// Zeros up to the end of a record: its last byte is the line feed.
pub fn zeros_from(r: &Record, from: usize) -> bool
    requires { (1 ≤ from) × (from ≤ 80) }
    ensures { result ≡ every is_zero (part from 80 r.now) }
{
    Class::Zero.has_all(&r[from - 1..r.len() - 1])
}

pub fn same_at(r: &[u8], from: usize, to: usize, t: &[u8]) -> bool
    requires { Inside from to r.now × (to + 1 ≡ from + length t.now) }
    ensures { result ≡ same (part from to r.now) t.now }
{
    field_bytes::texts::same_bytes(&r[from - 1..to], t)
}

// Four positions as one number, the first byte lowest.
pub fn four_at(r: &[u8], from: usize) -> u64
    requires { Inside from (from + 3) r.now }
    ensures { bytes_of 4 result ≡ part from (from + 3) r.now }
{
    field_words::half(&r[from - 1..from + 3])
}

pub fn account_at(r: &[u8], from: usize, to: usize) -> Account
    requires { Inside from to r.now × (to ≡ from + 10) }
    ensures { result ≡ account_of (part from to r.now) }
{
    field_accounts::account_of(&r[from - 1..to])
}

// An account of eleven digits whose last one is right.
pub fn right_account_at(r: &[u8], from: usize) -> bool
    requires { Inside from (from + 10) r.now }
    ensures { result ≡ is_right (account_of (part from (from + 10) r.now)) }
{
    field_accounts::is_right(&r[from - 1..from + 10])
}

// A KID field has 25 places.
pub fn kid_at(r: &[u8], from: usize) -> bool
    requires { Inside from (from + 24) r.now }
    ensures { result ≡ is_kid (part from (from + 24) r.now) }
{
    field_references::kid(&r[from - 1..from + 24])
}

pub fn kid_right_at(r: &[u8], from: usize, to: usize) -> bool
    requires { Inside from to r.now }
    ensures { result ≡ at_right (part from to r.now) }
{
    field_references::kid_right(&r[from - 1..to])
}

// Blank, or a KID at the right end.
pub fn blank_or_right_at(r: &[u8], from: usize, to: usize) -> bool
    requires { Inside from to r.now }
    ensures { result ≡ (every is_blank (part from to r.now) || at_right (part from to r.now)) }
{
    field_references::blank_or_right(&r[from - 1..to])
}

pub fn reference_at(r: &[u8], from: usize, to: usize) -> bool
    requires { Inside from to r.now × (from + 1 ≤ to) }
    ensures { result ≡ is_reference (part from to r.now) }
{
    field_references::reference(&r[from - 1..to])
}

// As many of the last digits of `n` as `out` has places, right with zeros.
pub fn put_number(out: &mut [u8], n: u64)
    ensures { out.new ≡ written (length out.old) n }
{
    let mut rest = n;
    for i in (0..out.len()).rev() {
        out[i] = b'0' + (rest % 10) as u8;
        rest /= 10;
    }
}

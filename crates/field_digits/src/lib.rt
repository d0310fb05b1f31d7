// A field of digits as the number that it writes.

#![tactic(auto, using(crate::proofs::Ahead::zero_before), unfolding(crate::specs::Numbers::number_of))]

ghost use Rattle.std.specs.Prelude.{◌≡◌, true, ◌≤◌, length, drop};
ghost use Rattle.field_bytes.specs.Bytes.{every, is_digit};
ghost use Rattle.field_digits.specs.Numbers.{value, number_of, paired};
ghost use Rattle.field_words.specs.Words.{bytes_of};

use field_bytes::classes::Class;
use field_words::{
    all_digits, pairs_in, value_in, word, word_of_last_seven, word_of_last_six, word_of_six,
};

// Six, eight, nine and seventeen bytes are read by words. Merged into its callers, most of which know the width.
#[inline(always)]
pub fn number(s: &[u8]) -> Option<u64>
    requires { length s.now ≤ 17 }
    ensures { result ≡ number_of s.now }
{
    match s.len() {
        8 => eight(s),
        6 => six(s),
        9 => nine(s),
        17 => seventeen(s),
        _ => by_bytes(s),
    }
}

fn eight(s: &[u8]) -> Option<u64>
    requires { length s.now ≡ 8 }
    ensures { result ≡ number_of s.now }
{
    number_in(word(s))
}

// Seven digits, given with the byte before them: one word has them all.
pub fn last_seven(s: &[u8]) -> Option<u64>
    requires { length s.now ≡ 8 }
    ensures { result ≡ number_of (drop 1 s.now) }
{
    number_in(word_of_last_seven(s))
}

fn six(s: &[u8]) -> Option<u64>
    requires { length s.now ≡ 6 }
    ensures { result ≡ number_of s.now }
{
    number_in(word_of_six(s))
}

// Six digits as three numbers of two, in place of the one that they write.
pub fn pairs(s: &[u8]) -> Option<u64>
    requires { length s.now ≡ 6 }
    ensures { result ≡ paired (number_of s.now) }
{
    paired_in(word_of_six(s))
}

// The same, given with the two bytes before them.
pub fn last_pairs(s: &[u8]) -> Option<u64>
    requires { length s.now ≡ 8 }
    ensures { result ≡ paired (number_of (drop 2 s.now)) }
{
    paired_in(word_of_last_six(s))
}

fn paired_in(x: u64) -> Option<u64>
    ensures { result ≡ paired (number_of (bytes_of 8 x)) }
{
    if !all_digits(x) {
        return None;
    }
    Some(pairs_in(x))
}

// One digit, and a word.
fn nine(s: &[u8]) -> Option<u64>
    requires { length s.now ≡ 9 }
    ensures { result ≡ number_of s.now }
{
    let first = s[0];
    let rest = word(&s[1..9]);
    if !(Class::Digit.has(first) & all_digits(rest)) {
        return None;
    }
    Some(u64::from(first - b'0') * 100000000 + value_in(rest))
}

// One digit, and two words.
fn seventeen(s: &[u8]) -> Option<u64>
    requires { length s.now ≡ 17 }
    ensures { result ≡ number_of s.now }
{
    let first = s[0];
    let high = word(&s[1..9]);
    let low = word(&s[9..17]);
    if !(Class::Digit.has(first) & all_digits(high) & all_digits(low)) {
        return None;
    }
    Some((u64::from(first - b'0') * 100000000 + value_in(high)) * 100000000 + value_in(low))
}

fn number_in(x: u64) -> Option<u64>
    ensures { result ≡ number_of (bytes_of 8 x) }
{
    if !all_digits(x) {
        return None;
    }
    Some(value_in(x))
}

// Digit by digit, for few of them.
pub fn by_bytes(s: &[u8]) -> Option<u64>
    requires { length s.now ≤ 17 }
    ensures { result ≡ number_of s.now }
{
    if !Class::Digit.has_all(s) {
        return None;
    }
    Some(value_of(s))
}

// The number that digits write.
fn value_of(s: &[u8]) -> u64
    requires { (length s.now ≤ 17) × (every is_digit s.now ≡ true) }
    ensures { result ≡ value s.now }
{
    let mut n: u64 = 0;
    for b in s {
        n = n * 10 + u64::from(*b - b'0');
    }
    n
}

// Digits eight at a time: a word is eight bytes as one number, the first byte lowest.

#![tactic(auto, using(crate::proofs::WordBytes::eleven, crate::proofs::WordBytes::word_of_eight, crate::proofs::WordBytes::word_of_six, crate::proofs::WordBytes::last_seven, crate::proofs::WordBytes::last_six, crate::proofs::WordTests::word_test, crate::proofs::WordValues::word_pairs))]

ghost use Rattle.std.specs.Prelude.{◌≡◌, true, ◌∷◌, ◌<◌, ◌≤◌, length, drop};
ghost use Rattle.std.specs.Int.Bits.{bit_and};
ghost use Rattle.field_bytes.specs.Bytes.{every, is_digit, is_zero};
ghost use Rattle.field_words.specs.Values.{value};
ghost use Rattle.field_words.specs.Words.{bytes_of, twos_of, pairs_of};

// Eleven bytes are digits: two words, which share five bytes.
pub fn eleven_digits(s: &[u8]) -> bool
    requires { length s.now ≡ 11 }
    ensures { result ≡ every is_digit s.now }
{
    all_digits(word(&s[0..8])) & all_digits(word(&s[3..11]))
}

// Four to eight bytes are zeros: two halves, which may share bytes.
pub fn few_zeros(s: &[u8]) -> bool
    requires { (4 ≤ length s.now) × (length s.now ≤ 8) }
    ensures { result ≡ every is_zero s.now }
{
    (half(&s[0..4]) == 0x30303030) & (half(&s[s.len() - 4..]) == 0x30303030)
}

// A digit's high half is 3, and its low half is below 10: with 6 added it stays below 16. Both are told by one test.
pub fn all_digits(x: u64) -> bool
    ensures { result ≡ every is_digit (bytes_of 8 x) }
{
    let low = x & 0x0F0F0F0F0F0F0F0F;
    ((x ^ 0x3030303030303030) | (low + 0x0606060606060606)) & 0xF0F0F0F0F0F0F0F0 == 0
}

// Eight digits become four numbers of two digits, sixteen bits each, the first lowest.
pub fn pairs_in(x: u64) -> u64
    ensures { (result ≡ twos_of (bit_and x 0x0F0F0F0F0F0F0F0F)) × (every is_digit (bytes_of 8 x) ≡ true → result ≡ pairs_of (value (bytes_of 8 x))) }
{
    let ones = x & 0x0F0F0F0F0F0F0F0F;
    (ones * 10 + (ones >> 8)) & 0x00FF00FF00FF00FF
}

// The pairs become two numbers of four digits, and those the number.
pub fn value_in(x: u64) -> u64
    requires { every is_digit (bytes_of 8 x) ≡ true }
    ensures { result ≡ value (bytes_of 8 x) }
{
    let twos = pairs_in(x);
    let fours = (twos * 100 + (twos >> 16)) & 0x0000FFFF0000FFFF;
    (fours * 10000 + (fours >> 32)) & 0xFFFFFFFF
}

pub fn word(s: &[u8]) -> u64
    requires { length s.now ≡ 8 }
    ensures { bytes_of 8 result ≡ s.now }
{
    half(&s[0..4]) + half(&s[4..8]) * 0x100000000
}

// The last seven of eight bytes after the digit 0, which takes the first one's place.
pub fn word_of_last_seven(s: &[u8]) -> u64
    requires { length s.now ≡ 8 }
    ensures { bytes_of 8 result ≡ 48 ∷ drop 1 s.now }
{
    word(s) / 0x100 * 0x100 + 0x30
}

// The last six of eight bytes after two digits 0, which take the places of the first two.
pub fn word_of_last_six(s: &[u8]) -> u64
    requires { length s.now ≡ 8 }
    ensures { bytes_of 8 result ≡ 48 ∷ 48 ∷ drop 2 s.now }
{
    word(s) / 0x10000 * 0x10000 + 0x3030
}

// Six bytes after two digits 0, by two halves that share two bytes.
pub fn word_of_six(s: &[u8]) -> u64
    requires { length s.now ≡ 6 }
    ensures { bytes_of 8 result ≡ 48 ∷ 48 ∷ s.now }
{
    0x3030 + half(&s[0..4]) * 0x10000 + half(&s[2..6]) / 0x10000 * 0x1000000000000
}

// Four bytes as one number.
pub fn half(s: &[u8]) -> u64
    requires { length s.now ≡ 4 }
    ensures { (bytes_of 4 result ≡ s.now) × (result < 0x100000000) }
{
    u64::from(s[0])
        + u64::from(s[1]) * 0x100
        + u64::from(s[2]) * 0x10000
        + u64::from(s[3]) * 0x1000000
}

// Accounts: eleven digits, the last of which follows from the ten before it.

#![tactic(auto, unfolding(crate::specs::Accounts::right_digit, crate::specs::Accounts::judged))]

ghost use Rattle.std.specs.Prelude.{◌≡◌, ◌<◌, length};
ghost use Rattle.field_accounts.specs.Accounts.{weights, right_digit, judged, account_of, is_right};
ghost use Rattle.field_accounts.specs.OnTheWay.{weighed};

use field_words::eleven_digits;

#[derive(Clone, Copy, Debug, PartialEq, Eq)]
pub enum Account {
    Right,
    // Another last digit is right: this one.
    WrongDigit(u8),
    // No last digit is right for the ten before it.
    NoRightDigit,
    NotDigits,
}

pub fn account_of(s: &[u8]) -> Account
    requires { length s.now ≡ 11 }
    ensures { result ≡ account_of s.now }
{
    if !eleven_digits(s) {
        return Account::NotDigits;
    }
    // 1968 is 48 times the weights: what the bytes have over their digits
    judge(s[10] - b'0', ((weigh(s) - 1968) % 11) as u8)
}

// The last digit is right: with weight 1 for it the sum of all eleven is a multiple of 11.
pub fn is_right(s: &[u8]) -> bool
    requires { length s.now ≡ 11 }
    ensures { result ≡ is_right (account_of s.now) }
{
    if !eleven_digits(s) {
        return false;
    }
    // 2016 is 48 times the weights, the last one's 1 among them
    (weigh(s) + u32::from(s[10]) - 2016) % 11 == 0
}

// The last digit against the remainder of the ten before it.
fn judge(last: u8, rest: u8) -> Account
    requires { rest < 11 }
    ensures { result ≡ judged last rest }
{
    if rest == 1 {
        return Account::NoRightDigit;
    }
    let right = right_digit(rest);
    if last == right {
        return Account::Right;
    }
    Account::WrongDigit(right)
}

fn right_digit(rest: u8) -> u8
    requires { rest < 11 }
    ensures { result ≡ right_digit rest }
{
    if rest == 0 {
        return 0;
    }
    11 - rest
}

// The first ten bytes by their weights.
fn weigh(s: &[u8]) -> u32
    requires { length s.now ≡ 11 }
    ensures { result ≡ weighed weights s.now }
{
    u32::from(s[0]) * 5
        + u32::from(s[1]) * 4
        + u32::from(s[2]) * 3
        + u32::from(s[3]) * 2
        + u32::from(s[4]) * 7
        + u32::from(s[5]) * 6
        + u32::from(s[6]) * 5
        + u32::from(s[7]) * 4
        + u32::from(s[8]) * 3
        + u32::from(s[9]) * 2
}

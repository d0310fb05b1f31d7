// How a record's rules are written: rows, tables of rows and the first fault. The code has what a check finds.

#![tactic(auto)]

ghost use Rattle.std.specs.Prelude.{◌≡◌};
ghost use Rattle.layout.specs.Findings.{number_of, sound, demanded, account_found};

use field_accounts::Account;

// Why something is refused, in the order of document 01's numbers.
#[derive(Clone, Copy, Debug, PartialEq, Eq)]
pub enum Reason {
    // 1: the process day is not a date
    NoProcessDay,
    // 2: the input is empty, or no whole records of 81 bytes
    BrokenLength,
    // 3: more than 200,000 records
    TooManyRecords,
    // 4: no line feed behind a record
    NoLineFeed,
    // 5: a record of this type may not stand here
    OutOfPlace,
    // 6: the input ends too early
    EndsEarly,
    // 7: a fixed text, code, line or column is wrong
    NotFixed,
    // 8: the field has the wrong form
    WrongForm,
    // 9: not a date
    NotADate,
    // 10: too late or too early
    OutOfTime,
    // 11: the account's last digit is wrong
    WrongAccount,
    // 12: service, type or transaction number disagrees with the records before
    Disagrees,
    // 13: an amount or a sum is past its limit, or 0 for type 16
    PastLimit,
    // 14: the records 50 do not add up to the amount of their record 30
    NotAddedUp,
    // 15: agreement and assignment number stood before
    KeySeen,
    // 16: more than 500 assignments
    TooManyAssignments,
    // 17: the place of a message was taken before
    PlaceTaken,
    // 18: an end record's figure is wrong
    WrongFigure,
    // 19: the output is too short
    NoRoom,
    // 20: the two files have different senders
    OtherSender,
    // 21: the file cannot be parted there
    NoBoundaryThere,
    // 22: a value is too long for its field
    TooLong,
    // 23: a message past its limit
    MessageFull,
}

// A reason, and the field that it is about.
#[derive(Clone, Copy, Debug, PartialEq, Eq)]
pub struct Fault {
    pub reason: Reason,
    pub field: u8,
}

impl Reason {
    // Document 01's number.
    pub fn number(self) -> u8
        ensures { result ≡ number_of self }
    {
        match self {
            Reason::NoProcessDay => 1,
            Reason::BrokenLength => 2,
            Reason::TooManyRecords => 3,
            Reason::NoLineFeed => 4,
            Reason::OutOfPlace => 5,
            Reason::EndsEarly => 6,
            Reason::NotFixed => 7,
            Reason::WrongForm => 8,
            Reason::NotADate => 9,
            Reason::OutOfTime => 10,
            Reason::WrongAccount => 11,
            Reason::Disagrees => 12,
            Reason::PastLimit => 13,
            Reason::NotAddedUp => 14,
            Reason::KeySeen => 15,
            Reason::TooManyAssignments => 16,
            Reason::PlaceTaken => 17,
            Reason::WrongFigure => 18,
            Reason::NoRoom => 19,
            Reason::OtherSender => 20,
            Reason::NoBoundaryThere => 21,
            Reason::TooLong => 22,
            Reason::MessageFull => 23,
        }
    }
}

// What a check finds: no fault, or the first.
pub type Finding = Result<(), Fault>;

// A fault where `ok` is false.
pub fn demand(ok: bool, reason: Reason, field: u8) -> Finding
    ensures { result ≡ demanded sound ok reason field }
{
    if ok {
        return Ok(());
    }
    Err(Fault { reason, field })
}

// What an account in this field is found to be, by what reading it answered.
pub fn account_found(account: Account, field: u8) -> Finding
    ensures { result ≡ account_found account field }
{
    let reason = match account {
        Account::Right => return Ok(()),
        Account::WrongDigit(_digit) => Reason::WrongAccount,
        Account::NoRightDigit => Reason::WrongAccount,
        Account::NotDigits => Reason::WrongForm,
    };
    Err(Fault { reason, field })
}

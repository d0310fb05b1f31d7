// What document 01's rules speak of: record types, the assignment at hand, the state of a run and its answer. The rules themselves stand in specs/.

#![tactic(auto)]

ghost use Rattle.std.specs.Prelude.{◌≡◌, ◌*◌, ◌+◌, ◌/◌, ◌≤◌, length};
ghost use Rattle.limits.specs.Limits.{record_bytes};
ghost use Rattle.rules.specs.Messages.{no_places};
ghost use Rattle.rules.specs.Refusals.{refusal};
ghost use Rattle.rules.specs.Run.{records_of, record_at};

use figures::amounts::Amount;
use figures::counts::TransactionNumber;
use figures::groups::Group;
use figures::totals::{AssignmentTotals, Totals};
use layout::{Fault, Reason};
use limits::{RECORD_BYTES, Record};
use services::Service;

// Record types. Other is none of the ten; it also stands for no record yet.
#[derive(Clone, Copy, Debug, PartialEq, Eq)]
pub enum Kind {
    R10,
    R20,
    R30,
    R31,
    R40,
    R41,
    R49,
    R50,
    R88,
    R89,
    Other,
}

// A file has its end records, a draft has none.
#[derive(Clone, Copy, Debug, PartialEq, Eq)]
pub enum Mode {
    File,
    Draft,
}

// What the records 49 of a transaction have taken up of its message.
#[derive(Clone, Copy, Debug, PartialEq, Eq)]
pub struct Places {
    // the places taken: bit line times two plus column
    pub mask: u64,
    // how many of the records have no place
    pub unplaced: u32,
}

impl Places {
    // Before the first record 49 of a transaction.
    pub fn none() -> Places
        ensures { result ≡ no_places }
    {
        Places {
            mask: 0,
            unplaced: 0,
        }
    }
}

// The assignment at hand, with its last record and its last transaction.
#[derive(Clone, Copy, Debug, PartialEq, Eq)]
pub struct Assignment {
    pub last: Kind,
    pub service: Service,
    pub totals: AssignmentTotals,
    pub number: TransactionNumber,
    // the transaction's type
    pub code: u8,
    // what the transaction's sub-specifications have to give
    pub due: Amount,
    pub group: Group,
    pub places: Places,
}

#[derive(Clone, Copy, Debug, PartialEq, Eq)]
pub struct State {
    pub file: Totals,
    pub assignment: Assignment,
}

// One record's step: on to the state after it, or its fault.
pub type Step = Result<State, Fault>;

// A refusal: its reason, which of two files (0 outside joining), the record from 1, the field.
#[derive(Clone, Copy, Debug, PartialEq, Eq)]
pub struct Refusal {
    pub reason: Reason,
    pub operand: u8,
    pub record: u64,
    pub field: u8,
}

impl Refusal {
    // Of the whole input: no record, no field.
    pub fn whole(reason: Reason) -> Refusal
        ensures { result ≡ refusal reason 0 0 0 }
    {
        Refusal::at(reason, 0, 0)
    }

    // Of a record, counted from 1, and a field.
    pub fn at(reason: Reason, record: u64, field: u8) -> Refusal
        ensures { result ≡ refusal reason 0 «record» field }
    {
        Refusal {
            reason,
            operand: 0,
            record,
            field,
        }
    }

    // The same of the first or the second of two files.
    pub fn of(self, operand: u8) -> Refusal
        ensures { result ≡ refusal self.reason operand self.«record» self.field }
    {
        Refusal { operand, ..self }
    }
}

// Accepted with a file's figures, or refused.
pub type Verdict = Result<Totals, Refusal>;

// All records in turn, each its own 81 bytes of the file.
pub fn records_of(bytes: &[u8]) -> &[Record]
    ensures are { result.now ≡ records_of bytes.now }
    ensures many { length result.now ≡ length bytes.now / record_bytes }
{
    bytes.as_chunks::<RECORD_BYTES>().0
}

// The record after the first k: its own 81 bytes of the file.
pub fn record_at(bytes: &[u8], k: usize) -> &Record
    requires { record_bytes * k + record_bytes ≤ length bytes.now }
    ensures { result.now ≡ record_at k bytes.now }
{
    let at = RECORD_BYTES * k;
    bytes[at..].first_chunk().unwrap()
}

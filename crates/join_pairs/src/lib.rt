// Two accepted files side by side: what stands against joining them, and their figures in one.

#![tactic(auto)]

ghost use Rattle.std.specs.Prelude.{◌≡◌, ◌≤◌, length, take};
ghost use Rattle.fields.specs.Bytes.{same};
ghost use Rattle.limits.specs.Limits.{record_bytes};
ghost use Rattle.operations.specs.Joining.{sender, both, shares, shared_at, weigh_limits, weigh_both};
ghost use Rattle.rules.specs.Growth.{keys, all_keys};
ghost use Rattle.rules.specs.Run.{records_of};
ghost use Rattle.join_pairs.specs.Pairs.{KeyReadable, KeysReadable, Countable, Judged};

use figures::amounts::Amount;
use figures::totals::Totals;
use layout::Reason;
use limits::{MOST_ASSIGNMENTS, MOST_OF_ALL, MOST_RECORDS, Record};
use rules::{Refusal, Verdict};

// An accepted file, with its figures and the keys of its assignments.
#[derive(Clone, Copy)]
pub struct Accepted<'a> {
    pub file: &'a [u8],
    pub totals: Totals,
    pub keys: &'a [u64],
}

// Field 5 of both records 10.
fn same_sender(first: &[u8], second: &[u8]) -> bool
    requires { (16 ≤ length first.now) × (16 ≤ length second.now) }
    ensures { result ≡ same (sender first.now) (sender second.now) }
{
    field_bytes::texts::same_bytes(&first[8..16], &second[8..16])
}

// One of the second file's keys stands among the first's.
fn any_shared(ours: &[u64], theirs: &[u64]) -> bool
    ensures { result ≡ shares ours.now theirs.now }
{
    theirs.iter().any(|key| record_10_20::seen(ours, *key))
}

// A record 20 whose key stands among the first file's.
fn brings(r: &Record, ours: &[u64]) -> bool
    requires { KeyReadable r.now }
    ensures { result ≡ shares ours.now (keys r.now) }
{
    fields::code_at(r, 7) == 20 && record_10_20::seen(ours, record_10_20::key_of(r))
}

// The number of the first such record, from 1; 0 if there is none.
fn first_shared(file: &[u8], ours: &[u64]) -> u64
    requires { KeysReadable (records_of file.now) }
    ensures { result ≡ shared_at 0 ours.now (records_of file.now) }
{
    let records = rules::records_of(file);
    for (k, r) in records.iter().enumerate() {
        if brings(r, ours) {
            return k as u64 + 1;
        }
    }
    0
}

// Both files' figures in one: the second's record 10 and the first's 89 fall away.
fn both(s: Totals, t: Totals) -> Totals
    requires { Countable s × Countable t }
    ensures { result ≡ both s t }
{
    s.plus(t).less_records(2)
}

// The limits of the file to be written: 3, 16, 13.
fn weigh_limits(s: Totals, t: Totals) -> Verdict
    requires { Countable s × Countable t }
    ensures { result ≡ weigh_limits s t }
{
    let joined = both(s, t);
    if MOST_RECORDS < joined.records.0 as usize {
        return Err(Refusal::whole(Reason::TooManyRecords));
    }
    if MOST_ASSIGNMENTS < joined.assignments.0 as usize {
        return Err(Refusal::whole(Reason::TooManyAssignments));
    }
    if !s.sum.holds(t.sum, Amount(MOST_OF_ALL)) {
        return Err(Refusal::whole(Reason::PastLimit));
    }
    Ok(joined)
}

// Two accepted files: 20, 15, then the limits.
pub fn weigh_both(first: Accepted, second: Accepted) -> Verdict
    requires { Judged first.file.now first.totals first.keys.now × Judged second.file.now second.totals second.keys.now }
    ensures { result ≡ weigh_both (sender first.entry.file.now) (all_keys (records_of first.entry.file.now)) first.entry.totals (sender second.entry.file.now) (records_of second.entry.file.now) second.entry.totals }
{
    if !same_sender(first.file, second.file) {
        return Err(Refusal::at(Reason::OtherSender, 1, 5).of(2));
    }
    if any_shared(first.keys, second.keys) {
        let record = first_shared(second.file, first.keys);
        return Err(Refusal::at(Reason::KeySeen, record, 6).of(2));
    }
    weigh_limits(first.totals, second.totals)
}

// What the operations that write answer, and what they write: the definitions stand in specs/; the answers of parting and making, and the room that a file needs, here.

#![tactic(auto)]

ghost use Rattle.std.specs.Prelude.{◌*◌, ◌≤◌, ◌≡◌, length, take};
ghost use Rattle.limits.specs.Limits.{record_bytes};
ghost use Rattle.operations.specs.Closing.{given};
ghost use Rattle.operations.specs.Parting.{no_boundary};
ghost use Rattle.operations.specs.declared.NotParted.TheVariants.{Refused};

use figures::counts::Count;
use figures::totals::Totals;
use layout::Reason;
use limits::RECORD_BYTES;
use rules::{Refusal, Verdict};

// Why a file is not parted: it has so many assignments, and no such boundary; or another refusal.
#[derive(Clone, Copy, Debug, PartialEq, Eq)]
pub enum NotParted {
    NoBoundary(Count),
    Refused(Refusal),
}

impl From<Refusal> for NotParted {
    ghost from_gives = { λ x why. why ≡ Refused x };

    fn from(x: Refusal) -> NotParted {
        NotParted::Refused(x)
    }
}

// What parting answers: how many bytes each part has, or why there are none.
pub type Parting = Result<(usize, usize), NotParted>;

// What making a record answers.
pub type Making = Result<(), Refusal>;

// Document 01's refusal where there is no such boundary.
pub fn no_boundary() -> Refusal
    ensures { result ≡ no_boundary }
{
    Refusal::whole(Reason::NoBoundaryThere)
}

// Where a file of these figures can be written: 19 if the output is too short for it.
pub fn given(room: usize, t: Totals) -> Verdict
    ensures { result ≡ given room t }
{
    if room < RECORD_BYTES * t.records.0 as usize {
        return Err(Refusal::whole(Reason::NoRoom));
    }
    Ok(t)
}

// The file of so many records that was written into an output: its first bytes.
pub fn file_in(out: &[u8], records: Count) -> &[u8]
    requires { record_bytes * records.0 ≤ length out.now }
    ensures { result.now ≡ take (record_bytes * records.0) out.now }
{
    let end = RECORD_BYTES * records.0 as usize;
    &out[..end]
}

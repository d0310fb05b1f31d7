// Closing a draft, of any bytes, on any process day, into any output: judge first, then write.

#![tactic(auto)]

ghost use Rattle.operations.specs.Promises.{ClosePromise};

use dates::ProcessDay;
use layout::Reason;
use limits::FIGURE_SLOTS;
use rules::{Refusal, Verdict};

// Accepted with the figures of the file that was written, or refused with no byte changed.
pub fn close(day: ProcessDay, draft: &[u8], out: &mut [u8]) -> Verdict
    ensures { ClosePromise day draft.now out.old result out.new }
{
    let w = day.window().ok_or(Refusal::whole(Reason::NoProcessDay))?;
    let mut figures = [0u64; FIGURE_SLOTS];
    let weighed = close_weigh::weigh(w, draft, &mut figures)?;
    let t = operations::given(out.len(), weighed)?;
    close_write::write(draft, t, &figures, out);
    Ok(t)
}

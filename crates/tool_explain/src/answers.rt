// An answer as the tool tells it: the machine's line, and after a refusal what it means.

use figures::totals::Totals;
use layout::Reason;
use program_lines::{Answer, JoinAnswer};
use rules::{Mode, Refusal};
use std::io;

pub fn tell_accepted(rt: &impl Print, t: Totals) -> io::Result<()> {
    println!(rt; "{}", Answer(Ok(t)))
}

// The machine's line of a refusal, and what it means.
pub fn tell_refused(rt: &impl Print, x: Refusal, mode: Mode, file: &[u8]) -> io::Result<()> {
    println!(rt; "{}", Answer(Err(x)))?;
    super::explain(rt, x, mode, file)
}

// The machine's line of a refused joining, which also says which file, and what it means.
fn tell_not_joined(rt: &impl Print, x: Refusal, file: &[u8]) -> io::Result<()> {
    println!(rt; "{}", JoinAnswer(Err(x)))?;
    super::explain(rt, x, Mode::File, file)
}

// A refusal speaks of the first file, of the second, or of both.
pub fn tell_which(rt: &impl Print, x: Refusal, first: &[u8], second: &[u8]) -> io::Result<()> {
    if x.operand == 1 {
        return tell_not_joined(rt, x, first);
    }
    tell_not_joined(rt, x, second)?;
    if x.reason == Reason::OtherSender {
        return super::say_sender(rt, first);
    }
    Ok(())
}

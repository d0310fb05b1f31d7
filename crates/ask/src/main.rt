// Document 01's program: a line DDMMYY and up to 800 records on standard input, one line of answer.

#![tactic(auto)]

use dates::ProcessDay;
use layout::Reason;
use limits::RECORD_BYTES;
use program_lines::Answer;
use rules::Refusal;
use std::io;

// The line of seven bytes, and after it at most 800 records.
const MOST: usize = 7 + 800 * RECORD_BYTES;

// The day that the first line names, and the file behind it.
fn day_and_file(all: &[u8]) -> Option<(ProcessDay, &[u8])> {
    let (line, file) = all.split_at_checked(7)?;
    if line[6] != b'\n' {
        return None;
    }
    let ddmmyy = field_digits::number(&line[..6])?;
    Some((program_lines::process_day(ddmmyy), file))
}

// All that came, as far as it is read.
fn answer(rt: &impl Print, all: &[u8]) -> io::Result<()> {
    match day_and_file(all) {
        None => println!(rt; "{}", Answer(Err(Refusal::whole(Reason::NoProcessDay)))),
        Some(_) if MOST < all.len() => rt.println("too long"),
        Some((day, file)) => println!(rt; "{}", Answer(check_file::check(day, file))),
    }
}

fn main(rt: HostRuntime) -> io::Result<()> {
    let mut buffer = [0u8; MOST + 1];
    let n = program_lines::read_full(&mut rt.stdin(), &mut buffer)?;
    answer(&rt, &buffer[..n])
}

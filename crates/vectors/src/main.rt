// Outside vectors: numbered files, each a line that says what is asked and then the input; one line of answer for each.

#![tactic(auto)]

ghost use Rattle.std.specs.Prelude.{◌≤◌, ◌<◌, length};

use dates::ProcessDay;
use program_lines::{Answer, JoinAnswer, Made, PartAnswer};
use std::fs::Files;
use std::io;

// Room for the longest vector, and for each of its outputs.
const ROOM: usize = 163_840;

// The first line of a vector that has outputs: a word, and up to four numbers of six digits.
const HEAD: usize = 34;

type Head = [u8; HEAD];

// A number of the first line; 0 where there is none.
fn six(digits: &[u8]) -> u64
    requires { length digits.now ≤ 6 }
{
    field_digits::number(digits).unwrap_or(0)
}

// The day of the first line, which is its first number.
fn day(line: &[u8]) -> ProcessDay
    requires { 13 ≤ length line.now }
{
    program_lines::process_day(six(&line[6..12]))
}

// A number that every byte of an output goes into.
fn hash(bytes: &[u8]) -> u64 {
    bytes.iter().fold(0u64, |h, byte| with_byte(h, *byte))
}

// With a byte more: what stands before it times 31 and the byte, modulo 4294967296.
fn with_byte(h: u64, byte: u8) -> u64
    ensures { result < 4294967296 }
{
    (h % 4294967296 * 31 + u64::from(byte)) % 4294967296
}

fn no_vector(rt: &impl Print) -> io::Result<()> {
    rt.print("no vector")
}

// `check DDMMYY` and a line feed, then a file.
fn check(rt: &impl Print, all: &[u8]) -> io::Result<()> {
    match all.split_at_checked(13) {
        Some((line, file)) => print!(rt; "{}", Answer(check_file::check(day(line), file))),
        None => no_vector(rt),
    }
}

// `close DDMMYY ROOM`, then a draft.
fn close(rt: &impl Print, head: &Head, draft: &[u8], out: &mut [u8]) -> io::Result<()> {
    let Some(out) = out.get_mut(..six(&head[13..19]) as usize) else {
        return no_vector(rt);
    };
    let verdict = close_draft::close(day(head), draft, out);
    print!(rt; "{} {}", Answer(verdict), hash(out))
}

// `join  DDMMYY LENGTH ROOM`, then the first file, which has this length, and the second.
fn join(rt: &impl Print, head: &Head, files: &[u8], out: &mut [u8]) -> io::Result<()> {
    let Some((first, second)) = files.split_at_checked(six(&head[13..19]) as usize) else {
        return no_vector(rt);
    };
    let Some(out) = out.get_mut(..six(&head[20..26]) as usize) else {
        return no_vector(rt);
    };
    let verdict = join_files::join(day(head), first, second, out);
    print!(rt; "{} {}", JoinAnswer(verdict), hash(out))
}

// `part  DDMMYY K ROOM ROOM`, then a file.
fn part(
    rt: &impl Print,
    head: &Head,
    file: &[u8],
    first: &mut [u8],
    second: &mut [u8],
) -> io::Result<()> {
    let Some(first) = first.get_mut(..six(&head[20..26]) as usize) else {
        return no_vector(rt);
    };
    let Some(second) = second.get_mut(..six(&head[27..33]) as usize) else {
        return no_vector(rt);
    };
    let parting = part_file::part(day(head), file, six(&head[13..19]), first, second);
    print!(rt; "{} {} {}", PartAnswer(parting), hash(first), hash(second))
}

// `make  000000 ROOM`, then lines of values.
fn make(rt: &impl Print, head: &Head, values: &[u8], out: &mut [u8]) -> io::Result<()> {
    let Some(out) = out.get_mut(..six(&head[13..19]) as usize) else {
        return no_vector(rt);
    };
    match make_lines::make_draft(values, out) {
        Ok(records) => print!(rt; "{}", Made(records)),
        Err(x) => print!(rt; "{}", Answer(Err(x))),
    }?;
    print!(rt; " {}", hash(out))
}

// By the first two letters of the first line; outputs hold `#` before anything is written. An input too short for the others is a check.
fn answer(rt: &impl Print, all: &[u8]) -> io::Result<()> {
    let mut first = [b'#'; ROOM];
    let mut second = [b'#'; ROOM];
    let Some((head, input)) = all.split_first_chunk::<HEAD>() else {
        return check(rt, all);
    };
    match head {
        [b'j', ..] => join(rt, head, input, &mut first),
        [b'p', ..] => part(rt, head, input, &mut first, &mut second),
        [b'm', ..] => make(rt, head, input, &mut first),
        [_, b'l', ..] => close(rt, head, input, &mut first),
        _ => check(rt, all),
    }
}

// Whether there is a vector of this number; it is answered.
fn one(rt: &(impl Files + Print), k: u64) -> io::Result<bool> {
    let mut name = *b"v0000";
    fields::put_number(&mut name[1..], k);
    let Ok(mut file) = program_lines::open(rt, &name) else {
        return Ok(false);
    };
    let mut buffer = [0u8; ROOM];
    let n = program_lines::read_full(&mut file, &mut buffer)?;
    print!(rt; "v{k:04} ")?;
    answer(rt, &buffer[..n])?;
    rt.println("")?;
    Ok(true)
}

fn main(rt: HostRuntime) -> io::Result<()> {
    for k in 0..10000 {
        if !one(&rt, k)? {
            break;
        }
    }
    Ok(())
}

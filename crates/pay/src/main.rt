// The office's tool over whole files: pay check, make, close, join and part.

#![tactic(auto)]

ghost use Rattle.std.specs.Prelude.{◌*◌, ◌≤◌, length};
ghost use Rattle.limits.specs.Limits.{record_bytes};
ghost use Rattle.operations.specs.Closing.{file_bytes};

use figures::totals::Totals;
use limits::{MOST_RECORDS, RECORD_BYTES};
use operations::NotParted;
use rules::Mode;
use std::env::Env;
use std::fs::Files;
use std::io;
use std::random::RandomSource;
use tool_command as asked;
use tool_command::Command;
use tool_explain::answers;
use tool_names::NAME_ROOM;
use tool_phrases::help;

// A file of full size and a record more, which the rules refuse.
const FILE_ROOM: usize = RECORD_BYTES * (MOST_RECORDS + 1);

// Values of a draft of full size with every field written out, and 7 million bytes for remarks.
const VALUES_ROOM: usize = 24_000_000;

// The input that an argument names, read into the buffer; none where there is trouble with it, which is told.
fn read<'a>(
    rt: &(impl Env + Files + Print),
    argument: usize,
    buffer: &'a mut [u8],
    most: &[u8],
) -> io::Result<Option<&'a [u8]>> {
    let mut name = [0u8; NAME_ROOM];
    let name = asked::word_at(rt, argument, &mut name);
    tool_files::read_input(rt, name, buffer, most)
}

fn read_file<'a>(
    rt: &(impl Env + Files + Print),
    argument: usize,
    buffer: &'a mut [u8],
) -> io::Result<Option<&'a [u8]>> {
    let room = buffer.len().min(FILE_ROOM);
    read(
        rt,
        argument,
        &mut buffer[..room],
        b"a file has at most 200,000 records",
    )
}

// Whether these bytes were saved by the name that an argument gives; trouble is told.
fn save(
    rt: &(impl Env + Files + Print + RandomSource),
    argument: usize,
    bytes: &[u8],
) -> io::Result<bool> {
    let mut name = [0u8; NAME_ROOM];
    tool_files::save(rt, asked::word_at(rt, argument, &mut name), bytes)
}

// The file of these figures, which was written into an output, goes to the name that the argument gives.
fn keep(
    rt: &(impl Env + Files + Print + RandomSource),
    argument: usize,
    out: &[u8],
    t: Totals,
) -> io::Result<()>
    requires { file_bytes t ≤ length out.now }
{
    if save(rt, argument, operations::file_in(out, t.records))? {
        return answers::tell_accepted(rt, t);
    }
    Ok(())
}

fn check(rt: &(impl Env + Files + Print), room: &mut [u8]) -> io::Result<()> {
    let Some(file) = read_file(rt, 3, room)? else {
        return Ok(());
    };
    match check_file::check(asked::day(rt), file) {
        Ok(t) => answers::tell_accepted(rt, t),
        Err(x) => answers::tell_refused(rt, x, Mode::File, file),
    }
}

// The draft of so many records goes to the file that the command line names.
fn keep_draft(
    rt: &(impl Env + Files + Print + RandomSource),
    out: &[u8],
    records: u64,
) -> io::Result<()>
    requires { record_bytes * records ≤ length out.now }
{
    if save(rt, 3, &out[..RECORD_BYTES * records as usize])? {
        return tool_values::tell_made(rt, records);
    }
    Ok(())
}

fn make(
    rt: &(impl Env + Files + Print + RandomSource),
    room: &mut [u8],
    out: &mut [u8],
) -> io::Result<()> {
    let Some(values) = read(rt, 2, room, b"values have at most 24,000,000 bytes")? else {
        return Ok(());
    };
    match make_lines::make_draft(values, out) {
        Ok(records) => keep_draft(rt, out, records),
        Err(x) => tool_values::tell_not_made(rt, x, values),
    }
}

fn close(
    rt: &(impl Env + Files + Print + RandomSource),
    room: &mut [u8],
    out: &mut [u8],
) -> io::Result<()> {
    let Some(draft) = read_file(rt, 3, room)? else {
        return Ok(());
    };
    match close_draft::close(asked::day(rt), draft, out) {
        Ok(t) => keep(rt, 4, out, t),
        Err(x) => answers::tell_refused(rt, x, Mode::Draft, draft),
    }
}

fn join(
    rt: &(impl Env + Files + Print + RandomSource),
    room1: &mut [u8],
    room2: &mut [u8],
    out: &mut [u8],
) -> io::Result<()> {
    let Some(first) = read_file(rt, 3, room1)? else {
        return Ok(());
    };
    let Some(second) = read_file(rt, 4, room2)? else {
        return Ok(());
    };
    match join_files::join(asked::day(rt), first, second, out) {
        Ok(t) => keep(rt, 5, out, t),
        Err(x) => answers::tell_which(rt, x, first, second),
    }
}

// Both parts go to the files that the command line names.
fn keep_parts(
    rt: &(impl Env + Files + Print + RandomSource),
    first: &[u8],
    second: &[u8],
) -> io::Result<()> {
    let mut name1 = [0u8; NAME_ROOM];
    let mut name2 = [0u8; NAME_ROOM];
    let name1 = asked::word_at(rt, 5, &mut name1);
    let name2 = asked::word_at(rt, 6, &mut name2);
    if tool_files::save_both(rt, name1, first, name2, second)? {
        return rt.println("parted");
    }
    Ok(())
}

fn part(
    rt: &(impl Env + Files + Print + RandomSource),
    room: &mut [u8],
    first: &mut [u8],
    second: &mut [u8],
) -> io::Result<()> {
    let Some(file) = read_file(rt, 3, room)? else {
        return Ok(());
    };
    match part_file::part(asked::day(rt), file, asked::boundary(rt), first, second) {
        Ok((a, b)) => keep_parts(rt, &first[..a], &second[..b]),
        Err(NotParted::Refused(x)) => answers::tell_refused(rt, x, Mode::File, file),
        Err(NotParted::NoBoundary(assignments)) => {
            answers::tell_refused(rt, operations::no_boundary(), Mode::File, file)?;
            tool_explain::say_boundaries(rt, assignments.0)
        }
    }
}

// A command, with room for three files, or for values and a draft.
fn run(
    rt: &(impl Env + Files + Print + RandomSource),
    command: Command,
    first: &mut [u8; VALUES_ROOM],
    second: &mut [u8; FILE_ROOM],
    third: &mut [u8; FILE_ROOM],
) -> io::Result<()> {
    match command {
        Command::Check => check(rt, first),
        Command::Make => make(rt, first, second),
        Command::Close => close(rt, first, second),
        Command::Join => join(rt, first, second, third),
        Command::Part => part(rt, first, second, third),
        Command::Help => rt.println(help::PAGE),
    }
}

// The room is in a frame of its own, so that help and wrong usage need no large stack.
#[inline(never)]
fn hold(rt: &(impl Env + Files + Print + RandomSource), command: Command) -> io::Result<()> {
    let mut first = [0u8; VALUES_ROOM];
    let mut second = [0u8; FILE_ROOM];
    let mut third = [0u8; FILE_ROOM];
    run(rt, command, &mut first, &mut second, &mut third)
}

fn main(rt: HostRuntime) -> io::Result<()> {
    let Some(command) = asked::command_given(&rt) else {
        return rt.println(help::USAGE);
    };
    if command == Command::Help {
        return rt.println(help::PAGE);
    }
    if asked::words_given(&rt) != command.words() {
        return rt.println(help::usage(command));
    }
    hold(&rt, command)
}

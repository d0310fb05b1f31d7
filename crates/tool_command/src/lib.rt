// What the command line asks: the command, the process day, the number of assignments.

#![tactic(auto, unfolding(crate::specs::CommandLine::command_from, crate::specs::CommandLine::day_from, crate::specs::CommandLine::number_from, fields::specs::Bytes::same, fields::specs::Numbers::number_of))]

ghost use Rattle.std.specs.Prelude.{◌≡◌, ◌≤◌, length};
ghost use Rattle.tool_command.specs.CommandLine.{command_from, words_of, no_day, day_from, number_from};

use dates::ProcessDay;
use std::env::{Env, FillError};

// More words than any command takes.
const TOO_MANY: usize = 8;

#[derive(Clone, Copy, Debug, PartialEq, Eq)]
pub enum Command {
    Check,
    Make,
    Close,
    Join,
    Part,
    Help,
}

fn command_from(word: &str) -> Option<Command>
    ensures { result ≡ command_from word.now }
{
    match word {
        "check" => Some(Command::Check),
        "make" => Some(Command::Make),
        "close" => Some(Command::Close),
        "join" => Some(Command::Join),
        "part" => Some(Command::Part),
        "help" => Some(Command::Help),
        _ => None,
    }
}

// The word in this place of the command line, which is put into the buffer; empty where there is none, or none that fits.
pub fn word_at<'a>(rt: &impl Env, place: usize, buffer: &'a mut [u8]) -> &'a [u8]
    ensures { length result.now ≤ length buffer.old }
{
    let n = rt.arg(place, buffer).unwrap_or(0);
    &buffer[..n]
}

// Whether the command line has a word in this place.
fn has_word(rt: &impl Env, place: usize) -> bool {
    !matches!(rt.arg(place, &mut [0]), Err(FillError::NotPresent))
}

// How many words the command line has, the program's own among them; more than any command takes are not counted further.
pub fn words_given(rt: &impl Env) -> usize {
    (0..TOO_MANY)
        .take_while(|place| has_word(rt, *place))
        .count()
}

// The command that the first word names.
pub fn command_given(rt: &impl Env) -> Option<Command> {
    command_from(str::from_utf8(word_at(rt, 1, &mut [0; 8])).ok()?)
}

impl Command {
    // How many words a command line of this command has, the program's own among them.
    pub fn words(self) -> usize
        ensures { result ≡ words_of self }
    {
        match self {
            Command::Check => 4,
            Command::Make => 4,
            Command::Close => 5,
            Command::Join => 6,
            Command::Part => 7,
            Command::Help => 2,
        }
    }
}

// A day of another form than DDMMYY is no date.
fn no_day() -> ProcessDay
    ensures { result ≡ no_day }
{
    ProcessDay {
        year: 0,
        month: 0,
        day: 0,
    }
}

fn day_from(word: &[u8]) -> ProcessDay
    ensures { result ≡ day_from word.now }
{
    if word.len() != 6 {
        return no_day();
    }
    match field_digits::number(word) {
        Some(ddmmyy) => program_lines::process_day(ddmmyy),
        None => no_day(),
    }
}

// The process day.
pub fn day(rt: &impl Env) -> ProcessDay {
    day_from(word_at(rt, 2, &mut [0; 6]))
}

// A word that is no number is 0, which is no boundary.
fn number_from(word: &[u8]) -> u64
    ensures { result ≡ number_from word.now }
{
    if 17 < word.len() {
        return 0;
    }
    field_digits::number(word).unwrap_or(0)
}

// K of a parting.
pub fn boundary(rt: &impl Env) -> u64 {
    number_from(word_at(rt, 4, &mut [0; 17]))
}

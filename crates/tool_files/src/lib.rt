// Files by name: an input read whole, an output that takes its name only when it is whole.

#![tactic(auto)]

ghost use Rattle.std.specs.Prelude.{◌≤◌, length, IfOk, IfSome};

use program_lines::path;
use std::fs::{Files, OpenFile, OpenOptions};
use std::io::{Error, ErrorKind, Read, Write};
use std::random::RandomSource;
use std::{fmt, fs, io};
use tool_names::{Mark, NAME_ROOM};

// Why a file is not read or written.
#[derive(Clone, Copy)]
enum Trouble {
    System(Error),
    // an input of more bytes than it may have
    TooLong,
}

impl From<Error> for Trouble {
    fn from(error: Error) -> Trouble {
        Trouble::System(error)
    }
}

impl fmt::Display for Trouble {
    fn fmt<W: fmt::Write>(&self, f: &mut fmt::Formatter<W>) -> fmt::Result {
        f.write_str(match self {
            Trouble::System(error) => meaning(error.kind()),
            Trouble::TooLong => "it is too long",
        })
    }
}

// What the system says of a call that failed.
fn meaning(kind: ErrorKind) -> &'static str {
    match kind {
        ErrorKind::NotFound => "there is no such file or folder",
        ErrorKind::PermissionDenied => "you have no permission for this",
        ErrorKind::IsADirectory => "it is a folder",
        ErrorKind::NotADirectory => "a file stands where a folder should",
        ErrorKind::InvalidInput => "it is neither a file nor a folder",
        ErrorKind::AlreadyExists => "its new file is there already; do two outputs have one name?",
        ErrorKind::StorageFull => "the disk is full",
        ErrorKind::QuotaExceeded => "your share of the disk is full",
        ErrorKind::FileTooLarge => "it would be larger than a file may be here",
        ErrorKind::ReadOnlyFilesystem => "this disk can only be read",
        ErrorKind::InvalidFilename => "the name is too long",
        ErrorKind::InvalidData => "the name is not a text in UTF-8",
        _ => "the system could not do it",
    }
}

// Which file it is, and what; the line is left open.
fn tell_of(rt: &impl Print, name: &[u8], trouble: Trouble) -> io::Result<()> {
    rt.write_all(b"trouble with ")?;
    rt.write_all(name)?;
    print!(rt; ": {trouble}")
}

fn tell(rt: &impl Print, name: &[u8], trouble: Trouble) -> io::Result<()> {
    tell_of(rt, name, trouble)?;
    rt.println("")
}

// Trouble with an input, of which there may be at most this.
fn tell_input(rt: &impl Print, name: &[u8], trouble: Trouble, most: &[u8]) -> io::Result<()> {
    tell_of(rt, name, trouble)?;
    if let Trouble::TooLong = trouble {
        rt.write_all(b", ")?;
        rt.write_all(most)?;
    }
    rt.println("")
}

// Reads a file whole into the buffer, and says how many bytes it has. After a full buffer or its end nothing more may come.
fn read_whole(rt: &impl Files, name: &[u8], buffer: &mut [u8]) -> Result<usize, Trouble>
    ensures { IfOk result (λ n. n ≤ length buffer.new) }
{
    let mut file = program_lines::open(rt, name)?;
    let n = program_lines::read_full(&mut file, buffer)?;
    if file.read(&mut [0])? != 0 {
        return Err(Trouble::TooLong);
    }
    Ok(n)
}

// An input, read whole into the buffer; none where there is trouble, which is told, with how long it may be.
pub fn read_input<'a>(
    rt: &(impl Files + Print),
    name: &[u8],
    buffer: &'a mut [u8],
    most: &[u8],
) -> io::Result<Option<&'a [u8]>>
    ensures { IfOk result (λ read. IfSome read (λ input. length input.now ≤ length buffer.old)) }
{
    match read_whole(rt, name, buffer) {
        Ok(n) => Ok(Some(&buffer[..n])),
        Err(trouble) => {
            tell_input(rt, name, trouble, most)?;
            Ok(None)
        }
    }
}

// The file of this name, to be read and written as it stands.
fn open_update<R: Files>(rt: &R, name: &[u8]) -> io::Result<R::File> {
    OpenOptions::new()
        .read(true)
        .write(true)
        .open(rt, path(name)?)
}

// A new file, which takes the place of none.
fn create<R: Files>(rt: &R, name: &[u8]) -> io::Result<R::File> {
    OpenOptions::new()
        .write(true)
        .create_new(true)
        .open(rt, path(name)?)
}

fn rename(rt: &impl Files, from: &[u8], to: &[u8]) -> io::Result<()> {
    fs::rename(rt, path(from)?, path(to)?)
}

fn unlink(rt: &impl Files, name: &[u8]) -> io::Result<()> {
    fs::remove_file(rt, path(name)?)
}

// A folder with this name is no output.
fn no_folder(rt: &impl Files, name: &[u8]) -> io::Result<()> {
    let mut buffer = [0u8; NAME_ROOM];
    let Some(inside) = tool_names::lengthened(name, b"/.", &mut buffer) else {
        return Ok(());
    };
    match program_lines::open(rt, inside) {
        Ok(_folder) => Err(Error::from(ErrorKind::IsADirectory)),
        Err(e) => match e.kind() {
            ErrorKind::NotFound | ErrorKind::NotADirectory => Ok(()),
            _ => Err(e),
        },
    }
}

// What stands under an output's name is a file that may be written, or nothing: a device or a pipe cannot be synced.
fn fit(rt: &impl Files, name: &[u8]) -> io::Result<()> {
    no_folder(rt, name)?;
    match open_update(rt, name) {
        Ok(file) => file
            .sync_all()
            .map_err(|_| Error::from(ErrorKind::InvalidInput)),
        Err(e) => match e.kind() {
            ErrorKind::NotFound => Ok(()),
            _ => Err(e),
        },
    }
}

// Bytes into a new file, all of them and synced.
fn fill(file: &mut (impl Write + OpenFile), bytes: &[u8]) -> io::Result<()> {
    file.write_all(bytes)?;
    file.sync_all()
}

// An output by its name, and the new file that is to take that name.
#[derive(Clone, Copy)]
struct Output<'a> {
    name: &'a [u8],
    new: &'a [u8],
}

// A name beside an output's; empty, which the system refuses, where it would be too long.
fn beside<'a>(name: &[u8], m: &Mark, word: &[u8; 3], buffer: &'a mut [u8]) -> &'a [u8] {
    tool_names::beside(name, m, word, buffer).unwrap_or(&[])
}

impl<'a> Output<'a> {
    fn of(name: &'a [u8], m: &Mark, buffer: &'a mut [u8]) -> Output<'a> {
        Output {
            name,
            new: beside(name, m, b"new", buffer),
        }
    }

    // Where a step did not succeed, the new file goes.
    fn or_gone(self, rt: &impl Files, step: io::Result<()>) -> io::Result<()> {
        if step.is_err() {
            let _ = unlink(rt, self.new);
        }
        step
    }

    // A new file with these bytes, whole and synced; else none.
    fn make(self, rt: &impl Files, bytes: &[u8]) -> io::Result<()> {
        fit(rt, self.name)?;
        let mut file = create(rt, self.new)?;
        self.or_gone(rt, fill(&mut file, bytes))
    }

    // The new file takes the output's name, or goes.
    fn settle(self, rt: &impl Files) -> io::Result<()> {
        self.or_gone(rt, rename(rt, self.new, self.name))
    }

    // The folder of an output keeps its new name, also when the power goes. A system that cannot do this is let pass: the file itself is whole.
    fn sync_folder(self, rt: &impl Files) {
        let mut buffer = [0u8; NAME_ROOM];
        let Some(folder) = tool_names::folder(self.name, &mut buffer) else {
            return;
        };
        if let Ok(at) = program_lines::open(rt, folder) {
            let _ = at.sync_all();
        }
    }

    // The new file is made, takes the output's name, and its folder keeps that.
    fn replace(self, rt: &impl Files, bytes: &[u8]) -> Result<(), Trouble> {
        self.make(rt, bytes)?;
        self.settle(rt)?;
        self.sync_folder(rt);
        Ok(())
    }
}

// Whether an output was saved; trouble is told, once all is as it was.
fn saved(rt: &impl Print, name: &[u8], outcome: Result<(), Trouble>) -> io::Result<bool> {
    match outcome {
        Ok(()) => Ok(true),
        Err(trouble) => {
            tell(rt, name, trouble)?;
            Ok(false)
        }
    }
}

// One output, whole or not at all; trouble is told.
pub fn save(
    rt: &(impl Files + Print + RandomSource),
    name: &[u8],
    bytes: &[u8],
) -> io::Result<bool> {
    let mut buffer = [0u8; NAME_ROOM];
    let output = Output::of(name, &tool_names::mark(rt), &mut buffer);
    saved(rt, name, output.replace(rt, bytes))
}

// Two new files take their outputs' names, both or neither: what had the first name is kept aside until both are there.
fn exchange(
    rt: &(impl Files + Print),
    first: Output,
    old: &[u8],
    second: Output,
) -> io::Result<bool> {
    let stood = rename(rt, first.name, old).is_ok();
    if let Err(e) = first.settle(rt) {
        let _ = unlink(rt, second.new);
        bring_back(rt, stood, old, first.name);
        return saved(rt, first.name, Err(Trouble::System(e)));
    }
    if let Err(e) = second.settle(rt) {
        let _ = unlink(rt, first.name);
        bring_back(rt, stood, old, first.name);
        return saved(rt, second.name, Err(Trouble::System(e)));
    }
    first.sync_folder(rt);
    second.sync_folder(rt);
    let _ = unlink(rt, old);
    Ok(true)
}

// What stood under a name before comes back to it.
fn bring_back(rt: &impl Files, stood: bool, old: &[u8], name: &[u8]) {
    if stood {
        let _ = rename(rt, old, name);
    }
}

// Two outputs, both whole or neither; trouble is told.
pub fn save_both(
    rt: &(impl Files + Print + RandomSource),
    first: &[u8],
    bytes1: &[u8],
    second: &[u8],
    bytes2: &[u8],
) -> io::Result<bool> {
    let m = tool_names::mark(rt);
    let mut new1 = [0u8; NAME_ROOM];
    let mut new2 = [0u8; NAME_ROOM];
    let mut old = [0u8; NAME_ROOM];
    let first = Output::of(first, &m, &mut new1);
    let second = Output::of(second, &m, &mut new2);
    if let Err(e) = first.make(rt, bytes1) {
        return saved(rt, first.name, Err(Trouble::System(e)));
    }
    if let Err(e) = second.make(rt, bytes2) {
        let _ = unlink(rt, first.new);
        return saved(rt, second.name, Err(Trouble::System(e)));
    }
    exchange(rt, first, beside(first.name, &m, b"old", &mut old), second)
}

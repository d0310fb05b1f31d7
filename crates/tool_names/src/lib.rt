// Names of files: a new one beside an output, and an output's folder.

#![tactic(auto, unfolding(crate::specs::Names::longer))]

ghost use Rattle.std.specs.Prelude.{◌≡◌, true, option_copied, length, position, reverse};
ghost use Rattle.fields.specs.Bytes.{every, is_digit, text};
ghost use Rattle.tool_names.specs.Names.{longer, ending_of, is_slash, folder_of};

use std::random::RandomSource;

// Room for any name that the system takes.
pub const NAME_ROOM: usize = 4096;

// Seven digits that tell the files of one run from those of another.
pub type Mark = [u8; 7];

// A name with the ending after it, put into the buffer; none where that is too long for it.
pub fn lengthened<'a>(name: &[u8], ending: &[u8], buffer: &'a mut [u8]) -> Option<&'a [u8]>
    ensures { option_copied result ≡ longer (length buffer.old) name.now ending.now }
{
    let whole = buffer.get_mut(..name.len() + ending.len())?;
    whole[..name.len()].copy_from_slice(name);
    whole[name.len()..].copy_from_slice(ending);
    Some(whole)
}

// A point, the run's mark, a point and a word.
fn ending_of(m: &Mark, word: &[u8; 3]) -> [u8; 12]
    ensures { result ≡ ending_of m.now word.now }
{
    let mut ending = *b".mmmmmmm.www";
    ending[1..8].copy_from_slice(m);
    ending[9..].copy_from_slice(word);
    ending
}

// The name of a file beside an output: in its folder, since the ending has no slash.
pub fn beside<'a>(name: &[u8], m: &Mark, word: &[u8; 3], buffer: &'a mut [u8]) -> Option<&'a [u8]>
    ensures { option_copied result ≡ longer (length buffer.old) name.now (ending_of m.now word.now) }
{
    lengthened(name, &ending_of(m, word), buffer)
}

fn digit(b: u8) -> u8
    ensures { is_digit result ≡ true }
{
    b'0' + b % 10
}

// Seven digits by chance, so that no two runs make one file; zeros where the system gives none. A new file never takes the place of one that is there.
pub fn mark(rt: &impl RandomSource) -> Mark
    ensures { every is_digit result ≡ true }
{
    let mut chance = [0u8; 7];
    let _ = rt.fill_bytes(&mut chance);
    chance.map(digit)
}

// How many bytes stand behind the last slash, if there is one.
fn behind_slash(name: &[u8]) -> Option<usize>
    ensures { result ≡ position is_slash (reverse name.now) }
{
    name.iter().rev().position(|b| *b == b'/')
}

// A name's folder: what stands up to and with its last slash.
fn folder_of(name: &[u8]) -> &[u8]
    ensures { result.now ≡ folder_of name.now }
{
    let file = behind_slash(name).unwrap_or(name.len());
    &name[..name.len() - file]
}

// The name of an output's folder: what stands up to and with its last slash, and a point, so that no slash is the folder at hand.
pub fn folder<'a>(name: &[u8], buffer: &'a mut [u8]) -> Option<&'a [u8]>
    ensures { option_copied result ≡ longer (length buffer.old) (folder_of name.now) (text ".") }
{
    lengthened(folder_of(name), b".", buffer)
}

// The lines of a text, the values of a line, and the number that a value writes.

ghost use Rattle.std.specs.Prelude.{◌≡◌, [], ◌+◌, ◌-◌, ◌*◌, ◌≤◌, length, get_or, drop};
ghost use Rattle.fields.specs.Bytes.{every};
ghost use Rattle.fields.specs.Numbers.{value};
ghost use Rattle.make_lines.specs.Lines.{behind, without_return, lines_of, values_of, from_value, is_semicolon, passed_over, is_numeral, cap, capped};

use field_bytes::classes::Class;

// A carriage return at the end of a line goes with it.
pub fn without_return(line: &[u8]) -> &[u8]
    ensures { result.now ≡ without_return line.now }
{
    line.strip_suffix(b"\r").unwrap_or(line)
}

// The line of this number, counted from 1; empty where there is none.
pub fn line_at(values: &[u8], line: u64) -> &[u8]
    ensures { result.now ≡ get_or (lines_of values.now) (line - 1) [] }
{
    let place = line.saturating_sub(1) as usize;
    let found = values.split(|b| *b == b'\n').nth(place);
    without_return(found.unwrap_or(&[]))
}

// Nothing but semicolons. No early exit: the loop becomes vector code.
pub fn only_semicolons(s: &[u8]) -> bool
    ensures { result ≡ every is_semicolon s.now }
{
    let mut ok = true;
    for b in s {
        ok &= *b == b';';
    }
    ok
}

// A remark, or a line with no value in it.
pub fn is_passed_over(line: &[u8]) -> bool
    ensures { result ≡ passed_over line.now }
{
    line.starts_with(b"#") || only_semicolons(line)
}

// What stands behind the first value; nothing where there is no second.
fn behind_first(line: &[u8]) -> &[u8]
    ensures { result.now ≡ behind 59 line.now }
{
    match line.iter().position(|b| *b == b';') {
        Some(k) => &line[k + 1..],
        None => &[],
    }
}

// Where the value in place i begins, counted from 0; the length where there is none.
pub fn value_start(line: &[u8], i: usize) -> usize
    ensures { (result ≤ length line.now) × (drop result line.now ≡ from_value i line.now) }
{
    let mut rest = line;
    for _k in 0..i {
        rest = behind_first(rest);
    }
    line.len() - rest.len()
}

// The value in place i, counted from 0; empty where there is none.
pub fn value_at(line: &[u8], i: usize) -> &[u8]
    ensures { result.now ≡ get_or (values_of line.now) i [] }
{
    line.split(|b| *b == b';').nth(i).unwrap_or(&[])
}

// One digit or more.
pub fn is_numeral(s: &[u8]) -> bool
    ensures { result ≡ is_numeral s.now }
{
    !s.is_empty() && Class::Digit.has_all(s)
}

// More than any field holds.
const CAP: u64 = 100_000_000_000_000_000;

// A digit more, up to the cap.
fn more(n: u64, b: u8) -> u64
    requires { n ≤ cap }
    ensures { result ≡ capped (n * 10 + (b - 48)) }
{
    let digit = u64::from(b.saturating_sub(b'0'));
    (n * 10 + digit).min(CAP)
}

// The number that digits write, up to the cap.
fn number_of(s: &[u8]) -> u64
    ensures { result ≡ capped (value s.now) }
{
    let mut n: u64 = 0;
    for b in s {
        n = more(n, *b);
    }
    n
}

// The number that the value in place i writes, up to the cap.
pub fn number_at(line: &[u8], i: usize) -> u64
    ensures { result ≡ capped (value (get_or (values_of line.now) i [])) }
{
    number_of(value_at(line, i))
}

// The fields of a record, each put in its places of a lent one.

#![tactic(auto)]

ghost use Rattle.std.specs.Prelude.{◌≡◌, [], ◌∷◌, ◌++◌, ◌+◌, ◌≤◌, length, take, drop};
ghost use Rattle.field_texts.specs.Texts.{to_left, to_right};
ghost use Rattle.fields.specs.Numbers.{written};
ghost use Rattle.write_fields.specs.Parts.{head_bytes};

// Puts a byte after the first `at` bytes.
pub fn put_byte(out: &mut [u8], at: usize, byte: u8)
    requires { at + 1 ≤ length out.old }
    ensures { out.new ≡ take at out.old ++ ((byte ∷ []) ++ drop (at + 1) out.old) }
{
    out[at] = byte;
}

// Puts a number after the first `at` bytes, in as many digits as the field is wide.
pub fn put_digits(out: &mut [u8], at: usize, width: usize, n: u64)
    requires { at + width ≤ length out.old }
    ensures { out.new ≡ take at out.old ++ (written width n ++ drop (at + width) out.old) }
{
    fields::put_number(&mut out[at..at + width], n);
}

// Puts a text after the first `at` bytes, blanks behind it as far as the field is wide.
pub fn put_left_at(out: &mut [u8], at: usize, width: usize, text: &[u8])
    requires { (at + width ≤ length out.old) × (length text.now ≤ width) }
    ensures { out.new ≡ take at out.old ++ (to_left width text.now ++ drop (at + width) out.old) }
{
    field_texts::put_left(&mut out[at..at + width], text);
}

// The same with the blanks before the text.
pub fn put_right_at(out: &mut [u8], at: usize, width: usize, text: &[u8])
    requires { (at + width ≤ length out.old) × (length text.now ≤ width) }
    ensures { out.new ≡ take at out.old ++ (to_right width text.now ++ drop (at + width) out.old) }
{
    field_texts::put_right(&mut out[at..at + width], text);
}

// Fields 1 to 4 of a record, over the start of an output.
pub fn put_head(out: &mut [u8], service: u64, code: u64, kind: u64)
    requires { 8 ≤ length out.old }
    ensures { out.new ≡ head_bytes service code kind ++ drop 8 out.old }
{
    put_byte(out, 0, b'N');
    put_byte(out, 1, b'Y');
    put_digits(out, 2, 2, service);
    put_digits(out, 4, 2, code);
    put_digits(out, 6, 2, kind);
}

// Bytes copied into lent memory, and short texts in wider fields.

#![tactic(auto)]

ghost use Rattle.std.specs.Prelude.{◌≡◌, ◌++◌, ◌≤◌, length, drop};
ghost use Rattle.field_texts.specs.Texts.{blanks, to_left, to_right};

// Copies bytes over the start of an output. A loop, since the library's copy would ask the C library of a caller for one name more.
pub fn copy_to(out: &mut [u8], bytes: &[u8])
    requires { length bytes.now ≤ length out.old }
    ensures { out.new ≡ bytes.now ++ drop (length bytes.now) out.old }
{
    for i in 0..bytes.len() {
        out[i] = bytes[i];
    }
}

// A text in all of an output, blanks behind it.
pub fn put_left(out: &mut [u8], text: &[u8])
    requires { length text.now ≤ length out.old }
    ensures { out.new ≡ to_left (length out.old) text.now }
{
    copy_to(out, text);
    out[text.len()..].fill(b' ');
}

// A text in all of an output, blanks before it.
pub fn put_right(out: &mut [u8], text: &[u8])
    requires { length text.now ≤ length out.old }
    ensures { out.new ≡ to_right (length out.old) text.now }
{
    let start = out.len() - text.len();
    out[..start].fill(b' ');
    out[start..].copy_from_slice(text);
}

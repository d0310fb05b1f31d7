// A field that has to be one fixed text.

ghost use Rattle.std.specs.Prelude.{◌≡◌, length};
ghost use Rattle.field_bytes.specs.Bytes.{same};

// The bytes of `s` are those of `t`. Most fixed texts have two bytes, which are compared at once.
pub fn same_bytes(s: &[u8], t: &[u8]) -> bool
    requires { length s.now ≡ length t.now }
    ensures { result ≡ same s.now t.now }
{
    if s.len() == 2 {
        return (s[0] == t[0]) & (s[1] == t[1]);
    }
    s == t
}

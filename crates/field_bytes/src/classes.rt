// Classes of bytes, and that every byte of a field is in one.

ghost use Rattle.std.specs.Prelude.{◌≡◌};
ghost use Rattle.field_bytes.specs.Bytes.{every};
ghost use Rattle.field_bytes.specs.Classes.{in_class};

#[derive(Clone, Copy, Debug, PartialEq, Eq)]
pub enum Class {
    Digit,
    Zero,
    Blank,
    Text,
    DigitOrBlank,
}

impl Class {
    // The byte is in the class.
    pub fn has(self, b: u8) -> bool
        ensures { result ≡ in_class self b }
    {
        match self {
            Class::Digit => (b'0' <= b) & (b <= b'9'),
            Class::Zero => b == b'0',
            Class::Blank => b == b' ',
            // 32 to 126 and 160 to 255 have a bit of 0x60; so has 127, which is none
            Class::Text => (b & 0x60 != 0) & (b != 127),
            Class::DigitOrBlank => ((b'0' <= b) & (b <= b'9')) | (b == b' '),
        }
    }

    // Every byte of `s` is in the class. No early exit: the loop becomes vector code.
    pub fn has_all(self, s: &[u8]) -> bool
        ensures { result ≡ every (in_class self) s.now }
    {
        let mut ok = true;
        for b in s {
            ok &= self.has(*b);
        }
        ok
    }
}

//! The classes of bytes that a text is cut by, and the longest run of one class at the front of some
//! bytes.
ghost use Rattle.std.specs.Prelude.{◌≡◌, ◌≤◌, length, ◌==◌};
ghost use Rattle.std.specs.List.{prefix_len};
ghost use Rattle.textparts.specs.Bytes.{has, each};

/// A class of bytes.
// It stays an enum, and no test is passed in: contracts and laws name the class, where of a closure
// they could only say that it was called.
#[derive(Clone, Copy)]
pub enum Class {
    /// every byte but the line feed, which ends a line
    InLine,
    /// the space, which separates words
    Space,
    /// every byte but the space
    InWord,
    /// the bytes 32 to 126
    Printable,
    /// `a` to `z`
    Letter,
    /// `0` to `9`
    Digit,
    /// letters, digits and the hyphen
    NameByte,
}

impl Class {
    /// Whether the byte is of the class.
    pub fn has(self, b: u8) -> bool
        ensures { result ≡ has self b }
    {
        match self {
            Class::InLine => b != b'\n',
            Class::Space => b == b' ',
            Class::InWord => b != b' ',
            Class::Printable => matches!(b, b' '..=b'~'),
            Class::Letter => b.is_ascii_lowercase(),
            Class::Digit => b.is_ascii_digit(),
            Class::NameByte => b.is_ascii_lowercase() || b.is_ascii_digit() || b == b'-',
        }
    }

    /// How many bytes of the class stand at the front.
    pub fn run(self, bytes: &[u8]) -> usize
        ensures count { result ≡ prefix_len (has self) bytes.now }
        ensures within { result ≤ length bytes.now }
        ensures whole { (result == length bytes.now) ≡ each (has self) bytes.now }
    {
        bytes.iter().take_while(|b| self.has(**b)).count()
    }

    /// Whether every byte is of the class.
    pub fn all(self, bytes: &[u8]) -> bool
        ensures { result ≡ each (has self) bytes.now }
    {
        self.run(bytes) == bytes.len()
    }
}

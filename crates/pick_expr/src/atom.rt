// The atoms of patterns.
ghost use Rattle.std.specs.Prelude.{◌≡◌};
ghost use Rattle.pick_expr.specs.Atoms.{admits as admits_byte, matches_byte as byte_matches};

use crate::ByteSet;

/// What stands for one byte of a line.
#[derive(Drop)]
pub enum Atom {
    /// `.`, any byte.
    Any,
    /// A byte, which stands for both cases where it is a lower-case letter.
    Byte(u8),
    /// `[abc]`, one of these bytes, or `[^abc]`, any other byte.
    Class { negated: bool, bytes: ByteSet },
}

fn matches_byte(wanted: u8, byte: u8) -> bool
    ensures { result ≡ byte_matches wanted byte }
{
    byte == wanted || byte.to_ascii_lowercase() == wanted
}

impl Atom {
    /// Whether it stands for this byte.
    pub fn admits(&self, byte: u8) -> bool
        ensures { result ≡ admits_byte self.now byte }
    {
        match self {
            Atom::Any => true,
            Atom::Byte(wanted) => matches_byte(*wanted, byte),
            Atom::Class { negated, bytes } => bytes.has(byte) != *negated,
        }
    }
}

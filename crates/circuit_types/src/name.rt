//! A name that a text gives, or one of its own.

ghost use Rattle.std.specs.Prelude.{◌≡◌};

use sequences::Sequence;
use std::marker::Model;

/// Where the bytes of a name lie.
#[derive(Debug, Drop)]
enum Letters<'a> {
    /// In a text.
    Text(&'a [u8]),
    /// By themselves.
    Made(Sequence<u8>),
}

/// A name; contracts see its bytes.
#[derive(Debug, Drop)]
pub struct Name<'a> {
    letters: Letters<'a>,
}

impl<'a> Model for Name<'a> {
    ghost use Rattle.std.specs.Prelude.{ℕ, List};
    ghost use Rattle.circuit_types.specs.Letters.{bytes_of};

    ghost Value = { List ℕ };

    ghost view = { λ n. bytes_of n.letters };
}

impl<'a> Name<'a> {
    /// The name that these bytes of a text are. It takes no memory.
    pub fn in_text(text: &'a [u8]) -> Name<'a>
        ensures { result ≡ text.now }
    {
        Name {
            letters: Letters::Text(text),
        }
    }

    /// The name of bytes of its own.
    pub fn made(bytes: Sequence<u8>) -> Name<'a>
        ensures { result ≡ bytes }
    {
        Name {
            letters: Letters::Made(bytes),
        }
    }

    /// Its bytes.
    pub fn as_slice(&self) -> &[u8]
        ensures { result.now ≡ self.now }
    {
        match &self.letters {
            Letters::Text(text) => text,
            Letters::Made(bytes) => bytes.as_slice(),
        }
    }
}

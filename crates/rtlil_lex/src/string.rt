//! The characters of a string, up to the quote that closes it.

ghost use Rattle.std.specs.Prelude.{◌==◌, IsTrue};
ghost use Rattle.rtlil_lex.specs.Bytes.{begins};
ghost use Rattle.rtlil_lex.specs.Next.{IsPiece, IsStringEnd};

use crate::bytes::{begins_octal, is_line_end};
use crate::spelling::Misfit;

/// What stands first in what is left of a string.
pub enum Piece {
    /// A character of this many bytes.
    Character(usize),
    /// The double quote that closes the string.
    Quote,
    /// An octal escape above 255.
    BadEscape,
    /// The end of the line, or a backslash before it.
    Cut,
}

/// What stands first in what is left of a string.
pub fn first_piece(text: &[u8]) -> Piece
    ensures { IsPiece text.now result }
{
    if is_line_end(text) {
        return Piece::Cut;
    }
    match text[0] {
        b'"' => Piece::Quote,
        b'\\' => escape(text),
        _ => Piece::Character(1),
    }
}

/// The escape that a backslash begins.
fn escape(text: &[u8]) -> Piece
    requires { IsTrue (begins (λ b. b == 92) text.now) }
    ensures { IsPiece text.now result }
{
    let after = &text[1..];
    if is_line_end(after) {
        return Piece::Cut;
    }
    if !begins_octal(after) || !begins_octal(&after[1..]) {
        return Piece::Character(2);
    }
    if !begins_octal(&after[2..]) {
        return Piece::Character(3);
    }
    if after[0] > b'3' {
        return Piece::BadEscape;
    }
    Piece::Character(4)
}

/// How many bytes the string at a double quote takes.
pub fn string_size(bytes: &[u8]) -> Result<usize, Misfit>
    requires { IsTrue (begins (λ b. b == 34) bytes.now) }
    ensures { IsStringEnd bytes.now result }
{
    let mut place = 1;
    loop {
        match first_piece(&bytes[place..]) {
            Piece::Character(size) => place += size,
            Piece::Quote => return Ok(place + 1),
            Piece::BadEscape => return Err(Misfit::BadByte(place)),
            Piece::Cut => return Err(Misfit::OpenString),
        }
    }
}

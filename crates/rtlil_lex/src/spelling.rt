//! The longest spelling at a place: a function for each form.

ghost use Rattle.std.specs.Prelude.{◌≡◌, ◌==◌, ◌<◌, ◌≤◌, length, IsTrue};
ghost use Rattle.rtlil_lex.specs.Bytes.{begins, is_letter, is_sigil, is_digit, is_feed, is_mark};
ghost use Rattle.rtlil_lex.specs.Next.{IsNext, value_len};

use crate::bytes::{begins_with, is_digit, is_letter, is_mark, is_sigil};
use crate::forms::{bits, digits, letters, name};
use crate::string::string_size;
use crate::token::TokenKind;

/// The form of a spelling, and how many bytes it takes.
#[derive(Clone, Copy)]
pub struct Spelling {
    pub kind: TokenKind,
    pub size: usize,
}

/// Why there is no spelling.
#[derive(Clone, Copy)]
pub enum Misfit {
    /// The byte so many bytes on fits no form.
    BadByte(usize),
    /// The string that begins here is not closed on its line.
    OpenString,
}

/// The longest spelling that the bytes begin with.
pub fn longest(bytes: &[u8]) -> Result<Spelling, Misfit>
    requires { 0 < length bytes.now }
    ensures { IsNext bytes.now result }
{
    let first = bytes[0];
    if is_letter(first) {
        word(bytes)
    } else if is_sigil(first) {
        id(bytes)
    } else if is_digit(first) {
        number(bytes)
    } else if first == b'-' {
        negative(bytes)
    } else if first == b'"' {
        string(bytes)
    } else if first == b'\n' {
        end_of_line(bytes)
    } else if is_mark(first) {
        mark(bytes)
    } else {
        Err(Misfit::BadByte(0))
    }
}

fn word(bytes: &[u8]) -> Result<Spelling, Misfit>
    requires { IsTrue (begins is_letter bytes.now) }
    ensures { IsNext bytes.now result }
{
    Ok(Spelling {
        kind: TokenKind::Word,
        size: letters(bytes),
    })
}

fn id(bytes: &[u8]) -> Result<Spelling, Misfit>
    requires { IsTrue (begins is_sigil bytes.now) }
    ensures { IsNext bytes.now result }
{
    match name(&bytes[1..]) {
        0 => Err(Misfit::BadByte(0)),
        size => Ok(Spelling {
            kind: TokenKind::Id,
            size: 1 + size,
        }),
    }
}

/// Bits where a `'` follows the digits, and else an integer.
fn number(bytes: &[u8]) -> Result<Spelling, Misfit>
    requires { IsTrue (begins is_digit bytes.now) }
    ensures { IsNext bytes.now result }
{
    let width = digits(bytes);
    let after = &bytes[width..];
    if begins_with(after, b'\'') {
        Ok(Spelling {
            kind: TokenKind::Bits,
            size: width + 1 + value(&after[1..]),
        })
    } else {
        Ok(Spelling {
            kind: TokenKind::Int,
            size: width,
        })
    }
}

/// How many bytes of written bits, with or without an `s` before them, the bytes begin with.
fn value(bytes: &[u8]) -> usize
    ensures value { result ≡ value_len bytes.now }
    ensures within { result ≤ length bytes.now }
{
    if begins_with(bytes, b's') {
        1 + bits(&bytes[1..])
    } else {
        bits(bytes)
    }
}

fn negative(bytes: &[u8]) -> Result<Spelling, Misfit>
    requires { IsTrue (begins (λ b. b == 45) bytes.now) }
    ensures { IsNext bytes.now result }
{
    match digits(&bytes[1..]) {
        0 => Err(Misfit::BadByte(0)),
        size => Ok(Spelling {
            kind: TokenKind::Int,
            size: 1 + size,
        }),
    }
}

fn string(bytes: &[u8]) -> Result<Spelling, Misfit>
    requires { IsTrue (begins (λ b. b == 34) bytes.now) }
    ensures { IsNext bytes.now result }
{
    let size = string_size(bytes)?;
    Ok(Spelling {
        kind: TokenKind::Str,
        size,
    })
}

fn end_of_line(bytes: &[u8]) -> Result<Spelling, Misfit>
    requires { IsTrue (begins is_feed bytes.now) }
    ensures { IsNext bytes.now result }
{
    Ok(Spelling {
        kind: TokenKind::Eol,
        size: 1,
    })
}

fn mark(bytes: &[u8]) -> Result<Spelling, Misfit>
    requires { IsTrue (begins is_mark bytes.now) }
    ensures { IsNext bytes.now result }
{
    Ok(Spelling {
        kind: TokenKind::Mark(bytes[0]),
        size: 1,
    })
}

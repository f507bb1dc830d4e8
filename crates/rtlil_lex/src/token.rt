//! A token, and what kinds there are.

/// What a token is.
#[derive(Clone, Copy, Debug, PartialEq, Eq)]
pub enum TokenKind {
    /// Letters from `a` to `z`.
    Word,
    /// A backslash or `$`, and a name.
    Id,
    /// Decimal digits, with or without a `-`.
    Int,
    /// A width, a `'`, and written bits.
    Bits,
    /// A text between double quotes.
    Str,
    /// One of the bytes `[ ] { } : ,`.
    Mark(u8),
    /// A line feed, or the end of the input.
    Eol,
}

/// A token, and where it stands.
#[derive(Clone, Copy, Debug, PartialEq, Eq)]
pub struct Token {
    pub kind: TokenKind,
    /// The place of its first byte, counted from 0.
    pub start: u32,
    /// The place behind its last byte; at the end of the input it is `start`.
    pub end: u32,
    /// The number of its line, counted from 1.
    pub line: u32,
}

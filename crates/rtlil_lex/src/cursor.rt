//! The input, and how far it is read: over a gap, over a token, and at the end.

ghost use Rattle.std.specs.Prelude.{◌≡◌, ◌+◌, ◌≤◌, ◌<◌, ◌^◌, ◌↔◌, length, drop, slice_range, IsTrue};
ghost use Rattle.rtlil_lex.specs.Tokens.{IsGap, line_at};
ghost use Rattle.rtlil_lex.specs.Next.{IsStep, feeds_of, offset_of, fault_of};
ghost use Rattle.rtlil_lex.specs.declared.token.TokenKind.TheVariants.{Eol};
ghost use Rattle.rtlil_lex.specs.declared.cursor.TheConstants.{MOST_BYTES};

use crate::fault::LexFault;
use crate::forms::gap;
use crate::spelling::{Misfit, longest};
use crate::token::{Token, TokenKind};

/// The most bytes that a text may have.
pub const MOST_BYTES: usize = 67_108_864;

/// The input, and how far it is read.
#[derive(Drop)]
pub struct Cursor<'a> {
    pub bytes: &'a [u8],
    /// The place of the next byte.
    pub place: usize,
    /// The number of the line that the place is on.
    pub line: u32,
    ghost within: { place ≤ length bytes.now },
    ghost short: { length bytes.now ≤ MOST_BYTES },
    ghost counted: { line ≡ line_at bytes.now place },
}

impl<'a> Cursor<'a> {
    pub fn new(bytes: &'a [u8]) -> Self
        requires { length bytes.now ≤ MOST_BYTES }
        ensures input { result.bytes.now ≡ bytes.now }
        ensures start { result.place ≡ 0 }
    {
        Cursor {
            bytes,
            place: 0,
            line: 1,
        }
    }

    pub fn is_at_end(&self) -> bool
        ensures { IsTrue result ↔ (self.now.place ≡ length self.now.bytes.now) }
    {
        self.place == self.bytes.len()
    }

    /// Goes to the end of a gap.
    pub fn skip_gap(&mut self)
        ensures input { self.new.bytes.now ≡ self.old.bytes.now }
        ensures order { self.old.place ≤ self.new.place }
        ensures gap { IsGap (slice_range self.old.bytes.now self.old.place self.new.place)
            (drop self.new.place self.old.bytes.now) }
    {
        self.place += gap(&self.bytes[self.place..]);
    }

    /// Goes over the token that begins here.
    pub fn take_token(&mut self) -> Result<Token, LexFault>
        requires { self.old.place < length self.old.bytes.now }
        ensures input { self.new.bytes.now ≡ self.old.bytes.now }
        ensures step { IsStep self.old.bytes.now self.old.place self.new.place result }
    {
        let spelling = match longest(&self.bytes[self.place..]) {
            Ok(spelling) => spelling,
            Err(misfit) => return Err(fault_at(misfit, self.place)),
        };
        let end = self.place + spelling.size;
        let token = Token {
            kind: spelling.kind,
            start: self.place as u32,
            end: end as u32,
            line: self.line,
        };
        self.place = end;
        self.line += lines_ended(spelling.kind);
        Ok(token)
    }

    /// The end of line that the end of the input gives.
    pub fn end(&self) -> Token
        ensures { result ≡ record { kind = Eol; start = self.now.place; end = self.now.place; line = self.now.line } }
    {
        let place = self.place as u32;
        Token {
            kind: TokenKind::Eol,
            start: place,
            end: place,
            line: self.line,
        }
    }
}

/// How many lines a token ends.
fn lines_ended(kind: TokenKind) -> u32
    ensures { result ≡ feeds_of kind }
{
    match kind {
        TokenKind::Eol => 1,
        _ => 0,
    }
}

/// The fault of a misfit that begins at a place.
fn fault_at(misfit: Misfit, place: usize) -> LexFault
    requires { place + offset_of misfit < 2 ^ 32 }
    ensures { result ≡ fault_of misfit place }
{
    match misfit {
        Misfit::BadByte(offset) => LexFault::BadByte((place + offset) as u32),
        Misfit::OpenString => LexFault::OpenString(place as u32),
    }
}

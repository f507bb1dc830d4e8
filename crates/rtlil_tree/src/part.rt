//! A part of a text, which is a run of its lines: their tokens, gone through line by line.

ghost use Rattle.std.specs.Prelude.{◌≡◌, ◌+◌, ◌≤◌, ◌<◌, ◌^◌, ◌⊎◌, length};
ghost use Rattle.std.specs.List.{All, prefix_len};
ghost use Rattle.std.proofs.Props.{props};
ghost use Rattle.rtlil_lex.specs.Bytes.{is_inline};
ghost use Rattle.rtlil_lex.specs.declared.cursor.TheConstants.{MOST_BYTES};
ghost use Rattle.rtlil_tree.specs.Inner.Parts.{BeginsLine};

use crate::line::{Line, line_size};
use rtlil_lex::{LexFault, Token, lex};
use std::alloc::Global;

/// A part has so many bytes and the rest of a line, or is what is left of the text.
const LEAST_BYTES: usize = 16_384;

/// The lines of a part, and how far they are read.
#[derive(Drop)]
pub struct Part<'a> {
    pub bytes: &'a [u8],
    pub tokens: Vec<Token>,
    /// How many lines of the text stand before it.
    pub before: u32,
    /// The number of the line that was read last.
    pub number: u32,
    /// Where the tokens of that line begin.
    pub start: usize,
    /// Where they end.
    pub end: usize,
    /// Where the tokens of the next line begin.
    pub next: usize,
    ghost order: { start ≤ end },
    ghost within: { end ≤ length tokens.items },
    ghost numbered: { All (λ t. before + t.line < 2 ^ 32) tokens.items } by { Prim.hlevel props },
}

/// How many bytes stand before the next line feed.
fn inline_size(bytes: &[u8]) -> usize
    ensures size { result ≡ prefix_len is_inline bytes.now }
    ensures within { result ≤ length bytes.now }
{
    bytes.iter().take_while(|b| **b != b'\n').count()
}

/// How many bytes the next part has.
pub fn part_size(bytes: &[u8]) -> usize
    ensures order { result ≤ length bytes.now }
    ensures some { 0 < length bytes.now → 0 < result }
    ensures ends { BeginsLine bytes.now result ⊎ (result ≡ length bytes.now) }
{
    if bytes.len() <= LEAST_BYTES {
        return bytes.len();
    }
    let size = LEAST_BYTES + inline_size(&bytes[LEAST_BYTES..]);
    if size < bytes.len() {
        size + 1
    } else {
        bytes.len()
    }
}

impl<'a> Part<'a> {
    ghost use Rattle.std.specs.Prelude.{[], ◌∷◌, IfOk, IfErr, IsTrue};
    ghost use Rattle.rtlil_lex.specs.Tokens.{HasFault};
    ghost use Rattle.rtlil_tree.specs.Inner.Cursor.{line_view, last_line, current_of, left_in, tokens_left};
    ghost use Rattle.rtlil_tree.specs.Inner.Cursor.{IsPartOf, IsTakenIn};

    /// No lines.
    pub fn none(alloc: Global) -> Part<'a>
        ensures { left_in result ≡ [] }
    {
        Part {
            bytes: &[],
            tokens: Vec::new(alloc),
            before: 0,
            number: 0,
            start: 0,
            end: 0,
            next: 0,
        }
    }

    /// The part of these bytes, before which so many lines stand.
    pub fn read(alloc: Global, bytes: &'a [u8], before: u32) -> Result<Part<'a>, LexFault>
        requires bytes { length bytes.now ≤ MOST_BYTES }
        requires before { before ≤ MOST_BYTES }
        ensures part { IfOk result (IsPartOf bytes.now before) }
        ensures fault { IfErr result (HasFault bytes.now) }
    {
        let tokens = lex(alloc, bytes)?;
        Ok(Part {
            bytes,
            tokens,
            before,
            number: 0,
            start: 0,
            end: 0,
            next: 0,
        })
    }

    /// The number of the line on which the part ends.
    pub fn end_line(&self) -> u32
        ensures { result ≡ self.now.before + last_line self.now.tokens.items }
    {
        match self.tokens.last() {
            Some(last) => self.before + last.line,
            None => self.before,
        }
    }

    /// Goes to the next line, which may have no token.
    fn step(&mut self)
        requires { self.old.next < length self.old.tokens.items }
        ensures less { tokens_left self.new < tokens_left self.old }
        ensures some { self.new.start < self.new.end → left_in self.old ≡ current_of self.new ∷ left_in self.new }
        ensures none { self.new.end ≤ self.new.start → left_in self.old ≡ left_in self.new }
    {
        let size = line_size(&self.tokens[self.next..]);
        self.number = self.before + self.tokens[self.next].line;
        self.start = self.next;
        self.end = self.start + size;
        self.next = (self.end + 1).min(self.tokens.len());
    }

    /// Goes to the next line that has a token; answers whether there is one.
    pub fn advance(&mut self) -> bool
        ensures line { IsTakenIn self.old self.new result }
        ensures order { tokens_left self.new ≤ tokens_left self.old }
        ensures less { IsTrue result → tokens_left self.new < tokens_left self.old }
    {
        while self.next < self.tokens.len() {
            self.step();
            if self.start < self.end {
                return true;
            }
        }
        false
    }

    /// The line that was read last.
    pub fn line(&self) -> Line<'_, 'a>
        ensures { line_view result ≡ current_of self.now }
    {
        Line {
            bytes: self.bytes,
            tokens: &self.tokens[self.start..self.end],
            number: self.number,
        }
    }
}

//! A statement of a text, as its tokens up to an end of line.

ghost use Rattle.std.specs.Prelude.{◌≡◌, ◌≤◌, length, map};
ghost use Rattle.std.specs.List.{prefix_len};
ghost use Rattle.rtlil_tree.specs.Lines.{is_eol};
ghost use Rattle.rtlil_tree.specs.Inner.Cursor.{is_inner, line_view};
ghost use Rattle.rtlil_tree.specs.Said.{Gives, plain, lexemes_of};
ghost use Rattle.rtlil_tree.specs.Machine.{is_foreign, is_foreign_token};

use crate::keyword::{Keyword, keyword_of};
use crate::misfit::Misfit;
use crate::word::{Word, piece, word_of};
use rtlil_lex::{Token, TokenKind};

/// The tokens of a statement, and the number of its line.
#[derive(Clone, Copy)]
pub struct Line<'t, 'a> {
    pub bytes: &'a [u8],
    pub tokens: &'t [Token],
    pub number: u32,
}

fn is_end(kind: TokenKind) -> bool
    ensures { result ≡ is_eol kind }
{
    match kind {
        TokenKind::Eol => true,
        _ => false,
    }
}

/// How many tokens stand before the next end of line.
pub fn line_size(tokens: &[Token]) -> usize
    ensures size { result ≡ prefix_len is_inner tokens.now }
    ensures within { result ≤ length tokens.now }
{
    tokens
        .iter()
        .take_while(|token| !is_end(token.kind))
        .count()
}

impl<'t, 'a> Line<'t, 'a> {
    /// Whether the first word is `memory` or `process`.
    pub fn is_foreign(&self) -> bool
        ensures { result ≡ is_foreign (line_view self.now).tokens }
    {
        match self.tokens {
            [first, ..] => is_foreign(first.kind, piece(self.bytes, first.start, first.end)),
            [] => false,
        }
    }

    /// Replaces the words by what each token says.
    pub fn words(&self, words: &mut Vec<Word<'a>>) -> Result<(), Misfit>
        ensures { Gives (λ _. map plain words.new.items) result (lexemes_of (line_view self.now).tokens) }
    {
        words.clear();
        for token in self.tokens {
            let Some(word) = word_of(self.bytes, token) else {
                return Err(Misfit::NoForm);
            };
            words.push(word)?;
        }
        Ok(())
    }
}

fn is_foreign(kind: TokenKind, text: &[u8]) -> bool
    ensures { result ≡ is_foreign_token kind text.now }
{
    match kind {
        TokenKind::Word => match keyword_of(text) {
            Some(Keyword::Memory) => true,
            Some(Keyword::Process) => true,
            _ => false,
        },
        _ => false,
    }
}

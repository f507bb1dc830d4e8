//! What a token says.

ghost use Rattle.std.specs.Prelude.{◌≡◌, slice_range, option_map};
ghost use Rattle.std.specs.List.{prefix_len};
ghost use Rattle.rtlil_tree.specs.Said.{is_no_quote, at_quote, without_sign, bits_of, string_of, mark_of, said, plain};

use crate::keyword::{Keyword, keyword_of};
use crate::number::{integer, natural};
use rtlil_lex::{Token, TokenKind};

/// The most bits that a constant may have.
pub const MOST_BITS: u32 = 1_048_576;

/// What a token says in a statement. The texts are those of the input.
#[derive(Clone, Copy)]
pub enum Word<'a> {
    Key(Keyword),
    Id(&'a [u8]),
    Int(i32),
    /// The width of a constant, and its written bits.
    Bits(u32, &'a [u8]),
    /// A string, without its quotes; escapes are not read.
    Str(&'a [u8]),
    OpenSlice,
    CloseSlice,
    OpenJoin,
    CloseJoin,
    Colon,
}

/// The bytes from one place up to another.
pub fn piece(bytes: &[u8], start: u32, end: u32) -> &[u8]
    ensures { result.now ≡ slice_range bytes.now start end }
{
    let start = (start as usize).min(bytes.len());
    let end = (end as usize).min(bytes.len()).max(start);
    &bytes[start..end]
}

/// The written bits, without the `s` that may stand before them.
fn without_sign(value: &[u8]) -> &[u8]
    ensures { result.now ≡ without_sign value.now }
{
    if !value.is_empty() && value[0] == b's' {
        &value[1..]
    } else {
        value
    }
}

/// How many bytes stand before the first `'`.
fn before_quote(text: &[u8]) -> usize
    ensures { result ≡ prefix_len is_no_quote text.now }
{
    text.iter().take_while(|b| **b != b'\'').count()
}

/// What stands before and after the first `'`.
#[tactic(auto, unfolding(crate::specs::Said::at_quote))]
fn at_quote(text: &[u8]) -> Option<(&[u8], &[u8])>
    ensures { option_map (λ x. (x.0.now, x.1.now)) result ≡ at_quote text.now }
{
    let size = before_quote(text);
    if size < text.len() {
        Some((&text[..size], &text[size + 1..]))
    } else {
        None
    }
}

#[tactic(auto, unfolding(crate::specs::Said::bits_of))]
fn bits(text: &[u8]) -> Option<Word<'_>>
    ensures { option_map plain result ≡ bits_of text.now }
{
    let (digits, value) = at_quote(text)?;
    let width = natural(digits, MOST_BITS)?;
    let written = without_sign(value);
    if written.len() <= width as usize {
        Some(Word::Bits(width, written))
    } else {
        None
    }
}

#[tactic(auto, unfolding(crate::specs::Said::string_of))]
fn inside(text: &[u8]) -> Option<Word<'_>>
    ensures { option_map plain result ≡ string_of text.now }
{
    if text.len() >= 2 {
        Some(Word::Str(&text[1..text.len() - 1]))
    } else {
        None
    }
}

fn mark<'a>(b: u8) -> Option<Word<'a>>
    ensures { option_map plain result ≡ mark_of b }
{
    match b {
        b'[' => Some(Word::OpenSlice),
        b']' => Some(Word::CloseSlice),
        b'{' => Some(Word::OpenJoin),
        b'}' => Some(Word::CloseJoin),
        b':' => Some(Word::Colon),
        _ => None,
    }
}

/// What a token of this kind and text says, if it says something that a statement may have.
#[tactic(auto, unfolding(crate::specs::Said::said))]
fn said(kind: TokenKind, text: &[u8]) -> Option<Word<'_>>
    ensures { option_map plain result ≡ said kind text.now }
{
    match kind {
        TokenKind::Word => match keyword_of(text) {
            Some(keyword) => Some(Word::Key(keyword)),
            None => None,
        },
        TokenKind::Id => Some(Word::Id(text)),
        TokenKind::Int => match integer(text) {
            Some(number) => Some(Word::Int(number)),
            None => None,
        },
        TokenKind::Bits => bits(text),
        TokenKind::Str => inside(text),
        TokenKind::Mark(b) => mark(b),
        TokenKind::Eol => None,
    }
}

/// What the token says.
pub fn word_of<'a>(bytes: &'a [u8], token: &Token) -> Option<Word<'a>>
    ensures { option_map plain result ≡ said token.now.kind (slice_range bytes.now token.now.start token.now.end) }
{
    said(token.kind, piece(bytes, token.start, token.end))
}

//! Notes, and how they are read.
ghost use Rattle.std.specs.Prelude.{◌≡◌, ◌+◌, ◌≤◌, IfOk, IfSome};
ghost use Rattle.std.specs.Option.{option_copied, option_map};
ghost use Rattle.std.specs.List.{list_all};
ghost use Rattle.share_notes.specs.Text.{most_index};
ghost use Rattle.share_notes.specs.Reading.{after, cut_at, is_word_byte, is_secret_name, name_of, digit_of, index_of, share_of, shares_of, plain_note, note_named};

use sequences::{NoMemory, Sequence};
use std::alloc::Global;

/// What is said of the bits of a wire.
#[derive(Debug, Drop)]
pub enum Note {
    /// Bit k of the wire is this share of bit k of the secret.
    Share { name: Sequence<u8>, index: u32 },
    /// Bit k of the wire is share k of bit 0 of the secret.
    Shares { name: Sequence<u8> },
    /// Uniform, independent bits.
    Random,
    /// Known bits.
    Public,
    /// The clock.
    Clock,
    /// Constant bits.
    Held(bool),
}

/// What follows the front, where the text begins with it.
fn after<'a>(text: &'a [u8], front: &[u8]) -> Option<&'a [u8]>
    ensures { option_copied result ≡ after front.now text.now }
{
    text.strip_prefix(front)
}

/// What stands before and after the first such byte.
fn cut_at(byte: u8, text: &[u8]) -> Option<(&[u8], &[u8])>
    ensures { option_map (λ x. (x.0.now, x.1.now)) result ≡ cut_at byte text.now }
{
    for (place, found) in text.iter().enumerate() {
        if *found == byte {
            return Some((&text[..place], &text[place + 1..]));
        }
    }
    None
}

fn is_word(text: &[u8]) -> bool
    ensures { result ≡ list_all is_word_byte text.now }
{
    text.iter().all(|b| b.is_ascii_alphanumeric() || *b == b'_')
}

/// One to 64 letters, digits and underscores.
fn is_secret_name(text: &[u8]) -> bool
    ensures { result ≡ is_secret_name text.now }
{
    !text.is_empty() && text.len() <= 64 && is_word(text)
}

/// The secret's name that the text is.
#[tactic(auto, unfolding(crate::specs::Reading::name_of))]
fn name(text: &[u8]) -> Option<&[u8]>
    ensures { option_copied result ≡ name_of text.now }
{
    if is_secret_name(text) {
        Some(text)
    } else {
        None
    }
}

/// The value of a digit up to a greatest one.
fn digit(most: u8, digit: u8) -> Option<u32>
    requires { most ≤ 57 }
    ensures value { result ≡ digit_of most digit }
    ensures small { IfSome result (λ n. n ≤ 9) }
{
    if digit >= b'0' && digit <= most {
        Some(u32::from(digit - b'0'))
    } else {
        None
    }
}

/// The share index that the text is: 0 to 15.
#[tactic(auto, unfolding(crate::specs::Reading::index_of))]
fn index(text: &[u8]) -> Option<u32>
    ensures { result ≡ index_of text.now }
{
    match text {
        [units] => digit(b'9', *units),
        [tens, units] => { if *tens == b'1' { teen(*units) } else { None } }
        _ => None,
    }
}

/// Ten and the digit's value.
fn teen(units: u8) -> Option<u32>
    ensures { result ≡ option_map (λ n. 10 + n) (digit_of 53 units) }
{
    match digit(b'5', units) {
        Some(units) => Some(10 + units),
        None => None,
    }
}

/// The secret's name and the index of the note `share` that the text is.
#[tactic(auto, unfolding(crate::specs::Reading::share_of))]
fn share(text: &[u8]) -> Option<(&[u8], u32)>
    ensures { option_map (λ x. (x.0.now, x.1)) result ≡ share_of text.now }
{
    let rest = after(text, b"share ")?;
    let (front, back) = cut_at(b' ', rest)?;
    let name = name(front)?;
    let index = index(back)?;
    Some((name, index))
}

/// The secret's name of the note `shares` that the text is.
#[tactic(auto, unfolding(crate::specs::Reading::shares_of))]
fn shares(text: &[u8]) -> Option<&[u8]>
    ensures { option_copied result ≡ shares_of text.now }
{
    let rest = after(text, b"shares ")?;
    name(rest)
}

/// The note without a secret's name that the text is.
#[tactic(auto, unfolding(crate::specs::Reading::plain_note))]
fn plain(text: &[u8]) -> Option<Note>
    ensures { result ≡ plain_note text.now }
{
    if text == b"random".as_slice() {
        return Some(Note::Random);
    }
    if text == b"public".as_slice() {
        return Some(Note::Public);
    }
    if text == b"clock".as_slice() {
        return Some(Note::Clock);
    }
    if text == b"held 0".as_slice() {
        return Some(Note::Held(false));
    }
    if text == b"held 1".as_slice() {
        return Some(Note::Held(true));
    }
    None
}

/// The note that the text is.
#[tactic(auto, unfolding(crate::specs::Reading::note_named))]
pub fn note_named(alloc: Global, text: &[u8]) -> Result<Option<Note>, NoMemory>
    ensures { IfOk result (λ note. note ≡ note_named text.now) }
{
    if let Some(note) = plain(text) {
        return Ok(Some(note));
    }
    if let Some((name, index)) = share(text) {
        let name = Sequence::from_vec(Vec::from_slice(alloc, name)?);
        return Ok(Some(Note::Share { name, index }));
    }
    if let Some(name) = shares(text) {
        let name = Sequence::from_vec(Vec::from_slice(alloc, name)?);
        return Ok(Some(Note::Shares { name }));
    }
    Ok(None)
}

//! Numbers in decimal.

ghost use Rattle.std.specs.Prelude.{◌≡◌, ◌↔◌, ◌<◌, ◌≤◌, ◌^◌, ◌++◌, [], length, slice_index, IsTrue, MatchOption, SomeIff, OnOk, decimal};
ghost use Rattle.std.specs.List.{prefix_len};
ghost use Rattle.std.specs.Str.Parse.{IsNumeral, digits_value};
ghost use Rattle.rtlil_lex.specs.Bytes.{is_digit};
ghost use Rattle.certificate.specs.Parts.{HasNot, NoNumberAfter, NumberAfter};

use itoa::Buffer;
use sequences::NoMemory;
use std::str;

/// What is left after a word, where the bytes begin with it.
pub fn after<'a>(bytes: &'a [u8], word: &[u8]) -> Option<&'a [u8]>
    ensures { MatchOption result (HasNot word.now bytes.now) (λ rest. bytes.now ≡ word.now ++ rest.now) }
{
    bytes.strip_prefix(word)
}

/// How many digits the bytes begin with.
#[tactic(auto, using(rtlil_lex::proofs::Runs::run_within))]
fn digits(bytes: &[u8]) -> usize
    ensures run { result ≡ prefix_len is_digit bytes.now }
    ensures within { result ≤ length bytes.now }
{
    bytes
        .iter()
        .take_while(|byte| b'0' <= **byte && **byte <= b'9')
        .count()
}

/// Whether there is a digit, and no 0 before others.
fn is_plain(digits: &[u8]) -> bool
    ensures { IsTrue result ↔ ((0 < length digits.now) × (slice_index digits.now 0 ≡ 48 → length digits.now ≡ 1)) }
{
    match digits {
        [] => false,
        [_] => true,
        [first, ..] => *first != b'0',
    }
}

/// What digits stand for, where that is below 2^64.
fn value_of(digits: &[u8]) -> Option<u64>
    requires { IsNumeral 10 digits.now }
    ensures { SomeIff result (digits_value 10 digits.now < 2 ^ 64) (digits_value 10 digits.now) }
{
    match str::from_utf8(digits) {
        Ok(text) => text.parse::<u64>().ok(),
        Err(_) => None,
    }
}

/// The number that the bytes begin with, and what follows its digits.
fn number(bytes: &[u8]) -> Option<(u64, &[u8])>
    ensures { MatchOption result (NoNumberAfter (2 ^ 64) [] bytes.now)
        (λ found. NumberAfter (2 ^ 64) [] bytes.now found.0 found.1.now) }
{
    let (front, rest) = bytes.split_at(digits(bytes));
    if !is_plain(front) {
        return None;
    }
    let number = value_of(front)?;
    Some((number, rest))
}

/// The number that comes after a word, and what follows its digits.
pub fn number_after<'a>(bytes: &'a [u8], word: &[u8]) -> Option<(u64, &'a [u8])>
    ensures { MatchOption result (NoNumberAfter (2 ^ 64) word.now bytes.now)
        (λ found. NumberAfter (2 ^ 64) word.now bytes.now found.0 found.1.now) }
{
    number(after(bytes, word)?)
}

/// The number of at most 32 bits that comes after a word, and what follows its digits.
pub fn small_after<'a>(bytes: &'a [u8], word: &[u8]) -> Option<(u32, &'a [u8])>
    ensures { MatchOption result (NoNumberAfter (2 ^ 32) word.now bytes.now)
        (λ found. NumberAfter (2 ^ 32) word.now bytes.now found.0 found.1.now) }
{
    let (number, rest) = number_after(bytes, word)?;
    if number > u64::from(u32::MAX) {
        return None;
    }
    Some((number as u32, rest))
}

/// Puts a number behind the text.
pub fn push_number(text: &mut Vec<u8>, number: u32) -> Result<(), NoMemory>
    ensures { OnOk result (text.new.items ≡ text.old.items ++ decimal number) }
{
    let mut buffer = Buffer::new();
    text.extend_from_slice(buffer.format(number).as_bytes())
}

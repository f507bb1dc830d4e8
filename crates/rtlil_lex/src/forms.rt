//! Runs of bytes of one class, and gaps.

ghost use Rattle.std.specs.Prelude.{◌≡◌, ◌≤◌, length, take, drop};
ghost use Rattle.std.specs.List.{prefix_len};
ghost use Rattle.rtlil_lex.specs.Bytes.{is_letter, is_digit, is_name_byte, is_bit, is_blank, is_inline};
ghost use Rattle.rtlil_lex.specs.Tokens.{IsGap};

use crate::bytes;

/// How many letters the bytes begin with.
#[tactic(auto, using(crate::proofs::Runs::run_within))]
pub fn letters(bytes: &[u8]) -> usize
    ensures run { result ≡ prefix_len is_letter bytes.now }
    ensures within { result ≤ length bytes.now }
{
    bytes.iter().take_while(|b| bytes::is_letter(**b)).count()
}

/// How many digits the bytes begin with.
#[tactic(auto, using(crate::proofs::Runs::run_within))]
pub fn digits(bytes: &[u8]) -> usize
    ensures run { result ≡ prefix_len is_digit bytes.now }
    ensures within { result ≤ length bytes.now }
{
    bytes.iter().take_while(|b| bytes::is_digit(**b)).count()
}

/// How many bytes of a name the bytes begin with.
#[tactic(auto, using(crate::proofs::Runs::run_within))]
pub fn name(bytes: &[u8]) -> usize
    ensures run { result ≡ prefix_len is_name_byte bytes.now }
    ensures within { result ≤ length bytes.now }
{
    bytes
        .iter()
        .take_while(|b| bytes::is_name_byte(**b))
        .count()
}

/// How many written bits the bytes begin with.
#[tactic(auto, using(crate::proofs::Runs::run_within))]
pub fn bits(bytes: &[u8]) -> usize
    ensures run { result ≡ prefix_len is_bit bytes.now }
    ensures within { result ≤ length bytes.now }
{
    bytes.iter().take_while(|b| bytes::is_bit(**b)).count()
}

/// How many bytes of white space the bytes begin with.
#[tactic(auto, using(crate::proofs::Runs::run_within))]
pub fn blanks(bytes: &[u8]) -> usize
    ensures run { result ≡ prefix_len is_blank bytes.now }
    ensures within { result ≤ length bytes.now }
{
    bytes.iter().take_while(|b| bytes::is_blank(**b)).count()
}

/// How many bytes are left on the line.
#[tactic(auto, using(crate::proofs::Runs::run_within))]
pub fn line(bytes: &[u8]) -> usize
    ensures run { result ≡ prefix_len is_inline bytes.now }
    ensures within { result ≤ length bytes.now }
{
    bytes.iter().take_while(|b| **b != b'\n').count()
}

/// How many bytes of a gap the bytes begin with.
pub fn gap(bytes: &[u8]) -> usize
    ensures within { result ≤ length bytes.now }
    ensures gap { IsGap (take result bytes.now) (drop result bytes.now) }
{
    let blanks = blanks(bytes);
    let after = &bytes[blanks..];
    if bytes::begins_with(after, b'#') {
        blanks + line(after)
    } else {
        blanks
    }
}

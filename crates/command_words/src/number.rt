//! Numbers in words.

ghost use Rattle.std.specs.Prelude.{◌≡◌, ◌≤◌, ℕ, IfSome, IfNone, SomeIff};
ghost use Rattle.std.specs.List.{list_all};
ghost use Rattle.command_words.specs.Numbers.{IsNumber, decimal, is_digit, is_number};

fn are_digits(text: &[u8]) -> bool
    ensures { result ≡ list_all is_digit text.now }
{
    text.iter().all(|byte| b'0' <= *byte && *byte <= b'9')
}

/// Whether a text is one to twenty digits.
fn is_number(text: &[u8]) -> bool
    ensures { result ≡ is_number text.now }
{
    !text.is_empty() && text.len() <= 20 && are_digits(text)
}

/// What digits stand for, if that is at most `most`.
fn value_within(digits: &[u8], most: u64) -> Option<u64>
    ensures { SomeIff result (decimal digits.now ≤ most) (decimal digits.now) }
{
    let mut value: u128 = 0;
    for digit in digits {
        value = 10 * value + u128::from(digit.saturating_sub(b'0'));
        if value > u128::from(most) {
            return None;
        }
    }
    Some(value as u64)
}

/// The number that a word is, if it is of one to twenty digits and from `least` to `most`.
pub fn number(word: &str, least: u64, most: u64) -> Option<u64>
    ensures taken { IfSome result (IsNumber least most word.now) }
    ensures other { IfNone result ((n : ℕ) → IsNumber least most word.now n → ⊥) }
{
    if !is_number(word.as_bytes()) {
        return None;
    }
    let value = value_within(word.as_bytes(), most)?;
    if value < least {
        return None;
    }
    Some(value)
}

//! Numbers.

ghost use Rattle.std.specs.Prelude.{◌≡◌, ◌≤◌, ◌^◌, ◌-◌, pos, neg_ℤ, option_map, IfSome};
ghost use Rattle.rtlil_tree.specs.Said.{natural_of, is_negative, integer_of};

/// What the decimal digits stand for, if that is at most `most`.
#[tactic(auto, using(crate::proofs::Digits::decimal_take))]
pub fn natural(digits: &[u8], most: u32) -> Option<u32>
    ensures value { result ≡ natural_of digits.now most }
    ensures within { IfSome result (λ n. n ≤ most) }
{
    let mut value: u64 = 0;
    for digit in digits {
        value = 10 * value + u64::from(digit.saturating_sub(b'0'));
        if value > u64::from(most) {
            return None;
        }
    }
    Some(value as u32)
}

fn is_negative(text: &[u8]) -> bool
    ensures { result ≡ is_negative text.now }
{
    match text {
        [] => false,
        [first, ..] => *first == b'-',
    }
}

fn below_zero(digits: &[u8]) -> Option<i32>
    ensures { result ≡ option_map (λ n. neg_ℤ (pos n)) (natural_of digits.now (2 ^ 31)) }
{
    match natural(digits, 1 << 31) {
        Some(value) => Some((-i64::from(value)) as i32),
        None => None,
    }
}

fn from_zero(digits: &[u8]) -> Option<i32>
    ensures { result ≡ option_map (λ n. pos n) (natural_of digits.now (2 ^ 31 - 1)) }
{
    match natural(digits, (1 << 31) - 1) {
        Some(value) => Some(value as i32),
        None => None,
    }
}

/// The number that an integer stands for, if it is from -2^31 to 2^31 - 1.
#[tactic(auto, unfolding(crate::specs::Said::integer_of))]
pub fn integer(text: &[u8]) -> Option<i32>
    ensures { result ≡ integer_of text.now }
{
    if is_negative(text) {
        below_zero(&text[1..])
    } else {
        from_zero(text)
    }
}

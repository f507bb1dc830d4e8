//! The bits of words of 64 bits, counted from the lowest bit of the first word on.
ghost use Rattle.std.specs.Prelude.{◌≡◌, ◌≢◌, ◌*◌, ◌<◌, ◌^◌, ◌↔◌, ◌&&◌, ◌||◌, ℕ, IsTrue, MatchOption, not, false, true, length};
ghost use Rattle.bit_rows.specs.Sets.{members};
ghost use Rattle.bit_rows.specs.Words.{words_bit, bits, IsFirstBit, NoBitFrom};

/// Whether a bit is set.
pub fn get(words: &[u64], i: u32) -> bool
    requires { i < 64 * length words.now }
    ensures { result ≡ words_bit words.now i }
{
    words[i as usize / 64] >> (i % 64) & 1 == 1
}

/// Sets a bit.
pub fn set(words: &mut [u64], i: u32)
    requires { i < 64 * length words.old }
    ensures bit { words_bit words.new i ≡ true }
    ensures others { (k : ℕ) → k ≢ i → words_bit words.new k ≡ words_bit words.old k }
{
    words[i as usize / 64] |= 1 << (i % 64);
}

/// Clears a bit.
pub fn clear(words: &mut [u64], i: u32)
    requires { i < 64 * length words.old }
    ensures bit { words_bit words.new i ≡ false }
    ensures others { (k : ℕ) → k ≢ i → words_bit words.new k ≡ words_bit words.old k }
{
    words[i as usize / 64] &= !(1 << (i % 64));
}

/// Sets each bit that is set in the other words.
pub fn set_all(words: &mut [u64], other: &[u64])
    requires { length words.old ≡ length other.now }
    ensures { (i : ℕ) → words_bit words.new i ≡ (words_bit words.old i || words_bit other.now i) }
{
    for k in 0..words.len() {
        words[k] |= other[k];
    }
}

/// Clears each bit that is set in the other words.
pub fn clear_all(words: &mut [u64], other: &[u64])
    requires { length words.old ≡ length other.now }
    ensures { (i : ℕ) → words_bit words.new i ≡ (words_bit words.old i && not (words_bit other.now i)) }
{
    for k in 0..words.len() {
        words[k] &= !other[k];
    }
}

/// Clears each bit that is not set in the other words.
pub fn clear_others(words: &mut [u64], other: &[u64])
    requires { length words.old ≡ length other.now }
    ensures { (i : ℕ) → words_bit words.new i ≡ (words_bit words.old i && words_bit other.now i) }
{
    for k in 0..words.len() {
        words[k] &= other[k];
    }
}

/// Whether each bit that is set is set in the other words too.
pub fn are_within(words: &[u64], other: &[u64]) -> bool
    requires { length words.now ≡ length other.now }
    ensures { IsTrue result ↔ ((i : ℕ) → words_bit words.now i ≡ true → words_bit other.now i ≡ true) }
{
    let mut outside = 0;
    for k in 0..words.len() {
        outside |= words[k] & !other[k];
    }
    outside == 0
}

/// How many bits are set.
pub fn count(words: &[u64]) -> u64
    requires { length words.now < 2 ^ 32 }
    ensures { result ≡ length (members (bits words.now)) }
{
    let mut total = 0;
    for word in words {
        total += u64::from(word.count_ones());
    }
    total
}

/// The first bit from `start` on that is set. Words without one are skipped.
pub fn first_from(words: &[u64], start: usize) -> Option<usize>
    requires few { length words.now < 2 ^ 32 }
    requires start { start < 64 * length words.now }
    ensures { MatchOption result (NoBitFrom words.now start) (IsFirstBit words.now start) }
{
    let place = start / 64;
    let rest = words[place] >> (start % 64);
    if rest != 0 {
        return Some(start + rest.trailing_zeros() as usize);
    }
    for k in place + 1..words.len() {
        let word = words[k];
        if word != 0 {
            return Some(k * 64 + word.trailing_zeros() as usize);
        }
    }
    None
}

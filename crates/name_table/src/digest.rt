//! Which slot a name stands in.

ghost use Rattle.std.specs.Prelude.{◌≡◌, ◌<◌, ◌^◌};
ghost use Rattle.name_table.specs.Digests.{digest_of, slot_of};

use std::hash::{FoldHasher, Hasher};

/// A number that depends on all bytes of the name.
pub fn digest_of(name: &[u8]) -> u32
    ensures { result ≡ digest_of name.now }
{
    let mut hasher = FoldHasher::default();
    hasher.write(name);
    (hasher.finish() >> 32) as u32
}

/// The slot, of so many, of the names with that digest.
pub fn slot_of(digest: u32, slots: usize) -> usize
    requires some { 0 < slots }
    requires few { slots < 2 ^ 32 }
    ensures slot { result ≡ slot_of slots digest }
    ensures within { result < slots }
{
    (u64::from(digest) * slots as u64 >> 32) as usize
}

/// How many slots there are to be next.
pub fn more_slots(slots: usize) -> usize
    requires { slots < 2 ^ 22 }
    ensures some { 0 < result }
    ensures few { result < 2 ^ 32 }
{
    if slots == 0 { 16 } else { 4 * slots }
}

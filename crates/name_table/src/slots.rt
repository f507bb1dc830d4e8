//! Names in slots.

ghost use Rattle.std.specs.Prelude.{◌≡◌, ◌+◌, ◌<◌, ◌≤◌, ◌^◌, [], ◌∷◌, ◌++◌, length, reverse, IfOk, OnOk, IsTrue};
ghost use Rattle.std.specs.Str.{bytes_eq};
ghost use Rattle.name_table.specs.Names.{value_of};
ghost use Rattle.name_table.specs.Digests.{digest_of};
ghost use Rattle.name_table.specs.Chains.{pairs, AreShelved};

use crate::NoMemory;
use crate::digest::slot_of;
use std::alloc::Global;

/// The most names that stand in slots.
const MOST_NAMES: usize = 1 << 31;

/// How many names fill a slot.
const MOST_IN_SLOT: u32 = 32;

/// A name in its slot.
#[derive(Clone, Copy)]
pub struct Entry<'a, V> {
    pub name: &'a [u8],
    pub value: V,
    pub digest: u32,
    /// The number of the name that came before it into its slot, counted from 1 over all names, or 0.
    pub next: u32,
}

/// Names in slots.
#[derive(Drop)]
pub struct Slots<'a, V> {
    /// The names in the order in which they came.
    pub entries: Vec<Entry<'a, V>>,
    /// By slot, the number of the latest name in it, or 0.
    pub heads: Vec<u32>,
    ghost shelved: { AreShelved heads.items entries.items },
}

impl<'a, V: Copy> Slots<'a, V> {
    /// No names in no slots.
    pub fn new(alloc: Global) -> Slots<'a, V>
        ensures { result.entries.items ≡ [] }
    {
        Slots {
            entries: Vec::new(alloc),
            heads: Vec::new(alloc),
        }
    }

    /// No names in so many slots.
    fn empty(alloc: Global, slots: usize) -> Result<Slots<'a, V>, NoMemory>
        requires { slots < 2 ^ 32 }
        ensures entries { IfOk result (λ s. s.entries.items ≡ []) }
        ensures slots { IfOk result (λ s. length s.heads.items ≡ slots) }
    {
        let heads = vec![in alloc; 0; slots]?;
        Ok(Slots {
            entries: Vec::new(alloc),
            heads,
        })
    }

    /// The same names in so many slots.
    pub fn moved(&self, alloc: Global, slots: usize) -> Result<Slots<'a, V>, NoMemory>
        requires some { 0 < slots }
        requires few { slots < 2 ^ 32 }
        ensures names { IfOk result (λ s. pairs s.entries.items ≡ pairs self.now.entries.items) }
        ensures slots { IfOk result (λ s. length s.heads.items ≡ slots) }
    {
        let mut moved = Slots::empty(alloc, slots)?;
        for entry in &self.entries {
            moved.put(entry.name, entry.value, entry.digest)?;
        }
        Ok(moved)
    }

    /// Puts a name behind the others.
    pub fn put(&mut self, name: &'a [u8], value: V, digest: u32) -> Result<(), NoMemory>
        requires digest { digest ≡ digest_of name.now }
        requires slots { 0 < length self.old.heads.items }
        requires names { length self.old.entries.items < MOST_NAMES }
        ensures names { OnOk result (pairs self.new.entries.items ≡ pairs self.old.entries.items ++ (name.now, value) ∷ []) }
        ensures slots { length self.new.heads.items ≡ length self.old.heads.items }
    {
        let slot = slot_of(digest, self.heads.len());
        let next = self.heads[slot];
        self.entries.push(Entry {
            name,
            value,
            digest,
            next,
        })?;
        self.heads[slot] = self.entries.len() as u32;
        Ok(())
    }

    /// The value of the name with this digest.
    pub fn find(&self, name: &[u8], digest: u32) -> Option<V>
        requires { digest ≡ digest_of name.now }
        ensures { result ≡ value_of name.now (reverse (pairs self.now.entries.items)) }
    {
        find_in(&self.entries, &self.heads, name, digest)
    }

    /// Whether a name with this digest may be put: its slot is not full.
    pub fn has_room(&self, digest: u32) -> bool
        ensures slots { IsTrue result → 0 < length self.now.heads.items }
        ensures names { IsTrue result → length self.now.entries.items < MOST_NAMES }
    {
        let slots = self.heads.len();
        if slots == 0 {
            return false;
        }
        if self.entries.len() >= MOST_NAMES {
            return false;
        }
        !is_full(&self.entries, self.heads[slot_of(digest, slots)] as usize)
    }
}

/// Whether a slot whose latest name has this number is full.
fn is_full<V: Copy>(entries: &[Entry<'_, V>], latest: usize) -> bool {
    let mut number = latest;
    for _name in 1..MOST_IN_SLOT {
        number = next_of(entries, number);
    }
    number != 0
}

/// The number of the next name in the slot of the one with this number, or 0.
fn next_of<V: Copy>(entries: &[Entry<'_, V>], number: usize) -> usize {
    if number == 0 {
        return 0;
    }
    match entries.get(number - 1) {
        Some(entry) => entry.next as usize,
        None => 0,
    }
}

/// The value of the name with this digest among names in slots.
fn find_in<V: Copy>(entries: &[Entry<'_, V>], heads: &[u32], name: &[u8], digest: u32) -> Option<V>
    requires shelved { AreShelved heads.now entries.now }
    requires digest { digest ≡ digest_of name.now }
    ensures { result ≡ value_of name.now (pairs (reverse entries.now)) }
{
    if heads.is_empty() {
        return None;
    }
    let mut number = heads[slot_of(digest, heads.len())];
    while number != 0 {
        let entry = &entries[number as usize - 1];
        if is_named(entry, name, digest) {
            return Some(entry.value);
        }
        number = entry.next;
    }
    None
}

/// Whether this is the name with this digest.
fn is_named<V: Copy>(entry: &Entry<'_, V>, name: &[u8], digest: u32) -> bool
    requires known { entry.now.digest ≡ digest_of entry.now.name.now }
    requires digest { digest ≡ digest_of name.now }
    ensures { result ≡ bytes_eq name.now entry.now.name.now }
{
    digest == entry.digest && name == entry.name
}

//! A table of names.

ghost use Rattle.std.specs.Prelude.{◌≡◌, [], None, is_none, IfOk, OnOk};
ghost use Rattle.name_table.specs.Names.{value_of, HasAlso};
ghost use Rattle.name_table.specs.Digests.{digest_of};

use crate::NoMemory;
use crate::digest::{digest_of, more_slots};
use crate::slots::Slots;
use std::alloc::Global;
use std::collections::BTreeMap;
use std::marker::Model;

/// The most slots.
const MOST_SLOTS: usize = 1 << 22;

/// Names, each with a value; contracts see names with their values, in no stated order.
#[derive(Drop)]
pub struct NameTable<'a, V> {
    alloc: Global,
    slots: Slots<'a, V>,
    /// The names that came into full slots.
    others: BTreeMap<&'a [u8], V>,
}

impl<'a, V> Model for NameTable<'a, V> {
    ghost use Rattle.std.specs.Prelude.{ℕ, List, ◌++◌, map, reverse};
    ghost use Rattle.name_table.specs.Chains.{pairs};

    ghost Value = { List (List ℕ × V) };

    ghost view = { λ t. reverse (pairs t.slots.entries.items) ++ map (λ p. (p.0.now, p.1)) t.others.entries };
}

impl<'a, V: Copy> NameTable<'a, V> {
    /// No names.
    pub fn new(alloc: Global) -> NameTable<'a, V>
        ensures { result ≡ [] }
    {
        NameTable {
            alloc,
            slots: Slots::new(alloc),
            others: BTreeMap::new(alloc),
        }
    }

    /// The value of a name.
    pub fn find(&self, name: &[u8]) -> Option<V>
        ensures { result ≡ value_of name.now self.now }
    {
        self.known(name, digest_of(name))
    }

    /// The value of the name with this digest.
    fn known(&self, name: &[u8], digest: u32) -> Option<V>
        requires { digest ≡ digest_of name.now }
        ensures { result ≡ value_of name.now self.now }
    {
        match self.slots.find(name, digest) {
            Some(value) => Some(value),
            None => self.others.get(name).copied(),
        }
    }

    /// Adds a name with a value if it is new, and answers whether it is.
    pub fn add(&mut self, name: &'a [u8], value: V) -> Result<bool, NoMemory>
        ensures new { IfOk result (λ added. added ≡ is_none (value_of name.now self.old)) }
        ensures names { OnOk result (HasAlso self.old self.new name.now value) }
    {
        let digest = digest_of(name);
        match self.known(name, digest) {
            Some(_) => Ok(false),
            None => {
                self.put(name, value, digest)?;
                Ok(true)
            }
        }
    }

    /// Adds a new name with this digest.
    fn put(&mut self, name: &'a [u8], value: V, digest: u32) -> Result<(), NoMemory>
        requires new { value_of name.now self.old ≡ None }
        requires digest { digest ≡ digest_of name.now }
        ensures { OnOk result (HasAlso self.old self.new name.now value) }
    {
        self.make_room()?;
        if self.slots.has_room(digest) {
            self.slots.put(name, value, digest)?;
        } else {
            self.others.insert(name, value)?;
        }
        Ok(())
    }

    /// Makes more slots where, with one name more, there are fewer than twice as many slots as names.
    fn make_room(&mut self) -> Result<(), NoMemory>
        ensures { OnOk result (self.new ≡ self.old) }
    {
        let slots = self.slots.heads.len();
        if self.slots.entries.len() >= slots / 2 && slots < MOST_SLOTS {
            self.slots = self.slots.moved(self.alloc, more_slots(slots))?;
        }
        Ok(())
    }
}

//! A set of numbers, in words of 64 bits.
ghost use Rattle.std.specs.Prelude.{◌≡◌, ◌<◌, ◌^◌, ◌↔◌, IsTrue, false, true, length, replicate, slice_set, nat_le, find, IfOk};
ghost use Rattle.bit_rows.specs.Sets.{is_in, members, union, minus, meet, is_subset, first_member, next_member};

use crate::{NoMemory, words};
use std::alloc::Global;
use std::marker::Model;

/// A set of numbers below its length; contracts see one flag for each number.
#[derive(Drop)]
pub struct BitRow {
    len: u32,
    words: Vec<u64>,
}

impl Model for BitRow {
    ghost use Rattle.std.specs.Prelude.{Bool, List};
    ghost use Rattle.bit_rows.specs.Sets.{set_of};
    ghost use Rattle.bit_rows.specs.Words.{words_bit, IsRow};

    ghost Value = { List Bool };

    ghost view = { λ row. set_of row.len (words_bit row.words.items) };

    ghost invariant = { λ row. IsRow row.len row.words.items };
}

impl BitRow {
    /// The empty set of numbers below `n`.
    pub fn make(alloc: Global, n: u32) -> Result<BitRow, NoMemory>
        ensures { IfOk result (λ row. row ≡ replicate n false) }
    {
        let words = vec![in alloc; 0; (n as usize).div_ceil(64)]?;
        Ok(BitRow { len: n, words })
    }

    /// A set with the same members.
    pub fn copy(&self) -> Result<BitRow, NoMemory>
        ensures { IfOk result (λ row. row ≡ self.now) }
    {
        let words = self.words.clone()?;
        Ok(BitRow {
            len: self.len,
            words,
        })
    }

    /// One more than the greatest number that the set can hold.
    pub fn len(&self) -> u32
        ensures { result ≡ length self.now }
    {
        self.len
    }

    /// Adds `i`.
    pub fn set(&mut self, i: u32)
        requires { i < length self.old }
        ensures { self.new ≡ slice_set self.old i true }
    {
        words::set(&mut self.words, i);
    }

    /// Takes `i` out.
    pub fn clear(&mut self, i: u32)
        requires { i < length self.old }
        ensures { self.new ≡ slice_set self.old i false }
    {
        words::clear(&mut self.words, i);
    }

    /// Whether `i` is in the set.
    pub fn get(&self, i: u32) -> bool
        requires { i < length self.now }
        ensures { result ≡ is_in self.now i }
    {
        words::get(&self.words, i)
    }

    /// Adds the members of the other set.
    pub fn union_from(&mut self, other: &BitRow)
        requires { length self.old ≡ length other.now }
        ensures { self.new ≡ union self.old other.now }
    {
        words::set_all(&mut self.words, &other.words);
    }

    /// Takes the members of the other set out.
    pub fn minus_from(&mut self, other: &BitRow)
        requires { length self.old ≡ length other.now }
        ensures { self.new ≡ minus self.old other.now }
    {
        words::clear_all(&mut self.words, &other.words);
    }

    /// Keeps those members alone that the other set has.
    pub fn meet_from(&mut self, other: &BitRow)
        requires { length self.old ≡ length other.now }
        ensures { self.new ≡ meet self.old other.now }
    {
        words::clear_others(&mut self.words, &other.words);
    }

    /// Whether the other set has each member of this one.
    pub fn is_subset(&self, other: &BitRow) -> bool
        requires { length self.now ≡ length other.now }
        ensures { result ≡ is_subset self.now other.now }
    {
        words::are_within(&self.words, &other.words)
    }

    /// Whether both sets have the same length and the same members.
    pub fn same(&self, other: &BitRow) -> bool
        ensures { IsTrue result ↔ (self.now ≡ other.now) }
    {
        if self.len() != other.len() {
            return false;
        }
        self.is_subset(other) && other.is_subset(self)
    }

    /// The number of members.
    pub fn count(&self) -> u32
        ensures { result ≡ length (members self.now) }
    {
        words::count(&self.words) as u32
    }

    /// The least member that is at least `start`, if there is one.
    fn from(&self, start: usize) -> Option<u32>
        ensures { result ≡ find (λ i. nat_le start i) (members self.now) }
    {
        if start >= self.len as usize {
            return None;
        }
        match words::first_from(&self.words, start) {
            Some(i) => Some(i as u32),
            None => None,
        }
    }

    /// The least member; None exactly where the set is empty.
    pub fn first(&self) -> Option<u32>
        ensures { result ≡ first_member self.now }
    {
        self.from(0)
    }

    /// The least member greater than `after`; None exactly where there is none.
    pub fn next(&self, after: u32) -> Option<u32>
        ensures { result ≡ next_member self.now after }
    {
        self.from(after as usize + 1)
    }
}

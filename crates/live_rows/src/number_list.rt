//! Lists of numbers that take no memory once they are made.
ghost use Rattle.std.specs.Prelude.{◌≡◌, ◌<◌, ◌≤◌, ◌++◌, ◌∷◌, [], length, slice_index_or, IfOk, MatchOption};
ghost use Rattle.live_rows.specs.Lists.{Held, none_held};

use crate::NoMemory;
use std::alloc::Global;
use std::marker::Model;

/// A list of numbers with room for so many. Contracts see the room and the numbers, first to last.
#[derive(Drop)]
pub struct NumberList {
    numbers: Vec<u32>,
    len: usize,
}

impl Model for NumberList {
    ghost use Rattle.std.specs.Prelude.{◌≤◌, length, take};
    ghost use Rattle.live_rows.specs.Lists.{Held};

    ghost Value = { Held };

    ghost view = { λ l. record { room = length l.numbers.items; numbers = take l.len l.numbers.items } };

    ghost invariant = { λ l. l.len ≤ length l.numbers.items };
}

impl NumberList {
    /// An empty list with room for so many numbers.
    pub fn make(alloc: Global, room: u32) -> Result<NumberList, NoMemory>
        ensures { IfOk result (λ list. list ≡ none_held room) }
    {
        let numbers = vec![in alloc; 0; room as usize]?;
        Ok(NumberList { numbers, len: 0 })
    }

    /// How many numbers it has.
    pub fn len(&self) -> usize
        ensures len { result ≡ length self.now.numbers }
        ensures room { result ≤ self.now.room }
    {
        self.len
    }

    /// The number at this place.
    pub fn get(&self, i: usize) -> u32
        requires { i < length self.now.numbers }
        ensures { result ≡ slice_index_or self.now.numbers i 0 }
    {
        self.numbers[i]
    }

    /// Puts a number at the end.
    pub fn push(&mut self, number: u32)
        requires { length self.old.numbers < self.old.room }
        ensures { self.new ≡ record self.old { numbers = self.old.numbers ++ number ∷ [] } }
    {
        self.numbers[self.len] = number;
        self.len += 1;
    }

    /// Takes the last number out.
    pub fn pop(&mut self) -> Option<u32>
        ensures room { self.new.room ≡ self.old.room }
        ensures last { MatchOption result ((self.old.numbers ≡ []) × (self.new.numbers ≡ []))
            (λ number. self.old.numbers ≡ self.new.numbers ++ number ∷ []) }
    {
        if self.len == 0 {
            return None;
        }
        self.len -= 1;
        Some(self.numbers[self.len])
    }

    /// Takes all numbers out.
    pub fn clear(&mut self)
        ensures { self.new ≡ none_held self.old.room }
    {
        self.len = 0;
    }
}

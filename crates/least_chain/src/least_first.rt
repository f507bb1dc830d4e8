//! Numbers of which the least comes first.
ghost use Rattle.std.specs.Prelude.{◌≡◌, ◌≤◌, ◌+◌, ◌==◌, ◌||◌, ℕ, [], IsTrue, OnOk, MatchOption, length};
ghost use Rattle.expr_table.specs.Table.{has};

use crate::NoMemory;
use std::alloc::Global;
use std::cmp::Reverse;
use std::collections::BinaryHeap;
use std::marker::Model;

/// Numbers of which the least comes first. Contracts see a list of them, in some order.
#[derive(Drop)]
pub struct LeastFirst {
    numbers: BinaryHeap<Reverse<u32>>,
}

impl Model for LeastFirst {
    ghost use Rattle.std.specs.Prelude.{ℕ, List};
    ghost use Rattle.std.specs.BinaryHeap.{heap_items};
    ghost use Rattle.least_chain.specs.LeastFirst.{IsLeastFirst, numbers_in};

    ghost Value = { List ℕ };

    ghost view = { λ l. numbers_in (heap_items l.numbers) };

    ghost invariant = { λ l. IsLeastFirst (heap_items l.numbers) };
}

impl LeastFirst {
    /// No numbers.
    pub fn new(alloc: Global) -> LeastFirst
        ensures { result ≡ [] }
    {
        LeastFirst {
            numbers: BinaryHeap::new(alloc),
        }
    }

    /// Puts a number in.
    pub fn push(&mut self, number: u32) -> Result<(), NoMemory>
        ensures has { OnOk result ((other : ℕ) → has self.new other ≡ (number == other || has self.old other)) }
        ensures len { OnOk result (length self.new ≡ length self.old + 1) }
    {
        self.numbers.push(Reverse(number))?;
        Ok(())
    }

    /// Takes the least number out.
    pub fn pop(&mut self) -> Option<u32>
        ensures has { MatchOption result (self.old ≡ [])
            (λ number. (other : ℕ) → has self.old other ≡ (number == other || has self.new other)) }
        ensures least { MatchOption result (self.old ≡ [])
            (λ number. (other : ℕ) → IsTrue (has self.old other) → number ≤ other) }
        ensures len { MatchOption result (self.old ≡ []) (λ _. length self.old ≡ length self.new + 1) }
    {
        let Some(least) = self.numbers.pop() else {
            return None;
        };
        Some(least.0)
    }
}

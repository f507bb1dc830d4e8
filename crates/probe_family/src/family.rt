//! A family as a set of tuples.
ghost use Rattle.std.specs.Prelude.{◌≡◌, ◌≤◌, ◌+◌, ◌++◌, ◌↔◌, IsTrue, IfOk, length};
ghost use Rattle.probe_family.specs.Families.{IsFamily, is_tuple_of, total_take, weight_of};
ghost use Rattle.probe_family.specs.Least.{least_of, least_of_part};

use crate::NoMemory;
use crate::part::{Part, Parts};
use crate::taken::{are_taken, is_ascending};
use tuple_rank::{Binomials, Tuple};

/// The tuples that take exactly so many probes from each part and no other probe.
#[derive(Drop)]
pub struct Family {
    /// How many probes a tuple has.
    pub size: u32,
    /// How many leaves of each group a tuple may depend on.
    pub bound: u32,
    pub parts: Parts,
}

impl Family {
    /// An equal family.
    pub fn copy(&self) -> Result<Family, NoMemory>
        ensures { IfOk result (λ family. family ≡ self.now) }
    {
        let parts = self.parts.copy()?;
        Ok(Family {
            size: self.size,
            bound: self.bound,
            parts,
        })
    }

    /// Whether the families are equal: the same size, bound and parts, in the same order.
    pub fn same(&self, other: &Family) -> bool
        ensures { IsTrue result ↔ (self.now ≡ other.now) }
    {
        self.size == other.size && self.bound == other.bound && self.parts.same(&other.parts)
    }

    /// Whether a tuple is one of the family's: ascending, with exactly so many probes from each part and no other.
    #[tactic(auto, unfolding(crate::specs::Families::is_tuple_over))]
    pub fn holds(&self, tuple: &Tuple) -> bool
        ensures { result ≡ is_tuple_of self.now tuple.now.items }
    {
        let numbers = tuple.as_slice();
        is_ascending(numbers) && are_taken(self.parts.as_slice(), numbers)
    }

    /// The first of the family's tuples in lexicographic order: the least members of each part.
    pub fn least(&self) -> Tuple
        requires { total_take self.now.parts ≤ 8 }
        ensures { result.items ≡ least_of self.now }
    {
        let mut tuple = Tuple::new();
        for part in self.parts.as_slice() {
            add_least(part, &mut tuple);
        }
        tuple.sort_unstable();
        tuple
    }

    /// The number of the family's tuples: the product of the ways to choose from each part. The table is made for
    /// the number of probes and for an order of at least the family's size.
    pub fn weight(&self, counts: &Binomials) -> u64
        requires family { IsFamily counts.now.n self.now }
        requires order { self.now.size ≤ counts.now.t }
        ensures { result ≡ weight_of counts.now.n self.now }
    {
        prove!(counts.total() <= 1 << 62);
        let mut weight = 1;
        for part in self.parts.as_slice() {
            weight *= counts.choose(part.set.count(), part.take);
        }
        weight
    }
}

/// Adds as many of the least members of a part's set as it takes.
fn add_least(part: &Part, tuple: &mut Tuple)
    requires { length tuple.old.items + part.now.take ≤ 8 }
    ensures { tuple.new.items ≡ tuple.old.items ++ least_of_part part.now }
{
    let mut next = part.set.first();
    for _taken in 0..part.take {
        let Some(p) = next else {
            return;
        };
        tuple.push(p);
        next = part.set.next(p);
    }
}

//! Closed families, to be found again.
ghost use Rattle.std.specs.Prelude.{◌≡◌, ◌≤◌, IfOk, All, Any, reverse};
ghost use Rattle.probe_family.specs.declared.ending.Closed.{Closed};
ghost use Rattle.probe_family.specs.Families.{total_take};
ghost use Rattle.frontier_core.specs.Closings.{AreApart, IsSmall, TakesOut, closings_of};

use probe_family::{Closed, Ended, Ending, Family, NoMemory};
use std::alloc::Global;
use std::collections::BTreeMap;
use std::marker::Model;
use tuple_rank::Tuple;

/// Closed families, each to be taken out once. Where they are asked for in the order in which they come, each is the
/// next one; those that come before one that is asked for are put aside under their least tuples.
#[derive(Drop)]
pub struct Closings {
    aside: BTreeMap<Tuple, Closed>,
    /// Those that are still to come, the next one last.
    coming: Vec<Closed>,
}

impl Model for Closings {
    ghost use Rattle.std.specs.Prelude.{◌≡◌, ◌++◌, List, All};
    ghost use Rattle.std.specs.Map.{values_of};
    ghost use Rattle.probe_family.specs.declared.ending.Closed.{Closed};
    ghost use Rattle.probe_family.specs.Least.{least_of};
    ghost use Rattle.frontier_core.specs.Closings.{IsSmall};

    ghost Value = { List Closed };

    ghost view = { λ c. values_of c.aside.entries ++ c.coming.items };

    ghost invariant = { λ c. All (λ e. e.0.items ≡ least_of e.1.family) c.aside.entries
        × All IsSmall (values_of c.aside.entries ++ c.coming.items) };
}

/// The families that are closed, the first one last.
fn last_to_first(alloc: Global, mut ended: Vec<Ended>) -> Result<Vec<Closed>, NoMemory>
    ensures { IfOk result (λ closed. closed.items ≡ reverse (closings_of ended.items)) }
{
    let mut closed = Vec::new(alloc);
    while let Some(Ended { family, how }) = ended.pop() {
        if let Ending::Proved { hull } = how {
            closed.push(Closed { family, hull })?;
        }
    }
    Ok(closed)
}

impl Closings {
    /// The closed ones of ended families, in the order in which they ended.
    pub fn make(alloc: Global, ended: Vec<Ended>) -> Result<Closings, NoMemory>
        requires { All IsSmall (closings_of ended.items) }
        ensures { IfOk result (λ closings. closings ≡ reverse (closings_of ended.items)) }
    {
        Ok(Closings {
            aside: BTreeMap::new(alloc),
            coming: last_to_first(alloc, ended)?,
        })
    }

    /// Takes out a family, with its hull.
    pub fn take(&mut self, family: &Family) -> Result<Closed, NoMemory>
        requires apart { AreApart self.old }
        requires there { Any (λ (c : Closed). c.family ≡ family.now) self.old }
        requires small { total_take family.now.parts ≤ 8 }
        ensures { IfOk result (TakesOut family.now self.old self.new) }
    {
        if let Some(closed) = self.aside.remove(&family.least()) {
            return Ok(closed);
        }
        while let Some(closed) = self.coming.pop() {
            if closed.family.same(family) {
                return Ok(closed);
            }
            let least = closed.family.least();
            self.aside.insert(least, closed)?;
        }
        unreachable!()
    }
}

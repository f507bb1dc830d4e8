//! A search on one thread.
ghost use Rattle.std.specs.Prelude.{◌≤◌, IfOk, OnOk};
ghost use Rattle.expr_table.specs.Instance.{IsFitting};
ghost use Rattle.worker_pool.specs.Halfway.{Ends, IsHalfway, waiting_of};

use crate::found::Found;
use expr_table::Instance;
use frontier_core::{NoMemory, Outcome, stack_up};
use probe_family::{Family, roots};
use std::alloc::Global;

/// The families that wait, the next one on top, and what is found.
#[derive(Drop)]
pub struct Search {
    pub stack: Vec<Family>,
    pub found: Found,
}

impl Search {
    /// The search of all tuples of at most `order` probes, at its beginning.
    pub fn begin(alloc: Global, instance: &Instance, order: u32) -> Result<Search, NoMemory>
        requires fitting { IsFitting instance.now }
        requires few { order ≤ 8 }
        ensures { IfOk result (λ search. IsHalfway instance.now order (waiting_of search) search.found) }
    {
        let mut stack = Vec::new(alloc);
        stack_up(&mut stack, roots(alloc, instance, order)?)?;
        Ok(Search {
            stack,
            found: Found::Closed(Vec::new(alloc)),
        })
    }

    /// Takes what an outcome of the work on a family says.
    pub fn end(&mut self, family: Family, outcome: Outcome) -> Result<(), NoMemory>
        ensures { OnOk result (Ends family outcome self.old self.new) }
    {
        match outcome {
            Outcome::Proved { hull, children } => {
                stack_up(&mut self.stack, children)?;
                self.found.close(family, hull)
            }
            Outcome::Failed { tuple, rank } => {
                self.found = Found::Failed { tuple, rank };
                Ok(())
            }
            Outcome::Beyond { .. } => Ok(()),
        }
    }
}

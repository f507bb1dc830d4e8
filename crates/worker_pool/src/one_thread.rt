//! The search on one thread.
ghost use Rattle.std.specs.Prelude.{◌≡◌, ◌≤◌, IfOk, length};
ghost use Rattle.expr_table.specs.Instance.{IsFitting};
ghost use Rattle.frontier_core.specs.Verdict.{IsVerdict};

use crate::search::Search;
use expr_table::Instance;
use frontier_core::{NoMemory, Verdict, work};
use sim_rules::Scratch;
use std::alloc::Global;
use tuple_rank::Binomials;

/// Whether every tuple of at most `order` probes is proved, and then the proof tree; else the first tuple that is not.
pub fn verify_one(
    alloc: Global,
    instance: &Instance,
    counts: &Binomials,
    order: u32,
) -> Result<Verdict, NoMemory>
    requires fitting { IsFitting instance.now }
    requires counted { counts.now ≡ record { n = length instance.now.probes; t = order } }
    requires some { 1 ≤ order }
    requires few { order ≤ 8 }
    ensures { IfOk result (IsVerdict instance.now order) }
{
    let mut scratch = Scratch::of_rows(alloc, instance.table.rows())?;
    let mut search = Search::begin(alloc, instance, order)?;
    while let Some(family) = search.stack.pop() {
        let best = search.found.best();
        let outcome = work(alloc, instance, counts, &mut scratch, &family, best)?;
        search.end(family, outcome)?;
    }
    Ok(search.found.into_verdict())
}

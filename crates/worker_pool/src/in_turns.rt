//! The search by several workers that take turns on one thread.
ghost use Rattle.std.specs.Prelude.{◌≡◌, ◌≤◌, IfOk, length};
ghost use Rattle.expr_table.specs.Instance.{IsFitting};
ghost use Rattle.frontier_core.specs.Verdict.{IsVerdict};

use expr_table::Instance;
use frontier_core::{Core, NoMemory, Verdict};
use sim_rules::Scratch;
use std::alloc::Global;
use tuple_rank::Binomials;

/// The verdict by a search in which so many workers take turns, as the seed draws them.
pub fn verify_in_turns(
    alloc: Global,
    instance: &Instance,
    counts: &Binomials,
    order: u32,
    workers: u32,
    seed: u64,
) -> Result<Verdict, NoMemory>
    requires fitting { IsFitting instance.now }
    requires counted { counts.now ≡ record { n = length instance.now.probes; t = order } }
    requires some { 1 ≤ order }
    requires few { order ≤ 8 }
    requires crew { 1 ≤ workers }
    ensures { IfOk result (IsVerdict instance.now order) }
{
    let mut scratch = Scratch::of_rows(alloc, instance.table.rows())?;
    let core = Core::make(alloc, instance, order, workers)?;
    let last = core.finish(instance, counts, &mut scratch, workers, seed)?;
    last.verdict()
}

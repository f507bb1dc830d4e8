//! The choice between searches.
ghost use Rattle.std.specs.Prelude.{◌≡◌, ◌≤◌, IfOk, length};
ghost use Rattle.expr_table.specs.Instance.{IsFitting};
ghost use Rattle.frontier_core.specs.Verdict.{IsVerdict};

use crate::in_turns::verify_in_turns;
use crate::one_thread::verify_one;
use expr_table::Instance;
use frontier_core::{NoMemory, Verdict};
use std::alloc::Global;
use tuple_rank::Binomials;

/// How the tuples are searched: by so many workers in turn, as the seed of a schedule draws them; and on one thread where
/// there is no schedule.
#[derive(Clone, Copy)]
pub struct Way {
    pub workers: u32,
    pub schedule: Option<u64>,
}

/// What a search of all tuples finds. It is the same whatever the way.
pub fn verify_by(
    alloc: Global,
    instance: &Instance,
    counts: &Binomials,
    order: u32,
    way: Way,
) -> Result<Verdict, NoMemory>
    requires fitting { IsFitting instance.now }
    requires counted { counts.now ≡ record { n = length instance.now.probes; t = order } }
    requires some { 1 ≤ order }
    requires few { order ≤ 8 }
    requires crew { 1 ≤ way.workers }
    ensures { IfOk result (IsVerdict instance.now order) }
{
    match way.schedule {
        Some(seed) => verify_in_turns(alloc, instance, counts, order, way.workers, seed),
        None => verify_one(alloc, instance, counts, order),
    }
}

//! The core: which families are open, which are held, and how others ended.
ghost use Rattle.std.specs.Prelude.{◌≡◌, ◌≤◌, ◌↔◌, IsTrue, IfOk, None, is_none, replicate};
ghost use Rattle.std.specs.List.{list_all};
ghost use Rattle.expr_table.specs.Instance.{IsFitting};
ghost use Rattle.frontier_core.specs.Balance.{Balanced, failed_ranks};
ghost use Rattle.frontier_core.specs.Core.{IsCoreOf, IsIdle, core_with, first_core};

use expr_table::Instance;
use probe_family::{Ended, Ending, Family, NoMemory, roots};
use std::alloc::Global;
use std::marker::Model;

/// The state of a search by several workers, as a machine that does one event after the other.
#[derive(Drop)]
pub struct Core {
    pub(crate) roots: Vec<Family>,
    pub(crate) open_families: Vec<Family>,
    /// For each worker the family that it holds.
    pub(crate) held: Vec<Option<Family>>,
    pub(crate) ended: Vec<Ended>,
    /// The ranks of the ended families that failed.
    pub(crate) failed: Vec<u64>,
}

impl Model for Core {
    ghost use Rattle.std.specs.Prelude.{◌≡◌};
    ghost use Rattle.frontier_core.specs.Balance.{failed_ranks};
    ghost use Rattle.frontier_core.specs.Core.{CoreState};

    ghost Value = { CoreState };

    ghost view = { λ c. record {
      roots = c.roots.items;
      open_families = c.open_families.items;
      held = c.held.items;
      ended = c.ended.items;
    } };

    ghost invariant = { λ c. c.failed.items ≡ failed_ranks c.ended.items };
}

/// Equal families, in the same order.
fn copy_all(alloc: Global, families: &[Family]) -> Result<Vec<Family>, NoMemory>
    ensures { IfOk result (λ copied. copied.items ≡ families.now) }
{
    let mut copied = Vec::new(alloc);
    for family in families {
        copied.push(family.copy()?)?;
    }
    Ok(copied)
}

/// Nothing for each of the workers.
fn hold_nothing(alloc: Global, workers: u32) -> Result<Vec<Option<Family>>, NoMemory>
    ensures { IfOk result (λ held. held.items ≡ replicate workers None) }
{
    let mut held = Vec::new(alloc);
    for _worker in 0..workers {
        held.push(None)?;
    }
    Ok(held)
}

/// The ranks of the families that failed.
fn ranks_of(alloc: Global, ended: &[Ended]) -> Result<Vec<u64>, NoMemory>
    ensures { IfOk result (λ ranks. ranks.items ≡ failed_ranks ended.now) }
{
    let mut ranks = Vec::new(alloc);
    for one in ended {
        if let Ending::Failed { rank } = &one.how {
            ranks.push(*rank)?;
        }
    }
    Ok(ranks)
}

/// Whether no worker holds a family.
fn hold_none(held: &[Option<Family>]) -> bool
    ensures { result ≡ list_all is_none held.now }
{
    held.iter().all(|family| family.is_none())
}

impl Core {
    /// The core of a search of the tuples of at most `order` probes, at its beginning: the roots are open, in order.
    pub fn make(
        alloc: Global,
        instance: &Instance,
        order: u32,
        workers: u32,
    ) -> Result<Core, NoMemory>
        requires fitting { IsFitting instance.now }
        requires few { order ≤ 8 }
        ensures core { IfOk result (λ core. core ≡ first_core instance.now order workers) }
        ensures balanced { IfOk result (IsCoreOf instance.now order) }
    {
        let roots = roots(alloc, instance, order)?;
        let open_families = copy_all(alloc, &roots)?;
        let held = hold_nothing(alloc, workers)?;
        Ok(Core {
            roots,
            open_families,
            held,
            ended: Vec::new(alloc),
            failed: Vec::new(alloc),
        })
    }

    /// The core of a search that has come so far: these families are open, in this order, and these are ended. A
    /// refusal drops both lists.
    pub fn resume(
        alloc: Global,
        instance: &Instance,
        order: u32,
        workers: u32,
        waiting: Vec<Family>,
        ended: Vec<Ended>,
    ) -> Result<Core, NoMemory>
        requires fitting { IsFitting instance.now }
        requires few { order ≤ 8 }
        requires balanced { Balanced instance.now order waiting.items ended.items }
        ensures core { IfOk result (λ core. core ≡ core_with instance.now order workers waiting.items ended.items) }
        ensures balanced { IfOk result (IsCoreOf instance.now order) }
    {
        let roots = roots(alloc, instance, order)?;
        let held = hold_nothing(alloc, workers)?;
        let failed = ranks_of(alloc, &ended)?;
        Ok(Core {
            roots,
            open_families: waiting,
            held,
            ended,
            failed,
        })
    }

    /// Whether nothing is open or held.
    pub fn idle(&self) -> bool
        ensures { IsTrue result ↔ IsIdle self.now }
    {
        self.open_families.is_empty() && hold_none(&self.held)
    }
}

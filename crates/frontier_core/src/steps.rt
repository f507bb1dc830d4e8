//! What the events do to a core.
ghost use Rattle.std.specs.Prelude.{◌≡◌, ◌<◌, ◌≤◌, ◌++◌, ℕ, IfOk, IfSome, OnErr, OnOk, IsSome, length, vec_len, vec_capacity};
ghost use Rattle.std.specs.Option.{option_copied};
ghost use Rattle.expr_table.specs.declared.instance.Instance.{Instance};
ghost use Rattle.expr_table.specs.Instance.{IsFitting};
ghost use Rattle.probe_family.specs.Families.{IsFamily};
ghost use Rattle.frontier_core.specs.Balance.{failed_rank, given_by};
ghost use Rattle.frontier_core.specs.Core.{IsCoreOf, answer_to, core_after, held_by, with_its_end};
ghost use Rattle.frontier_core.specs.Search.{IsSearched};

use crate::core_state::Core;
use crate::event::{Event, Stepped};
use crate::one_family::find_hull;
use expr_table::Instance;
use family_split::children;
use probe_family::{Ended, Ending, Family, NoMemory};
use sim_rules::Scratch;
use std::alloc::Global;
use tuple_rank::Binomials;

/// Notes the rank of a family that failed. There is room for it.
fn note_failed(failed: &mut Vec<u64>, how: &Ending)
    requires { vec_len failed.old < vec_capacity failed.old }
    ensures { failed.new.items ≡ failed.old.items ++ failed_rank how.now }
{
    if let Ending::Failed { rank } = how {
        let Ok(()) = failed.push(*rank) else {
            unreachable!()
        };
    }
}

impl Core {
    /// Where the core's lists lie, and what it makes for them.
    pub(crate) fn allocator(&self) -> Global {
        *self.roots.allocator()
    }

    /// The family that a worker holds.
    pub(crate) fn held(&self, worker: u32) -> Option<&Family>
        ensures { option_copied result ≡ held_by self.now worker }
    {
        match self.held.get(worker as usize) {
            Some(Some(family)) => Some(family),
            _ => None,
        }
    }

    /// Ends the family that a worker holds, and opens what it gives. A refusal leaves the core as it was.
    pub(crate) fn end(
        &mut self,
        worker: u32,
        how: Ending,
        mut given: Vec<Family>,
    ) -> Result<(), NoMemory>
        requires held { IsSome (held_by self.old worker) }
        requires given { IfSome (held_by self.old worker) (λ family. given.items ≡ given_by family how) }
        ensures ended { OnOk result (self.new ≡ with_its_end self.old worker (λ _. how)) }
        ensures same { OnErr result (self.new ≡ self.old) }
    {
        self.ended.reserve(1)?;
        self.failed.reserve(1)?;
        self.open_families.append(&mut given)?;
        note_failed(&mut self.failed, &how);
        let Some(family) = self.held[worker as usize].take() else {
            unreachable!()
        };
        let Ok(()) = self.ended.push(Ended { family, how }) else {
            unreachable!()
        };
        Ok(())
    }

    /// The worker takes the open family at this place.
    fn take(&mut self, worker: u32, place: u32) -> Stepped
        ensures answer { (x : Instance) (t : ℕ) → result ≡ answer_to x t self.old (Event.Take worker place) }
        ensures core { (x : Instance) (t : ℕ) → self.new ≡ core_after x t self.old (Event.Take worker place) }
    {
        let is_free = match self.held.get(worker as usize) {
            Some(held) => held.is_none(),
            None => false,
        };
        if !is_free || place as usize >= self.open_families.len() {
            return Stepped::NotAllowed;
        }
        let family = self.open_families.remove(place as usize);
        self.held[worker as usize] = Some(family);
        Stepped::Done
    }

    /// The family that the worker holds is closed under its hull.
    fn prove(
        &mut self,
        instance: &Instance,
        scratch: &mut Scratch,
        worker: u32,
    ) -> Result<Stepped, NoMemory>
        requires fitting { IsFitting instance.now }
        requires made_for { scratch.old ≡ length instance.now.table.nodes }
        requires family { IfSome (held_by self.old worker) (IsFamily (length instance.now.probes)) }
        ensures stays_fit { scratch.new ≡ scratch.old }
        ensures answer { (t : ℕ) → IfOk result (λ answer. answer ≡ answer_to instance.now t self.old (Event.Proved worker)) }
        ensures core { (t : ℕ) → OnOk result (self.new ≡ core_after instance.now t self.old (Event.Proved worker)) }
        ensures same { OnErr result (self.new ≡ self.old) }
    {
        let Some(family) = self.held(worker) else {
            return Ok(Stepped::NotAllowed);
        };
        match find_hull(self.allocator(), instance, scratch, family)? {
            Some(hull) => {
                let given = children(self.allocator(), family, &hull)?;
                self.end(worker, Ending::Proved { hull }, given)?;
                Ok(Stepped::Done)
            }
            None => Ok(Stepped::NotAllowed),
        }
    }

    /// The least tuple of the family that the worker holds is not proved.
    fn fail(
        &mut self,
        instance: &Instance,
        counts: &Binomials,
        scratch: &mut Scratch,
        worker: u32,
    ) -> Result<Stepped, NoMemory>
        requires fitting { IsFitting instance.now }
        requires made_for { scratch.old ≡ length instance.now.table.nodes }
        requires counted { counts.now.n ≡ length instance.now.probes }
        requires family { IfSome (held_by self.old worker) (IsSearched instance.now counts.now.t) }
        ensures stays_fit { scratch.new ≡ scratch.old }
        ensures answer { IfOk result (λ answer. answer ≡ answer_to instance.now counts.now.t self.old (Event.Failed worker)) }
        ensures core { OnOk result (self.new ≡ core_after instance.now counts.now.t self.old (Event.Failed worker)) }
        ensures same { OnErr result (self.new ≡ self.old) }
    {
        let Some(family) = self.held(worker) else {
            return Ok(Stepped::NotAllowed);
        };
        if find_hull(self.allocator(), instance, scratch, family)?.is_some() {
            return Ok(Stepped::NotAllowed);
        }
        let rank = counts.rank(&family.least());
        self.end(worker, Ending::Failed { rank }, Vec::new(self.allocator()))?;
        Ok(Stepped::Done)
    }

    /// The family that the worker holds has no tuple before the one of this rank, which failed.
    fn pass_over(&mut self, counts: &Binomials, worker: u32, best: u64) -> Result<Stepped, NoMemory>
        requires family { IfSome (held_by self.old worker)
            (λ family. IsFamily counts.now.n family × (family.size ≤ counts.now.t)) }
        ensures answer { (x : Instance) → counts.now.n ≡ length x.probes
            → IfOk result (λ answer. answer ≡ answer_to x counts.now.t self.old (Event.Beyond worker best)) }
        ensures core { (x : Instance) → counts.now.n ≡ length x.probes
            → OnOk result (self.new ≡ core_after x counts.now.t self.old (Event.Beyond worker best)) }
        ensures same { OnErr result (self.new ≡ self.old) }
    {
        let Some(family) = self.held(worker) else {
            return Ok(Stepped::NotAllowed);
        };
        let rank = counts.rank(&family.least());
        if best > rank {
            return Ok(Stepped::NotAllowed);
        }
        if !self.failed.contains(&best) {
            return Ok(Stepped::NotAllowed);
        }
        self.end(worker, Ending::Beyond { best }, Vec::new(self.allocator()))?;
        Ok(Stepped::Done)
    }

    /// Does an event where it is allowed. Where it is not, or memory is refused, the core stays what it was.
    pub fn step(
        &mut self,
        instance: &Instance,
        counts: &Binomials,
        scratch: &mut Scratch,
        event: Event,
    ) -> Result<Stepped, NoMemory>
        requires fitting { IsFitting instance.now }
        requires made_for { scratch.old ≡ length instance.now.table.nodes }
        requires counted { counts.now.n ≡ length instance.now.probes }
        requires balanced { IsCoreOf instance.now counts.now.t self.old }
        ensures stays_fit { scratch.new ≡ scratch.old }
        ensures answer { IfOk result (λ answer. answer ≡ answer_to instance.now counts.now.t self.old event) }
        ensures core { OnOk result (self.new ≡ core_after instance.now counts.now.t self.old event) }
        ensures same { OnErr result (self.new ≡ self.old) }
        ensures balanced { IsCoreOf instance.now counts.now.t self.new }
    {
        match event {
            Event::Take { worker, place } => Ok(self.take(worker, place)),
            Event::Proved { worker } => self.prove(instance, scratch, worker),
            Event::Failed { worker } => self.fail(instance, counts, scratch, worker),
            Event::Beyond { worker, best } => self.pass_over(counts, worker, best),
        }
    }
}

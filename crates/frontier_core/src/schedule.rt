//! Stepping a core to its end: its workers have turns, in an order that a number draws.
ghost use Rattle.std.specs.Prelude.{◌≡◌, ◌<◌, ◌≤◌, ◌^◌, ℕ, IfOk, IfSome, IsSome, MatchOption, OnOk, length};
ghost use Rattle.expr_table.specs.declared.instance.Instance.{Instance};
ghost use Rattle.expr_table.specs.Instance.{IsFitting};
ghost use Rattle.probe_family.specs.Families.{IsFamily};
ghost use Rattle.frontier_core.specs.Core.{IsCoreOf, IsIdle, held_by};
ghost use Rattle.frontier_core.specs.Schedule.{ComesFirst, HasTurn, HoldNone, IsFirstHolder, IsKnown, Moves, RunsTo};
ghost use Rattle.frontier_core.specs.Schedule.{TakesTurn, drawn_from, next_state};
ghost use Rattle.frontier_core.specs.Search.{IsSearched};

use crate::answer::least;
use crate::core_state::Core;
use crate::event::Event;
use crate::one_family::find_hull;
use expr_table::Instance;
use family_split::children;
use probe_family::{Ending, NoMemory};
use sim_rules::Scratch;
use tuple_rank::Binomials;

/// Draws numbers below 2^31 from the last one's state.
#[derive(Drop)]
struct Draws {
    state: u64,
}

impl Draws {
    /// The next number.
    fn next(&mut self) -> u32
        ensures state { self.new.state ≡ next_state self.old.state }
        ensures drawn { result ≡ drawn_from self.new.state }
        ensures small { result < 2 ^ 31 }
    {
        self.state = self
            .state
            .wrapping_mul(6364136223846793005)
            .wrapping_add(1442695040888963407);
        (self.state >> 33) as u32
    }
}

impl Core {
    /// The first worker from a number on that holds a family.
    fn first_holder(&self, from: u32, workers: u32) -> Option<u32>
        requires { from ≤ workers }
        ensures { MatchOption result (HoldNone self.now from workers)
            (λ worker. (worker < workers) × IsFirstHolder self.now from worker) }
    {
        for worker in from..workers {
            if self.held(worker).is_some() {
                return Some(worker);
            }
        }
        None
    }

    /// The worker whose turn it is: the one that was drawn; or, where it has nothing to do, the next one upwards and
    /// round that holds a family.
    fn whose_turn(&self, drawn: u32, workers: u32) -> u32
        requires crew { length self.now.held ≡ workers }
        requires drawn { drawn < workers }
        requires busy { IsIdle self.now → ⊥ }
        ensures within { result < workers }
        ensures turn { HasTurn self.now drawn result }
    {
        if !self.open_families.is_empty() {
            return drawn;
        }
        if let Some(worker) = self.first_holder(drawn, workers) {
            return worker;
        }
        let Some(worker) = self.first_holder(0, workers) else {
            unreachable!()
        };
        worker
    }

    /// The least failed rank, where it is at most the rank of the least tuple of the worker's family.
    fn known_before(&self, counts: &Binomials, worker: u32) -> Option<u64>
        requires { IfSome (held_by self.now worker) (λ family. IsFamily counts.now.n family × (family.size ≤ counts.now.t)) }
        ensures { (x : Instance) → counts.now.n ≡ length x.probes
            → MatchOption result (ComesFirst x counts.now.t self.now worker) (IsKnown x counts.now.t self.now worker) }
    {
        let family = self.held(worker)?;
        let best = least(&self.failed)?;
        if counts.rank(&family.least()) < best {
            return None;
        }
        Some(best)
    }

    /// Ends the family that a worker holds, which comes before each that failed: as proved where it has a hull, and else as
    /// failed. The hull is looked for once.
    fn prove_or_fail(
        &mut self,
        instance: &Instance,
        counts: &Binomials,
        scratch: &mut Scratch,
        worker: u32,
    ) -> Result<(), NoMemory>
        requires fitting { IsFitting instance.now }
        requires made_for { scratch.old ≡ length instance.now.table.nodes }
        requires counted { counts.now.n ≡ length instance.now.probes }
        requires family { IfSome (held_by self.old worker) (IsSearched instance.now counts.now.t) }
        requires held { IsSome (held_by self.old worker) }
        requires first { ComesFirst instance.now counts.now.t self.old worker }
        ensures stays_fit { scratch.new ≡ scratch.old }
        ensures moves { (number : ℕ) → OnOk result (Moves instance.now counts.now.t worker number self.old self.new) }
    {
        let Some(family) = self.held(worker) else {
            unreachable!()
        };
        match find_hull(self.allocator(), instance, scratch, family)? {
            Some(hull) => {
                let given = children(self.allocator(), family, &hull)?;
                self.end(worker, Ending::Proved { hull }, given)?;
                Ok(())
            }
            None => {
                let rank = counts.rank(&family.least());
                self.end(worker, Ending::Failed { rank }, Vec::new(self.allocator()))?;
                Ok(())
            }
        }
    }

    /// Ends the family that a worker holds: beyond the least failed rank where that is at most the rank of its least
    /// tuple, and else as proved or failed.
    fn end_turn(
        &mut self,
        instance: &Instance,
        counts: &Binomials,
        scratch: &mut Scratch,
        worker: u32,
    ) -> Result<(), NoMemory>
        requires fitting { IsFitting instance.now }
        requires made_for { scratch.old ≡ length instance.now.table.nodes }
        requires counted { counts.now.n ≡ length instance.now.probes }
        requires balanced { IsCoreOf instance.now counts.now.t self.old }
        requires held { IsSome (held_by self.old worker) }
        ensures stays_fit { scratch.new ≡ scratch.old }
        ensures moves { (number : ℕ) → OnOk result (Moves instance.now counts.now.t worker number self.old self.new) }
    {
        match self.known_before(counts, worker) {
            Some(best) => {
                let beyond = Event::Beyond { worker, best };
                let _ = self.step(instance, counts, scratch, beyond)?;
                Ok(())
            }
            None => self.prove_or_fail(instance, counts, scratch, worker),
        }
    }

    /// One turn: a worker that holds no family takes an open one, and one that holds a family ends it.
    fn turn(
        &mut self,
        instance: &Instance,
        counts: &Binomials,
        scratch: &mut Scratch,
        workers: u32,
        drawn: u32,
    ) -> Result<(), NoMemory>
        requires fitting { IsFitting instance.now }
        requires made_for { scratch.old ≡ length instance.now.table.nodes }
        requires counted { counts.now.n ≡ length instance.now.probes }
        requires balanced { IsCoreOf instance.now counts.now.t self.old }
        requires crew { length self.old.held ≡ workers }
        requires some { 1 ≤ workers }
        requires busy { IsIdle self.old → ⊥ }
        ensures stays_fit { scratch.new ≡ scratch.old }
        ensures turn { OnOk result (TakesTurn instance.now counts.now.t drawn self.old self.new) }
    {
        let worker = self.whose_turn(drawn % workers, workers);
        if self.held(worker).is_some() {
            return self.end_turn(instance, counts, scratch, worker);
        }
        let place = (drawn / workers) as usize % self.open_families.len();
        let take = Event::Take {
            worker,
            place: place as u32,
        };
        let _ = self.step(instance, counts, scratch, take)?;
        Ok(())
    }

    /// Steps the core to its end: while something is open or held, a worker has the turn that the next number draws, of
    /// those that begin with a seed. A refusal drops the core.
    pub fn finish(
        self,
        instance: &Instance,
        counts: &Binomials,
        scratch: &mut Scratch,
        workers: u32,
        seed: u64,
    ) -> Result<Core, NoMemory>
        requires fitting { IsFitting instance.now }
        requires made_for { scratch.old ≡ length instance.now.table.nodes }
        requires counted { counts.now.n ≡ length instance.now.probes }
        requires balanced { IsCoreOf instance.now counts.now.t self }
        requires crew { length self.held ≡ workers }
        requires some { 1 ≤ workers }
        ensures stays_fit { scratch.new ≡ scratch.old }
        ensures turns { IfOk result (RunsTo instance.now counts.now.t seed self) }
        ensures balanced { IfOk result (IsCoreOf instance.now counts.now.t) }
    {
        let mut core = self;
        let mut draws = Draws { state: seed };
        while !core.idle() {
            let drawn = draws.next();
            core.turn(instance, counts, scratch, workers, drawn)?;
        }
        Ok(core)
    }
}

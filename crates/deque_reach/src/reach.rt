//! A worker's reach: its own deque, and its lanes to all deques.

ghost use Rattle.std.specs.Prelude.{◌≡◌, ◌<◌, true, All, vec_len};
ghost use Rattle.crossbeam_deque.specs.Handles.{worker_flavor, worker_view};
ghost use Rattle.deque_reach.specs.Lanes.{KnowsSame};

use crate::deques::Deques;
use crate::lane::{Lane, Owner};
use crate::rule::{PushStep, TakeStep};
use probe_family::Family;

/// A worker's reach, which may move to another thread. It owns the deque of its number.
#[derive(Drop)]
pub struct Reach {
    pub(crate) number: u32,
    pub(crate) owner: Owner,
    pub(crate) lanes: Vec<Lane>,
    pub(crate) refused: u64,
    ghost fifo: { worker_flavor owner ≡ 0 },
    ghost begun: { (worker_view owner).begun ≡ true },
    ghost part: { 0 < (worker_view owner).parts },
    ghost own_lane: { number < vec_len lanes },
    ghost same: { All (KnowsSame (worker_view owner)) lanes.items },
}

impl Reach {
    ghost use Rattle.std.specs.Prelude.{◌≢◌, length, IfErr, IfNone, IfSome, OnOk, OnErr};
    ghost use Rattle.deque_reach.specs.Fits.{Fits};
    ghost use Rattle.deque_reach.specs.Views.{after_push, after_pop, after_steal, Misses, Refuses};
    ghost use Rattle.deque_reach.specs.Reaches.{view_of, deques_of, IsReachOf, KeepsDeques};

    /// The worker's number, which is that of its deque.
    pub fn number(&self) -> u32
        ensures { result ≡ (view_of self.now).number }
    {
        self.number
    }

    /// Pushes a family on the worker's own deque. It comes back where the push was refused, which is counted.
    pub fn push(&mut self, family: Family) -> Result<(), Family>
        requires { Fits (view_of self.old).probes (view_of self.old).order family }
        ensures deques { KeepsDeques self.old self.new }
        ensures pushed { OnOk result (view_of self.new ≡ after_push (view_of self.old) family) }
        ensures back { IfErr result (λ back. back ≡ family) }
        ensures refused { OnErr result (Refuses (view_of self.old) (view_of self.new)) }
    {
        match self.owner.push_as::<PushStep>(family) {
            Ok(()) => Ok(()),
            Err(family) => {
                self.refused = self.refused.saturating_add(1);
                Err(family)
            }
        }
    }

    /// Takes the family that was pushed first of those on the worker's own deque. `None` where it was found empty,
    /// which is counted.
    pub fn pop(&mut self) -> Option<Family>
        ensures deques { KeepsDeques self.old self.new }
        ensures popped { IfSome result (λ f. view_of self.new ≡ after_pop (view_of self.old) f) }
        ensures fits { IfSome result (Fits (view_of self.old).probes (view_of self.old).order) }
        ensures missed { IfNone result (Misses (view_of self.old) (view_of self.old).number (view_of self.new)) }
    {
        match self.owner.pop_as::<TakeStep>() {
            Some(family) => Some(family),
            None => {
                self.lanes[self.number as usize].miss();
                None
            }
        }
    }

    /// Takes the family that was pushed first of those on another worker's deque. `None` where the deque was found
    /// empty, or another worker took the family meanwhile, which is counted.
    pub fn steal(&mut self, deques: &Deques, from: u32) -> Option<Family>
        requires deques { IsReachOf deques.now self.old }
        requires deque { from < length (deques_of deques.now) }
        requires other { from ≢ (view_of self.old).number }
        ensures deques { KeepsDeques self.old self.new }
        ensures stolen { IfSome result (λ f. view_of self.new ≡ after_steal (view_of self.old) from f) }
        ensures fits { IfSome result (Fits (view_of self.old).probes (view_of self.old).order) }
        ensures missed { IfNone result (Misses (view_of self.old) from (view_of self.new)) }
    {
        let from = from as usize;
        self.lanes[from].steal(&deques.thieves[from])
    }
}

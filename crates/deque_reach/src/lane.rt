//! A worker's way to one deque.

ghost use Rattle.std.specs.Prelude.{◌≡◌, true, length, IfNone, IfSome};
ghost use Rattle.crossbeam_deque.specs.Handles.{view, IsPassOf, stealer_deque, stealer_flavor};
ghost use Rattle.deque_reach.specs.Fits.{Fits};

use crate::pass_view::PassView;
use crate::rule::{Balanced, TakeStep};
use crossbeam_deque::{Pass, Steal, Stealer, Worker};
use probe_family::Family;
use std::alloc::Global;

/// The owner's side of a deque.
pub type Owner = Worker<Family, Global, PassView, Balanced>;

/// The other workers' side of a deque.
pub type Thief = Stealer<Family, Global, PassView, Balanced>;

/// A pass of one deque, which only takes, and how often the deque was found empty.
#[derive(Drop)]
pub struct Lane {
    pub(crate) pass: Pass<Family, PassView>,
    pub(crate) misses: u64,
    ghost begun: { (view pass).begun ≡ true },
    ghost part: { (view pass).parts ≡ 1 },
    ghost only_takes: { length (view pass).pushed ≡ 0 },
}

impl Lane {
    ghost use Rattle.deque_reach.specs.Lanes.{TakesOne, Misses, KeepsDeque};

    /// Counts that the deque was found empty.
    pub(crate) fn miss(&mut self)
        ensures { Misses self.old self.new }
    {
        self.misses = self.misses.saturating_add(1);
    }

    /// Steals from the deque, or counts that it was found empty.
    pub(crate) fn steal(&mut self, thief: &Thief) -> Option<Family>
        requires deque { IsPassOf (stealer_deque thief.now) self.old.pass }
        requires fifo { stealer_flavor thief.now ≡ 0 }
        ensures deque { KeepsDeque self.old self.new }
        ensures stolen { IfSome result (λ f. TakesOne self.old f self.new) }
        ensures fits { IfSome result (Fits (view self.old.pass).probes (view self.old.pass).order) }
        ensures missed { IfNone result (Misses self.old self.new) }
    {
        match thief.steal_as::<TakeStep>(&mut self.pass) {
            Steal::Success(family) => Some(family),
            Steal::Empty | Steal::Retry => {
                self.miss();
                None
            }
        }
    }
}

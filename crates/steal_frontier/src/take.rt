//! Taking a family.
ghost use Rattle.std.specs.Prelude.{◌≡◌, List, None, IfNone, IfSome};
ghost use Rattle.probe_family.specs.declared.family.Family.{Family};
ghost use Rattle.deque_reach.specs.Reaches.{KeepsDeques};
ghost use Rattle.steal_frontier.specs.Views.{Gave, FitsSeat};
ghost use Rattle.steal_frontier.specs.Seats.{view_of, workers_of, IsSeatOf, KeepsFrontier};
ghost use Rattle.steal_frontier.specs.Takes.{Finds, FindsNothing, Takes};

use crate::frontier::Frontier;
use crate::seat::Seat;
use crate::steal::steal_from_others;
use probe_family::Family;

/// What came of taking a family.
#[derive(Clone, Copy, Debug, PartialEq, Eq)]
pub enum Take {
    /// A family is held.
    Held,
    /// The stack was empty, and each deque was found empty, which the reach counts.
    Nothing,
}

impl Seat {
    /// Takes a family: the top one of the stack, or the one that was pushed first of those on the own deque, or on one
    /// of the other deques, which are tried from the next number upwards and round.
    pub fn take(&mut self, frontier: &Frontier) -> Take
        requires seat { IsSeatOf frontier.now self.old }
        requires free { (view_of self.old).held ≡ None }
        ensures keeps { KeepsFrontier self.old self.new }
        ensures takes { Takes (workers_of frontier.now) (view_of self.old) result (view_of self.new) }
        ensures balance { (given : List Family) → Gave (view_of self.old) given → Gave (view_of self.new) given }
    {
        match self.find(frontier) {
            Some(family) => {
                self.held = Some(family);
                Take::Held
            }
            None => Take::Nothing,
        }
    }

    // Finds a family, which leaves the stack or a deque.
    fn find(&mut self, frontier: &Frontier) -> Option<Family>
        requires { IsSeatOf frontier.now self.old }
        ensures found { IfSome result (λ f. Finds (workers_of frontier.now) (view_of self.old) f (view_of self.new)) }
        ensures nothing { IfNone result (FindsNothing (workers_of frontier.now) (view_of self.old) (view_of self.new)) }
        ensures deques { KeepsDeques self.old.reach self.new.reach }
        ensures fits { IfSome result (FitsSeat (view_of self.old)) }
    {
        if let Some(family) = self.stack.pop() {
            return Some(family);
        }
        if let Some(family) = self.reach.pop() {
            return Some(family);
        }
        steal_from_others(&mut self.reach, &frontier.deques)
    }
}

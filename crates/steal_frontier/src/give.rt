//! Ending a family and giving its children.
ghost use Rattle.std.specs.Prelude.{◌≡◌, ◌++◌, List, All, IsSome, reverse, vec_len};
ghost use Rattle.probe_family.specs.declared.family.Family.{Family};
ghost use Rattle.deque_reach.specs.Fits.{Fits};
ghost use Rattle.deque_reach.specs.Reaches.{KeepsDeques, view_of as reach_view_of};
ghost use Rattle.steal_frontier.specs.Views.{Gave};
ghost use Rattle.steal_frontier.specs.Seats.{view_of, FitsFrontier, HasRoom, IsSeatOf, KeepsFrontier};
ghost use Rattle.steal_frontier.specs.Gives.{Gives, Offers};

use crate::frontier::Frontier;
use crate::seat::Seat;
use deque_reach::Reach;
use probe_family::{Ended, Ending, Family};

impl Seat {
    /// Ends the family that is held, and gives its children. The first goes on the deque, where others find it, and
    /// the others on the stack, the last of them first. It needs the room for them, and takes no memory.
    pub fn give(&mut self, frontier: &Frontier, how: Ending, children: Vec<Family>)
        requires seat { IsSeatOf frontier.now self.old }
        requires held { IsSome (view_of self.old).held }
        requires room { HasRoom self.old (vec_len children) }
        requires fits { All (FitsFrontier frontier.now) children.items }
        ensures keeps { KeepsFrontier self.old self.new }
        ensures gives { Gives (view_of self.old) how children.items (view_of self.new) }
        ensures balance { (given : List Family) → Gave (view_of self.old) given
            → Gave (view_of self.new) (given ++ children.items) }
    {
        let _ = frontier;
        let Some(family) = self.held.take() else {
            unreachable!()
        };
        let Ok(()) = self.ended.push(Ended { family, how }) else {
            unreachable!()
        };
        let mut waiting = children;
        waiting.reverse();
        offer_last(&mut self.reach, &mut waiting);
        let Ok(()) = self.stack.append(&mut waiting) else {
            unreachable!()
        };
    }
}

// Pushes the last of the families on the deque. It stays where the push was refused.
fn offer_last(reach: &mut Reach, families: &mut Vec<Family>)
    requires { All (Fits (reach_view_of reach.old).probes (reach_view_of reach.old).order) families.old.items }
    ensures deques { KeepsDeques reach.old reach.new }
    ensures offered { Offers (reach_view_of reach.old) (reverse families.old.items)
        (reach_view_of reach.new) (reverse families.new.items) }
{
    let Some(last) = families.pop() else {
        return;
    };
    if let Err(last) = reach.push(last) {
        let Ok(()) = families.push(last) else {
            unreachable!()
        };
    }
}

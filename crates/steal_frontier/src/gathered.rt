//! Bringing the seats together.
ghost use Rattle.std.specs.Prelude.{◌≡◌, ◌++◌, All, IfOk, OnOk};
ghost use Rattle.probe_family.specs.Often.{families_of};
ghost use Rattle.steal_frontier.specs.Views.{waiting_of};
ghost use Rattle.steal_frontier.specs.Seats.{view_of, FitsFrontier, AreSeatsOf};
ghost use Rattle.steal_frontier.specs.Gathers.{all_ended, LeftAre, Balances};

use crate::NoMemory;
use crate::frontier::Frontier;
use crate::seat::Seat;
use deque_reach::{Reach, drain_deques};
use probe_family::{Ended, Family};
use sequences::Sequence;
use std::alloc::Global;

/// What all seats together have.
#[derive(Drop)]
pub struct Gathered {
    /// The families that were ended, and how.
    pub ended: Sequence<Ended>,
    /// The families that were held, on the stacks and in the deques.
    pub left: Sequence<Family>,
}

/// What all seats together have. It needs all seats of this frontier, in the order of their numbers.
pub fn gather(alloc: Global, frontier: Frontier, seats: Vec<Seat>) -> Result<Gathered, NoMemory>
    requires { AreSeatsOf frontier seats.items }
    ensures ended { IfOk result (λ gathered. gathered.ended ≡ all_ended seats.items) }
    ensures left { IfOk result (λ gathered. LeftAre seats.items gathered.left) }
    ensures ended_fit { IfOk result (λ gathered. All (FitsFrontier frontier) (families_of gathered.ended)) }
    ensures left_fit { IfOk result (λ gathered. All (FitsFrontier frontier) gathered.left) }
    ensures balance { IfOk result (λ gathered. Balances seats.items gathered.ended gathered.left) }
{
    let mut reaches = Vec::new(alloc);
    let mut ended = Vec::new(alloc);
    let mut left = Vec::new(alloc);
    for seat in seats {
        reaches.push(take_apart(seat, &mut ended, &mut left)?)?;
    }
    let mut in_deques = drain_deques(alloc, frontier.deques, reaches)?;
    left.append(&mut in_deques)?;
    Ok(Gathered {
        ended: Sequence::from_vec(ended),
        left: Sequence::from_vec(left),
    })
}

// The reach of a seat; its ended families, and those that wait, are added to the others.
fn take_apart(seat: Seat, ended: &mut Vec<Ended>, left: &mut Vec<Family>) -> Result<Reach, NoMemory>
    ensures reach { IfOk result (λ reach. reach ≡ seat.reach) }
    ensures ended { OnOk result (ended.new.items ≡ ended.old.items ++ (view_of seat).ended) }
    ensures left { OnOk result (left.new.items ≡ left.old.items ++ waiting_of (view_of seat)) }
{
    let Seat {
        reach,
        mut stack,
        held,
        ended: mut of_seat,
        roots: _,
    } = seat;
    ended.append(&mut of_seat)?;
    if let Some(family) = held {
        left.push(family)?;
    }
    left.append(&mut stack)?;
    Ok(reach)
}

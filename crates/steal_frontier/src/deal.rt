//! New seats, and the roots that are dealt to them.
ghost use Rattle.std.specs.Prelude.{◌≡◌, ◌<◌, ◌+◌, ◌^◌, ◌∷◌, [], All, IfOk, OnOk, length, map};
ghost use Rattle.deque_reach.specs.Fits.{Fits};
ghost use Rattle.steal_frontier.specs.Seats.{view_of};
ghost use Rattle.steal_frontier.specs.Views.{FitsSeat};
ghost use Rattle.steal_frontier.specs.Dealt.{IsNewSeat, GainsRoots, DealsTo};

use crate::NoMemory;
use crate::seat::Seat;
use deque_reach::Reach;
use probe_family::Family;
use std::alloc::{AllocError, Global};

/// A seat for each reach.
pub(crate) fn new_seats(alloc: Global, reaches: Vec<Reach>) -> Result<Vec<Seat>, NoMemory>
    ensures reaches { IfOk result (λ seats. map (λ s. s.reach) seats.items ≡ reaches.items) }
    ensures new { IfOk result (λ seats. All IsNewSeat seats.items) }
{
    let mut seats = Vec::new(alloc);
    for reach in reaches {
        seats.push(new_seat(alloc, reach))?;
    }
    Ok(seats)
}

// The seat with this reach, and with nothing else.
fn new_seat(alloc: Global, reach: Reach) -> Seat
    ensures reach { result.reach ≡ reach }
    ensures new { IsNewSeat result }
{
    Seat {
        reach,
        stack: Vec::new(alloc),
        held: None,
        ended: Vec::new(alloc),
        roots: 0,
    }
}

/// Deals the roots to the seats in turn.
pub(crate) fn deal(seats: &mut [Seat], roots: Vec<Family>) -> Result<(), NoMemory>
    requires some { 0 < length seats.old }
    requires new { All IsNewSeat seats.old }
    requires fits { All (λ seat. All (FitsSeat (view_of seat)) roots.items) seats.old }
    ensures { OnOk result (DealsTo seats.old roots.items seats.new) }
{
    let workers = seats.len();
    let mut i = 0;
    for root in roots {
        add_root(&mut seats[i % workers], root)?;
        i += 1;
    }
    Ok(())
}

// Pushes a root on the seat's deque.
fn add_root(seat: &mut Seat, root: Family) -> Result<(), NoMemory>
    requires fits { FitsSeat (view_of seat.old) root }
    requires few { (view_of seat.old).roots + 1 < 2 ^ 64 }
    ensures { OnOk result (GainsRoots seat.old (root ∷ []) seat.new) }
{
    let Ok(()) = seat.reach.push(root) else {
        return Err(AllocError);
    };
    seat.roots += 1;
    Ok(())
}

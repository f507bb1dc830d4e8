//! The frontier, as all workers share it, and its seats.
ghost use Rattle.std.specs.Prelude.{◌≡◌, ◌<◌, ◌≤◌, [], None, All, IfOk, map};
ghost use Rattle.probe_family.specs.Often.{AsOften};
ghost use Rattle.deque_reach.specs.Fits.{Fits};
ghost use Rattle.std.specs.List.{flat_map};
ghost use Rattle.steal_frontier.specs.Views.{Gave, roots_of};
ghost use Rattle.steal_frontier.specs.Seats.{view_of, room_of, workers_of, probes_of, order_of, AreSeatsOf};
ghost use Rattle.steal_frontier.specs.Dealt.{first_seats};

use crate::NoMemory;
use crate::deal::{deal, new_seats};
use crate::seat::Seat;
use deque_reach::{Deques, make_deques};
use probe_family::Family;
use std::alloc::Global;

/// What all workers share: a deque of families for each of them.
#[derive(Drop)]
pub struct Frontier {
    pub(crate) deques: Deques,
}

impl Frontier {
    /// The frontier of so many workers, and a seat for each of them, in the order of their numbers. Its families are
    /// over so many probes, and their tuples have at most `order` of them. Root i goes to the deque of the worker
    /// i modulo their number.
    pub fn make(
        alloc: Global,
        workers: u32,
        probes: u32,
        order: u32,
        roots: Vec<Family>,
    ) -> Result<(Frontier, Vec<Seat>), NoMemory>
        requires some { 0 < workers }
        requires few { workers ≤ 64 }
        requires roots { All (Fits probes order) roots.items }
        ensures workers { IfOk result (λ made. workers_of made.0 ≡ workers) }
        ensures probes { IfOk result (λ made. probes_of made.0 ≡ probes) }
        ensures order { IfOk result (λ made. order_of made.0 ≡ order) }
        ensures seats { IfOk result (λ made. AreSeatsOf made.0 made.1.items) }
        ensures views { IfOk result (λ made. map view_of made.1.items ≡ first_seats workers probes order roots.items) }
        ensures roots { IfOk result (λ made. AsOften (flat_map roots_of (map view_of made.1.items)) roots.items) }
        ensures room { IfOk result (λ made. All (λ seat. room_of seat ≡ None) made.1.items) }
        ensures balance { IfOk result (λ made. All (λ seat. Gave (view_of seat) []) made.1.items) }
    {
        let (deques, reaches) = make_deques(alloc, workers, probes, order)?;
        let frontier = Frontier { deques };
        let mut seats = new_seats(alloc, reaches)?;
        deal(seats.as_mut_slice(), roots)?;
        Ok((frontier, seats))
    }
}

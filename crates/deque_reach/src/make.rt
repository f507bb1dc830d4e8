//! Making the deques and the reaches of all workers.

ghost use Rattle.std.specs.Prelude.{◌≡◌, ◌<◌, ◌≤◌, [], All, IfOk, Some, length, map, slice_get, vec_len};
ghost use Rattle.crossbeam_deque.specs.Handles.{worker_deque};
ghost use Rattle.deque_reach.specs.Views.{new_view, new_views};
ghost use Rattle.deque_reach.specs.Reaches.{view_of, deques_of, probes_of, order_of, IsReachOf, AreReachesOf, IsNewOwnerOf, IsNewRowOf};

use crate::NoMemory;
use crate::begin::{begin, give_each};
use crate::deques::Deques;
use crate::lane::{Lane, Owner};
use crate::reach::Reach;
use std::alloc::Global;

/// The deques of so many workers, for families over so many probes whose tuples have at most `order` of them, and a
/// reach for each worker, in the order of their numbers.
pub fn make_deques(
    alloc: Global,
    workers: u32,
    probes: u32,
    order: u32,
) -> Result<(Deques, Vec<Reach>), NoMemory>
    requires some { 0 < workers }
    requires few { workers ≤ 64 }
    ensures workers { IfOk result (λ made. length (deques_of made.0) ≡ workers) }
    ensures probes { IfOk result (λ made. probes_of made.0 ≡ probes) }
    ensures order { IfOk result (λ made. order_of made.0 ≡ order) }
    ensures reaches { IfOk result (λ made. AreReachesOf made.0 made.1.items) }
    ensures views { IfOk result (λ made. map view_of made.1.items ≡ new_views workers probes order) }
{
    let mut rows = empty_rows(alloc, workers)?;
    let mut owners = Vec::new(alloc);
    let mut thieves = Vec::new(alloc);
    for _ in 0..workers {
        let mut owner = begin(alloc, probes, order)?;
        give_each(&mut owner, rows.as_mut_slice())?;
        thieves.push(owner.stealer()?)?;
        owners.push(owner)?;
    }
    let deques = Deques {
        thieves,
        probes,
        order,
    };
    let reaches = reaches(alloc, &deques, owners, rows)?;
    Ok((deques, reaches))
}

// A row for each worker, in which no lanes are yet.
fn empty_rows(alloc: Global, workers: u32) -> Result<Vec<Vec<Lane>>, NoMemory>
    ensures count { IfOk result (λ rows. vec_len rows ≡ workers) }
    ensures empty { IfOk result (λ rows. All (λ row. row.items ≡ []) rows.items) }
{
    let mut rows = Vec::new(alloc);
    for _ in 0..workers {
        rows.push(Vec::new(alloc))?;
    }
    Ok(rows)
}

// The reach of each worker, of its own deque and its row of lanes.
fn reaches(
    alloc: Global,
    deques: &Deques,
    owners: Vec<Owner>,
    rows: Vec<Vec<Lane>>,
) -> Result<Vec<Reach>, NoMemory>
    requires deques { map worker_deque owners.items ≡ deques_of deques.now }
    requires few { vec_len owners ≤ 64 }
    requires owners { All (IsNewOwnerOf (vec_len owners) deques.now) owners.items }
    requires rows { All (λ row. IsNewRowOf deques.now row.items) rows.items }
    requires count { vec_len rows ≡ vec_len owners }
    ensures reaches { IfOk result (λ v. AreReachesOf deques.now v.items) }
    ensures views { IfOk result
        (λ v. map view_of v.items ≡ new_views (vec_len owners) (probes_of deques.now) (order_of deques.now)) }
{
    let workers = owners.len() as u32;
    let mut owners = owners.into_iter();
    let mut rows = rows.into_iter();
    let mut reaches = Vec::new(alloc);
    for number in 0..workers {
        let Some(owner) = owners.next() else {
            unreachable!()
        };
        let Some(lanes) = rows.next() else {
            unreachable!()
        };
        reaches.push(new_reach(deques, number, owner, lanes))?;
    }
    Ok(reaches)
}

// The reach of a worker, of its own deque and its row of lanes.
fn new_reach(deques: &Deques, number: u32, owner: Owner, lanes: Vec<Lane>) -> Reach
    requires few { length (deques_of deques.now) ≤ 64 }
    requires own { slice_get (deques_of deques.now) number ≡ Some (worker_deque owner) }
    requires owner { IsNewOwnerOf (length (deques_of deques.now)) deques.now owner }
    requires lanes { IsNewRowOf deques.now lanes.items }
    ensures reach { IsReachOf deques.now result }
    ensures view { view_of result ≡ new_view (length (deques_of deques.now)) deques.now.probes deques.now.order number }
{
    Reach {
        number,
        owner,
        lanes,
        refused: 0,
    }
}

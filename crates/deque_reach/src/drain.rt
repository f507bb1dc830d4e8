//! Bringing the reaches together, and taking what is left in the deques.

ghost use Rattle.std.specs.Prelude.{◌≡◌, ◌<◌, ◌∷◌, [], true, All, IfOk, OnOk, map};
ghost use Rattle.std.specs.Vec.Iter.{into_iter_items};
ghost use Rattle.crossbeam_deque.specs.Handles.{worker_deque, worker_flavor, worker_view};
ghost use Rattle.deque_reach.specs.Fits.{Fits};
ghost use Rattle.deque_reach.specs.Rule.{all_parts};
ghost use Rattle.deque_reach.specs.Ends.{StartsTo, others, JoinsFirsts, Drains};
ghost use Rattle.deque_reach.specs.Reaches.{probes_of, order_of, AreReachesOf, IsLeft, IsLeftInEach};

use crate::NoMemory;
use crate::deques::Deques;
use crate::lane::{Lane, Owner};
use crate::reach::Reach;
use crate::rule::{DrainStep, Together};
use probe_family::Family;
use std::alloc::Global;
use std::vec::IntoIter;

/// What is left in the deques. It needs all reaches of these deques, in the order of their numbers.
pub fn drain_deques(
    alloc: Global,
    deques: Deques,
    reaches: Vec<Reach>,
) -> Result<Vec<Family>, NoMemory>
    requires { AreReachesOf deques reaches.items }
    ensures left { IfOk result (λ left. IsLeft reaches.items left.items) }
    ensures each { IfOk result (λ left. IsLeftInEach reaches.items left.items) }
    ensures fits { IfOk result (λ left. All (Fits (probes_of deques) (order_of deques)) left.items) }
{
    let (owners, mut rows) = take_apart(alloc, reaches)?;
    let mut left = Vec::new(alloc);
    for owner in owners {
        let mut owner = owner;
        join_firsts(&mut owner, rows.as_mut_slice());
        drain(&mut owner, &mut left)?;
    }
    Ok(left)
}

// The owners' sides of all deques, and the lanes of each reach.
fn take_apart(
    alloc: Global,
    reaches: Vec<Reach>,
) -> Result<(Vec<Owner>, Vec<IntoIter<Lane, Global>>), NoMemory>
    ensures owners { IfOk result (λ parts. parts.0.items ≡ map (λ r. r.owner) reaches.items) }
    ensures rows { IfOk result (λ parts. map into_iter_items parts.1.items ≡ map (λ r. r.lanes.items) reaches.items) }
{
    let mut owners = Vec::new(alloc);
    let mut rows = Vec::new(alloc);
    for reach in reaches {
        let Reach {
            number: _,
            owner,
            lanes,
            refused: _,
        } = reach;
        owners.push(owner)?;
        rows.push(lanes.into_iter())?;
    }
    Ok((owners, rows))
}

// Takes the first lane of each row into the owner's pass.
fn join_firsts(owner: &mut Owner, rows: &mut [IntoIter<Lane, Global>])
    requires owner { ((worker_view owner.old).begun ≡ true) × (0 < (worker_view owner.old).parts) }
    requires rows { All (λ row. StartsTo (worker_deque owner.old) (into_iter_items row)) rows.old }
    ensures owner { JoinsFirsts owner.old (map into_iter_items rows.old) owner.new }
    ensures rows { map into_iter_items rows.new ≡ map others (map into_iter_items rows.old) }
{
    for row in rows.iter_mut() {
        join_first(owner, row);
    }
}

// Takes the first lane of a row into the owner's pass.
fn join_first(owner: &mut Owner, row: &mut IntoIter<Lane, Global>)
    requires owner { ((worker_view owner.old).begun ≡ true) × (0 < (worker_view owner.old).parts) }
    requires row { StartsTo (worker_deque owner.old) (into_iter_items row.old) }
    ensures owner { JoinsFirsts owner.old (into_iter_items row.old ∷ []) owner.new }
    ensures row { into_iter_items row.new ≡ others (into_iter_items row.old) }
{
    let Some(lane) = row.next() else {
        unreachable!()
    };
    let Lane { pass, misses: _ } = lane;
    owner.absorb::<Together>(pass);
}

// Takes what is left in a deque whose owner has all passes together.
fn drain(owner: &mut Owner, left: &mut Vec<Family>) -> Result<(), NoMemory>
    requires fifo { worker_flavor owner.old ≡ 0 }
    requires whole { ((worker_view owner.old).begun ≡ true) × ((worker_view owner.old).parts ≡ all_parts) }
    ensures { OnOk result (Drains (worker_view owner.old) left.old.items left.new.items) }
{
    for _ in 0..u64::MAX {
        match owner.pop_as::<DrainStep>() {
            Some(family) => left.push(family)?,
            None => return Ok(()),
        }
    }
    unreachable!()
}

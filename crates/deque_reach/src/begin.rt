//! A new deque, and its passes for all workers.

ghost use Rattle.std.specs.Prelude.{◌≡◌, ◌<◌, true, length, IfOk, OnOk};
ghost use Rattle.crossbeam_deque.specs.Handles.{worker_deque, worker_flavor, worker_view};
ghost use Rattle.deque_reach.specs.Steps.{fresh, probes_told};
ghost use Rattle.deque_reach.specs.Lanes.{IsLaneTo};
ghost use Rattle.deque_reach.specs.Rows.{GivesParts, IsNewLane, GainsLane, EachGains};

use crate::NoMemory;
use crate::lane::{Lane, Owner};
use crate::rule::{BeginStep, OnePart, TellStep};
use bit_rows::BitRow;
use probe_family::{Family, Part, Parts};
use std::alloc::{AllocError, Global};

/// How many families a deque has room for at first.
const ROOM: usize = 16;

// The family that tells a deque what later ones fit.
fn telling_family(alloc: Global, probes: u32, order: u32) -> Result<Family, NoMemory>
    ensures { IfOk result (λ f. (probes_told f.parts ≡ probes) × (f.size ≡ order)) }
{
    let set = BitRow::make(alloc, probes)?;
    let mut parts = Vec::new(alloc);
    parts.push(Part { take: 1, set })?;
    Ok(Family {
        size: order,
        bound: 0,
        parts: Parts::from_vec(parts),
    })
}

/// An empty deque with its owner's pass alone, which was told what its families fit.
pub(crate) fn begin(alloc: Global, probes: u32, order: u32) -> Result<Owner, NoMemory>
    ensures fifo { IfOk result (λ owner. worker_flavor owner ≡ 0) }
    ensures view { IfOk result (λ owner. worker_view owner ≡ fresh probes order) }
{
    let family = telling_family(alloc, probes, order)?;
    let mut owner = Owner::fifo_as(alloc, ROOM)?;
    let Ok(()) = owner.push_as::<TellStep>(family) else {
        return Err(AllocError);
    };
    let Some(_) = owner.pop_as::<BeginStep>() else {
        unreachable!()
    };
    Ok(owner)
}

// A lane to the owner's deque.
fn new_lane(owner: &mut Owner) -> Lane
    requires { ((worker_view owner.old).begun ≡ true) × (1 < (worker_view owner.old).parts) }
    ensures owner { GivesParts 1 owner.old owner.new }
    ensures deque { IsLaneTo (worker_deque owner.old) result }
    ensures new { IsNewLane (worker_view owner.old).probes (worker_view owner.old).order result }
{
    let pass = owner.another::<OnePart>();
    Lane { pass, misses: 0 }
}

// One more lane in the row of a worker.
fn give(owner: &mut Owner, row: &mut Vec<Lane>) -> Result<(), NoMemory>
    requires { ((worker_view owner.old).begun ≡ true) × (1 < (worker_view owner.old).parts) }
    ensures owner { OnOk result (GivesParts 1 owner.old owner.new) }
    ensures row { OnOk result (GainsLane owner.old row.old row.new) }
{
    let lane = new_lane(owner);
    row.push(lane)?;
    Ok(())
}

/// One more lane in the row of each worker.
pub(crate) fn give_each(owner: &mut Owner, rows: &mut [Vec<Lane>]) -> Result<(), NoMemory>
    requires { ((worker_view owner.old).begun ≡ true) × (length rows.old < (worker_view owner.old).parts) }
    ensures owner { OnOk result (GivesParts (length rows.old) owner.old owner.new) }
    ensures rows { OnOk result (EachGains owner.old rows.old rows.new) }
{
    for row in rows.iter_mut() {
        give(owner, row)?;
    }
    Ok(())
}

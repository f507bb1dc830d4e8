//! A steal from each other deque.
ghost use Rattle.std.specs.Prelude.{◌≡◌, ◌-◌, ◌≤◌, ◌<◌, ◌⊎◌, length, IfNone, IfSome};
ghost use Rattle.std.specs.List.{range_with_len};
ghost use Rattle.deque_reach.specs.Fits.{Fits};
ghost use Rattle.deque_reach.specs.Reaches.{view_of, deques_of, IsReachOf, KeepsDeques};
ghost use Rattle.steal_frontier.specs.Tries.{others_of, MissesEach, StealsFrom};

use deque_reach::{Deques, Reach};
use probe_family::Family;

// One steal from each deque from one number up to another, until a family is stolen.
fn steal_among(reach: &mut Reach, deques: &Deques, from: u32, to: u32) -> Option<Family>
    requires deques { IsReachOf deques.now reach.old }
    requires range { from ≤ to }
    requires below { to ≤ length (deques_of deques.now) }
    requires others { ((view_of reach.old).number < from) ⊎ (to ≤ (view_of reach.old).number) }
    ensures deques { KeepsDeques reach.old reach.new }
    ensures stolen { IfSome result
        (λ f. StealsFrom (length (deques_of deques.now)) (view_of reach.old)
        (range_with_len from (to - from)) f (view_of reach.new)) }
    ensures fits { IfSome result (Fits (view_of reach.old).probes (view_of reach.old).order) }
    ensures missed { IfNone result (MissesEach (view_of reach.old) (range_with_len from (to - from)) (view_of reach.new)) }
{
    for deque in from..to {
        if let Some(family) = reach.steal(deques, deque) {
            return Some(family);
        }
    }
    None
}

/// One steal from each other deque, from the next number upwards and round, until a family is stolen.
pub(crate) fn steal_from_others(reach: &mut Reach, deques: &Deques) -> Option<Family>
    requires { IsReachOf deques.now reach.old }
    ensures deques { KeepsDeques reach.old reach.new }
    ensures stolen { IfSome result
        (λ f. StealsFrom (length (deques_of deques.now)) (view_of reach.old)
        (others_of (length (deques_of deques.now)) (view_of reach.old).number) f (view_of reach.new)) }
    ensures fits { IfSome result (Fits (view_of reach.old).probes (view_of reach.old).order) }
    ensures missed { IfNone result
        (MissesEach (view_of reach.old) (others_of (length (deques_of deques.now)) (view_of reach.old).number)
        (view_of reach.new)) }
{
    let number = reach.number();
    let workers = deques.workers();
    if let Some(family) = steal_among(reach, deques, number + 1, workers) {
        return Some(family);
    }
    steal_among(reach, deques, 0, number)
}

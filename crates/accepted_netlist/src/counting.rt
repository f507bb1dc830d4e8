//! The table that counts the tuples of probes.

ghost use Rattle.std.specs.Prelude.{◌≡◌, ◌≤◌, IfOk, MatchResult};
ghost use Rattle.circuit_types.specs.Causes.{IsRefusal};
ghost use Rattle.circuit_types.specs.Due.{IsClear, IsDue};
ghost use Rattle.circuit_types.specs.Probes.{most_probes};
ghost use Rattle.accepted_netlist.specs.Netlist.{tuple_causes};

use circuit_types::{Refusal, Stop, Which};
use std::alloc::Global;
use tuple_rank::{Binomials, CountStop};

/// The table for the tuples of at most `order` of so many probes. Refused: more than 2^62 tuples.
pub fn tuple_counts(alloc: Global, probes: u32, order: u32) -> Result<Binomials, Stop>
    requires few_probes { probes ≤ most_probes }
    requires some { 1 ≤ order }
    requires few { order ≤ 8 }
    ensures made { IfOk result (λ counts. counts ≡ record { n = probes; t = order }) }
    ensures cause { MatchResult result
        (λ counts. IsClear (tuple_causes probes order))
        (IsRefusal (IsDue (tuple_causes probes order))) }
{
    match Binomials::make(alloc, probes, order) {
        Ok(counts) => Ok(counts),
        Err(CountStop::TooManyTuples) => Err(Stop::Refused(Refusal::Limit(Which::Tuples))),
        Err(CountStop::NoMemory) => Err(Stop::NoMemory),
    }
}

//! The probes of a circuit, or a refusal.
ghost use Rattle.std.specs.Prelude.{◌≡◌, IfOk, MatchResult};
ghost use Rattle.circuit_types.specs.Causes.{IsRefusal};
ghost use Rattle.circuit_types.specs.DataSources.{IsWired};
ghost use Rattle.circuit_types.specs.Due.{IsClear, IsDue};
ghost use Rattle.circuit_types.specs.InputBits.{FitsNets};
ghost use Rattle.circuit_types.specs.Order.{IsLevelled};
ghost use Rattle.circuit_types.specs.Probes.{probe_list, probe_causes};

use crate::cones::seen_cones;
use crate::listing::Wires;
use crate::outputs::output_flags;
use crate::places::Places;
use crate::sources::probed_sources;
use circuit_types::{Circuit, Model, Probes, Refusal, Roles, Stop, Which};
use sequences::Sequence;
use std::alloc::Global;

/// The most probes that a circuit may have.
pub const MOST_PROBES: usize = 65_535;

/// The most sources that all probes together may see.
pub const MOST_SEEN: usize = 16_777_216;

/// The probes of a circuit with what each of them sees: cycle by cycle one on each input bit other than the clock and held
/// ones, in port order, and then one on each cell, in file order.
///
/// Refused: more probes than [`MOST_PROBES`]; or else, more sources seen by all of them together than [`MOST_SEEN`].
pub fn probes(alloc: Global, circuit: &Circuit, roles: &Roles, model: Model) -> Result<Probes, Stop>
    requires levelled { IsLevelled circuit.now }
    requires wired { IsWired circuit.now.nets }
    requires roles { FitsNets roles.now circuit.now.nets }
    ensures probes { IfOk result (λ p. p ≡ record { model = model; list = probe_list model roles.now circuit.now }) }
    ensures cause { MatchResult result
        (λ p. IsClear (probe_causes model roles.now circuit.now))
        (IsRefusal (IsDue (probe_causes model roles.now circuit.now))) }
{
    let nets = &circuit.nets;
    let cycles = circuit.timing.cycles();
    let sources = probed_sources(alloc, nets, roles)?;
    if sources.len() > MOST_PROBES / cycles as usize {
        return Err(Stop::Refused(Refusal::Limit(Which::Probes)));
    }
    let places = Places::new(alloc, nets, &sources)?;
    let most = MOST_SEEN / cycles as usize;
    let cones = seen_cones(alloc, circuit, &sources, &places, model, most)?;
    if cones.entries > most {
        return Err(Stop::Refused(Refusal::Limit(Which::Seen)));
    }
    let outputs = output_flags(alloc, nets, roles, &sources, &places)?;
    let wires = Wires {
        sources,
        outputs,
        cones: cones.into_lists(),
    };
    let list = wires.probes(alloc, nets, cycles)?;
    Ok(Probes {
        model,
        list: Sequence::from_vec(list),
    })
}

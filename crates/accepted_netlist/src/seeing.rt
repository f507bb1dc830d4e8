//! The steps from a tree to the probes on its circuit.

ghost use Rattle.std.specs.Prelude.{IfErr, IfOk, IsSome};
ghost use Rattle.circuit_types.specs.Causes.{IsRefusal};
ghost use Rattle.circuit_types.specs.Top.{top_of};
ghost use Rattle.verify_question.specs.Asking.{IsAsked};
ghost use Rattle.accepted_netlist.specs.Netlist.{IsRefusedTree};
ghost use Rattle.accepted_netlist.specs.Seen.{HasSeen};

use circuit_types::{Circuit, Probes, Roles, Stop, Tree};
use glitch_cone::probes;
use level_unroll::levels;
use net_build::build;
use share_notes::roles;
use std::alloc::Global;
use verify_question::Question;

/// What is seen of a netlist.
#[derive(Drop)]
pub struct Seen {
    /// What the notes on its ports say.
    pub roles: Roles,
    pub circuit: Circuit,
    pub probes: Probes,
}

/// What is seen of the netlist of a tree, or the refusal that is due before its tuples are counted.
pub fn see(alloc: Global, tree: &Tree<'_>, question: Question) -> Result<Seen, Stop>
    requires top { IsSome (top_of tree.now) }
    requires asked { IsAsked question }
    ensures seen { IfOk result (HasSeen question tree.now) }
    ensures refused { IfErr result (IsRefusal (IsRefusedTree question tree.now)) }
{
    let nets = build(alloc, tree)?;
    let roles = roles(alloc, tree, &nets)?;
    let circuit = levels(alloc, nets, &roles, question.timing)?;
    let probes = probes(alloc, &circuit, &roles, question.model)?;
    Ok(Seen {
        roles,
        circuit,
        probes,
    })
}

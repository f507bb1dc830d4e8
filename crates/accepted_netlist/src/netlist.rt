//! From the bytes of a netlist to its tree, and from what is seen of that to its instance.

ghost use Rattle.std.specs.Prelude.{◌≤◌, length, IfOk, IfErr, IsSome};
ghost use Rattle.rtlil_lex.specs.Tokens.{most_bytes};
ghost use Rattle.circuit_types.specs.Causes.{IsRefusal};
ghost use Rattle.circuit_types.specs.Top.{top_of};
ghost use Rattle.verify_question.specs.Asking.{IsAsked};
ghost use Rattle.accepted_netlist.specs.Netlist.{HasRefusal, IsRefusedTree};
ghost use Rattle.accepted_netlist.specs.Known.{IsKept, Keeps, KeepsTree};

use crate::counting::tuple_counts;
use crate::seeing::{Seen, see};
use circuit_types::{Circuit, Probes, Stop, Tree};
use expr_table::Instance;
use rtlil_tree::read_tree;
use std::alloc::Global;
use term_build::instance;
use tuple_rank::Binomials;
use verify_question::Question;

/// What is known of a netlist that is accepted.
#[derive(Drop)]
pub struct Accepted {
    pub circuit: Circuit,
    pub probes: Probes,
    /// Counts the tuples of at most as many probes as the order.
    pub counts: Binomials,
    pub instance: Instance,
}

/// The netlist of a tree, or the refusal that is due.
fn accept_tree(alloc: Global, tree: &Tree<'_>, question: Question) -> Result<Accepted, Stop>
    requires top { IsSome (top_of tree.now) }
    requires asked { IsAsked question }
    ensures accepted { IfOk result (KeepsTree question tree.now) }
    ensures known { IfOk result (IsKept question.order) }
    ensures refused { IfErr result (IsRefusal (IsRefusedTree question tree.now)) }
{
    let seen = see(alloc, tree, question)?;
    let listed = seen.probes.list.as_slice();
    let counts = tuple_counts(alloc, listed.len() as u32, question.order)?;
    let instance = instance(
        alloc,
        &seen.circuit,
        &seen.roles,
        &seen.probes,
        question.notion,
    )?;
    let Seen {
        circuit,
        probes,
        ..
    } = seen;
    Ok(Accepted {
        circuit,
        probes,
        counts,
        instance,
    })
}

/// The netlist whose text the bytes are, or the refusal that is due.
pub fn accept(alloc: Global, bytes: &[u8], question: Question) -> Result<Accepted, Stop>
    requires short { length bytes.now ≤ most_bytes }
    requires asked { IsAsked question }
    ensures accepted { IfOk result (Keeps question bytes.now) }
    ensures known { IfOk result (IsKept question.order) }
    ensures refused { IfErr result (IsRefusal (HasRefusal question bytes.now)) }
{
    let tree = read_tree(alloc, bytes)?;
    accept_tree(alloc, &tree, question)
}

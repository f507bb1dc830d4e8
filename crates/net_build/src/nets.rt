//! The nets of a tree.

ghost use Rattle.std.specs.Prelude.{◌≡◌, ◌<◌, ◌≤◌, ◌+◌, All, IfOk, IfErr, IsSome, length, slice_get};
ghost use Rattle.circuit_types.specs.DataSources.{IsWired};
ghost use Rattle.circuit_types.specs.Due.{IsClear, IsDue};
ghost use Rattle.circuit_types.specs.Items.{top_items as top_items_of, items_of, net_wires, cells, bit_count};
ghost use Rattle.circuit_types.specs.Nets.{most_bits, most_cells, net_causes, AreNets};
ghost use Rattle.circuit_types.specs.Top.{top_of};
ghost use Rattle.circuit_types.specs.declared.nets.Nets.{Nets as AnyNets};
ghost use Rattle.circuit_types.specs.declared.refusal.Refusal.{Refusal as AnyRefusal};
ghost use Rattle.net_build.specs.Built.{IsAccepted, AreReadEnds, AnswersNets, AnswersRefusal};
ghost use Rattle.net_build.specs.Names.{printed_name};
ghost use Rattle.net_build.specs.Stops.{IfRefused};

use crate::cells::net_cells;
use crate::form::{checked_ports, limited_wires};
use crate::name::name_in;
use crate::net_sources::net_sources;
use crate::reads::{read_faults, read_refusal};
use crate::wires::Wires;
use circuit_types::{Item, Module, NetCell, NetWire, Nets, NoMemory, Source, Stop, Tree, top};
use sequences::Sequence;
use std::alloc::Global;

/// The nets of the module that is verified, or the refusal that is due.
///
/// No connect is written out bit by bit before all limits, names, widths and ports are looked at.
pub fn build(alloc: Global, tree: &Tree<'_>) -> Result<Nets, Stop>
    requires { IsSome (top_of tree.now) }
    // What is answered holds of the module.
    ensures nets { IfOk result (λ nets. AreNets (top_items_of tree.now) nets) }
    ensures clear { IfOk result (λ nets. IsClear (net_causes (top_items_of tree.now))) }
    ensures wired { IfOk result IsWired }
    ensures read_ends { IfOk result (AreReadEnds (top_items_of tree.now)) }
    ensures refused { IfErr result (λ stop. IfRefused stop (IsDue (net_causes (top_items_of tree.now)))) }

    // What holds of the module is answered, unless memory was refused.
    ensures all_nets { (nets : AnyNets) → AreNets (top_items_of tree.now) nets
        → IsClear (net_causes (top_items_of tree.now)) → AnswersNets result nets }
    ensures all_refusals { (refusal : AnyRefusal) → IsDue (net_causes (top_items_of tree.now)) refusal
        → AnswersRefusal result refusal }
{
    nets_of(alloc, top_items(tree))
}

/// The statements of the module that is verified.
fn top_items<'t, 'a>(tree: &'t Tree<'a>) -> &'t [Item<'a>]
    requires { IsSome (top_of tree.now) }
    ensures { result.now ≡ top_items_of tree.now }
{
    match top(tree) {
        None => Default::default(),
        Some(place) => items_at(tree.modules.as_slice(), place),
    }
}

fn items_at<'t, 'a>(modules: &'t [Module<'a>], place: usize) -> &'t [Item<'a>]
    ensures { result.now ≡ items_of (slice_get modules.now place) }
{
    match modules.get(place) {
        None => Default::default(),
        Some(unit) => unit.items.as_slice(),
    }
}

/// The nets of a module, or the refusal that is due.
fn nets_of(alloc: Global, items: &[Item<'_>]) -> Result<Nets, Stop>
    ensures nets { IfOk result (IsAccepted items.now) }
    ensures refused { IfErr result (λ stop. IfRefused stop (IsDue (net_causes items.now))) }
{
    let wires = limited_wires(alloc, items)?;
    let (sources, cells) = sources_and_cells(alloc, wires.as_slice(), items)?;
    Ok(Nets {
        wires: Sequence::from_vec(wires),
        sources: Sequence::from_vec(sources),
        cells: Sequence::from_vec(cells),
    })
}

/// Where each bit ends, and the kept cells, or the refusal that is due by names, widths and ports, by what drives bits
/// and by what is read.
fn sources_and_cells(
    alloc: Global,
    list: &[NetWire],
    items: &[Item<'_>],
) -> Result<(Vec<Source>, Vec<NetCell>), Stop>
    requires wires { list.now ≡ net_wires items.now }
    requires within { All (λ w. w.first + w.width ≤ most_bits) list.now }
    requires few_bits { bit_count list.now ≤ most_bits }
    requires few_cells { length (cells items.now) ≤ most_cells }
    ensures nets { IfOk result (λ p.
        IsAccepted items.now (record { wires = list.now; sources = p.0.items; cells = p.1.items })) }
    ensures refused { IfErr result (λ stop. IfRefused stop (IsDue (net_causes items.now))) }
{
    let wires = Wires::new(alloc, list)?;
    let ports = checked_ports(alloc, &wires, items)?;
    let sources = net_sources(alloc, &wires, items, &ports)?;
    let cells = net_cells(alloc, sources.as_slice(), &ports)?;
    let faults = read_faults(list, sources.as_slice(), cells.as_slice());
    if let Some(refusal) = read_refusal(faults) {
        return Err(Stop::Refused(refusal));
    }
    Ok((sources, cells))
}

/// The printed name of a bit of a netlist: the name of its wire without a leading backslash, and, where the wire's width
/// is not 1, its place in brackets.
pub fn name_of(alloc: Global, nets: &Nets, bit: u32) -> Result<Vec<u8>, NoMemory>
    requires { bit < length nets.now.sources }
    ensures { IfOk result (λ name. name.items ≡ printed_name nets.now.wires bit) }
{
    name_in(alloc, nets.wires.as_slice(), bit)
}

//! The limits, names, widths and ports of a module.

ghost use Rattle.std.specs.Prelude.{◌≡◌, ◌+◌, ◌≤◌, List, [], ◌∷◌, ◌++◌, None, All, length, IfOk, IfErr};
ghost use Rattle.circuit_types.specs.Due.{IsClear, IsDue};
ghost use Rattle.circuit_types.specs.Items.{net_wires as net_wires_of, cells, kept_cells, bit_count};
ghost use Rattle.circuit_types.specs.Nets.{links, most_bits, most_cells};
ghost use Rattle.circuit_types.specs.declared.tree.Item.{Item as AnyItem};
ghost use Rattle.net_build.specs.Faults.{faults_in, AreFaults, refusal_in};
ghost use Rattle.net_build.specs.Form.{form_causes};
ghost use Rattle.net_build.specs.Ports.{KnowsPorts};
ghost use Rattle.net_build.specs.Stops.{IfRefused};

use crate::faults::{Faults, both, cell_count, item_faults, kind_in, refusal_of};
use crate::ports::Ports;
use crate::wires::{Wires, net_wires};
use circuit_types::{Item, NetWire, NoMemory, Refusal, Stop, Which};
use std::alloc::Global;

/// The most cells that a module may have.
const MOST_CELLS: usize = 1_048_576;

/// The wires of a module with the numbers of their bits, or the refusal that is due where it lies in the limits on
/// bits and cells.
pub fn limited_wires(alloc: Global, items: &[Item<'_>]) -> Result<Vec<NetWire>, Stop>
    ensures wires { IfOk result (λ ws. ws.items ≡ net_wires_of items.now) }
    ensures within { IfOk result (λ ws. All (λ w. w.first + w.width ≤ most_bits) ws.items) }
    ensures few_bits { IfOk result (λ ws. bit_count ws.items ≤ most_bits) }
    ensures few_cells { IfOk result (λ ws. length (cells items.now) ≤ most_cells) }
    ensures due { IfErr result (λ stop. IfRefused stop (IsDue (form_causes items.now))) }
{
    let wires = net_wires(alloc, items)?;
    if cell_count(items) > MOST_CELLS {
        return Err(Stop::Refused(Refusal::Limit(Which::Cells)));
    }
    Ok(wires)
}

/// The kept cells of a module with the bits on their ports, or the refusal that is due where it lies in the names,
/// widths or ports.
pub fn checked_ports(alloc: Global, wires: &Wires<'_>, items: &[Item<'_>]) -> Result<Ports, Stop>
    requires wires { wires.now.list.now ≡ net_wires_of items.now }
    requires few_bits { bit_count wires.now.list.now ≤ most_bits }
    requires few_cells { length (cells items.now) ≤ most_cells }
    ensures ports { IfOk result (KnowsPorts wires.now.list.now (kept_cells items.now)) }
    ensures clear { IfOk result (λ _. IsClear (form_causes items.now)) }
    ensures due { IfErr result (λ stop. IfRefused stop (IsDue (form_causes items.now))) }
{
    let mut ports = Ports::new(alloc);
    let faults = check_all(wires, items, &mut ports)?;
    if let Some(refusal) = refusal_of(faults) {
        return Err(Stop::Refused(refusal));
    }
    Ok(ports)
}

/// What is wrong with all items. As long as nothing is, the kept cells are put.
fn check_all(
    wires: &Wires<'_>,
    items: &[Item<'_>],
    ports: &mut Ports,
) -> Result<Option<Faults>, NoMemory>
    requires { ports.old.cells.items ≡ [] }
    ensures faults { IfOk result (λ f. AreFaults (links wires.now.list.now items.now) (kept_cells items.now) (faults_in f)) }
    ensures ports { IfOk result (λ f. refusal_in (faults_in f) ≡ None
        → KnowsPorts wires.now.list.now (kept_cells items.now) ports.new) }
{
    let mut faults = None;
    for item in items {
        faults = check_item(wires, item, faults, ports)?;
    }
    Ok(faults)
}

/// What is wrong with an item and those before it, of which that was wrong. As long as nothing is, the kept cells are
/// put. So no signal is written out bit by bit before it is looked at, nor behind the first that is refused; and a port of
/// a cell that is put has one bit.
fn check_item(
    wires: &Wires<'_>,
    item: &Item<'_>,
    before: Option<Faults>,
    ports: &mut Ports,
) -> Result<Option<Faults>, NoMemory>
    ensures faults { IfOk result (λ f. (xs : List AnyItem)
        → AreFaults (links wires.now.list.now xs) (kept_cells xs) (faults_in before)
        → AreFaults (links wires.now.list.now (xs ++ item.now ∷ [])) (kept_cells (xs ++ item.now ∷ [])) (faults_in f)) }
    ensures ports { IfOk result (λ f. (xs : List AnyItem)
        → (refusal_in (faults_in before) ≡ None → KnowsPorts wires.now.list.now (kept_cells xs) ports.old)
        → refusal_in (faults_in f) ≡ None → KnowsPorts wires.now.list.now (kept_cells (xs ++ item.now ∷ [])) ports.new) }
{
    let kind = kind_in(item);
    let faults = both(before, item_faults(wires, item, kind));
    if refusal_of(faults).is_some() {
        return Ok(faults);
    }
    ports.push_item(wires, item, kind)?;
    Ok(faults)
}

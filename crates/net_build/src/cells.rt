//! The kept cells of a module, with what their inputs read.

ghost use Rattle.std.specs.Prelude.{◌≡◌, ◌++◌, List, map, slice_index_or, IfOk, OnOk};
ghost use Rattle.std.specs.List.{flat_map};
ghost use Rattle.circuit_types.specs.Nets.{end_in, first_net as first_net_of, net_cell as net_cell_of};
ghost use Rattle.circuit_types.specs.declared.nets.NetWire.{NetWire as AnyWire};
ghost use Rattle.circuit_types.specs.declared.nets.Source.TheVariants as source;
ghost use Rattle.circuit_types.specs.declared.tree.Cell.{Cell as AnyCell};
ghost use Rattle.net_build.specs.Ports.{pin_at, IsPortCell, KnowsPorts};

use crate::ports::{PortBit, PortCell, Ports, run_of};
use circuit_types::{NetCell, NoMemory, Pin, SignalBit, Source};
use sequences::Sequence;
use std::alloc::Global;

/// The kept cells of known kinds, each with what its inputs read and the bit on its output, by where the bits end.
pub fn net_cells(alloc: Global, sources: &[Source], ports: &Ports) -> Result<Vec<NetCell>, NoMemory>
    ensures { (ws : List AnyWire) (cs : List AnyCell) → KnowsPorts ws cs ports.now
        → IfOk result (λ v. v.items ≡ flat_map (net_cell_of ws sources.now) cs) }
{
    let mut cells = Vec::with_capacity(alloc, ports.cells.len())?;
    for cell in &ports.cells {
        push_cell(alloc, sources, ports, cell, &mut cells)?;
    }
    Ok(cells)
}

/// Puts the cell behind others, if its kind is known.
fn push_cell(
    alloc: Global,
    sources: &[Source],
    ports: &Ports,
    cell: &PortCell,
    cells: &mut Vec<NetCell>,
) -> Result<(), NoMemory>
    ensures { (ws : List AnyWire) (c : AnyCell) → IsPortCell ws ports.now.reads.items ports.now.outputs.items c cell.now
        → OnOk result (cells.new.items ≡ cells.old.items ++ net_cell_of ws sources.now c) }
{
    let Some(kind) = cell.kind else {
        return Ok(());
    };
    let pins = pins_of(alloc, sources, run_of(&ports.reads, cell.inputs))?;
    cells.push(NetCell {
        line: cell.line,
        kind,
        pins: Sequence::from_vec(pins),
        output: first_net(run_of(&ports.outputs, cell.output)),
    })?;
    Ok(())
}

/// What inputs that read these bits read.
fn pins_of(alloc: Global, sources: &[Source], reads: &[PortBit]) -> Result<Vec<Pin>, NoMemory>
    ensures { IfOk result (λ pins. pins.items ≡ map (pin_at sources.now) reads.now) }
{
    let mut pins = Vec::with_capacity(alloc, reads.len())?;
    for read in reads {
        pins.push(Pin {
            line: read.line,
            source: end_of(sources, read.bit),
        })?;
    }
    Ok(pins)
}

/// Where the bit ends, by where the bits of wires end.
pub fn end_of(sources: &[Source], bit: SignalBit) -> Source
    ensures { result ≡ end_in sources.now bit }
{
    match bit {
        SignalBit::Net(bit) => end_of_net(sources, bit as usize),
        SignalBit::Zero => Source::Zero,
        SignalBit::One => Source::One,
        SignalBit::Unknown => Source::Unknown,
    }
}

fn end_of_net(sources: &[Source], bit: usize) -> Source
    ensures { result ≡ slice_index_or sources.now bit source.Missing }
{
    sources.get(bit).copied().unwrap_or(Source::Missing)
}

/// The number of the first bit, which is a wire's.
fn first_net(bits: &[SignalBit]) -> u32
    ensures { result ≡ first_net_of bits.now }
{
    match bits {
        [SignalBit::Net(bit), ..] => *bit,
        _ => 0,
    }
}

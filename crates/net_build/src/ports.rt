//! The kept cells of a module, with the bits on the ports of their kinds.

ghost use Rattle.std.specs.Prelude.{◌≡◌, ◌≤◌, [], ◌∷◌, ◌++◌, List, Some, All, length, map, slice_range, IfOk, OnOk};
ghost use Rattle.std.specs.Option.{option_copied};
ghost use Rattle.cell_kinds.specs.Names.{kind_named};
ghost use Rattle.circuit_types.specs.Items.{kept_cells};
ghost use Rattle.circuit_types.specs.Drives.{connect_of as connect_of_port, output_connect as output_connect_of};
ghost use Rattle.circuit_types.specs.Reads.{letters, connect_reads, cell_reads};
ghost use Rattle.circuit_types.specs.Signals.{shape};
ghost use Rattle.circuit_types.specs.declared.tree.Cell.{Cell as AnyCell};
ghost use Rattle.net_build.specs.Good.{AreGoodPorts, IsGoodItem};
ghost use Rattle.net_build.specs.Ports.{port_bit, kind_in, output_line, output_bits, KnowsNext, KnowsPorts};
ghost use Rattle.circuit_types.specs.declared.nets.NetWire.{NetWire};
ghost use Rattle.net_build.specs.Shapes.{IsGood};

use crate::expand::push_signal;
use crate::faults::{connect_of, is_kept};
use crate::wires::Wires;
use cell_kinds::{CellKind, inputs, output_port};
use circuit_types::{Cell, Item, NoMemory, PortConnect, SignalBit};
use std::alloc::Global;

/// A bit that an input of a cell reads.
#[derive(Clone, Copy)]
pub struct PortBit {
    /// The line of its connect.
    pub line: u32,
    pub bit: SignalBit,
}

/// Some elements of a list, from the first place on to before the end.
#[derive(Clone, Copy)]
pub struct Run {
    pub first: usize,
    pub end: usize,
}

/// A kept cell.
#[derive(Clone, Copy)]
pub struct PortCell {
    pub line: u32,
    /// Its kind, if that is known.
    pub kind: Option<CellKind>,
    /// Which bits its inputs read, in the order of the cell table.
    pub inputs: Run,
    /// The line of the connect of its output.
    pub output_line: u32,
    /// Which bits its output drives.
    pub output: Run,
}

/// The kept cells of a module, in file order, with the bits on their ports.
#[derive(Drop)]
pub struct Ports {
    pub cells: Vec<PortCell>,
    /// The bits that the inputs of all cells read.
    pub reads: Vec<PortBit>,
    /// The bits that the outputs of all cells drive.
    pub outputs: Vec<SignalBit>,
    /// Room for the bits of one signal.
    pub bits: Vec<SignalBit>,
}

/// The elements of a run.
pub fn run_of<T>(list: &[T], run: Run) -> &[T]
    ensures { run.first ≤ run.end → run.end ≤ length list.now → result.now ≡ slice_range list.now run.first run.end }
{
    match list.get(run.first..run.end) {
        Some(elements) => elements,
        None => &[],
    }
}

impl Ports {
    /// No cells.
    pub fn new(alloc: Global) -> Ports
        ensures { result.cells.items ≡ [] }
    {
        Ports {
            cells: Vec::new(alloc),
            reads: Vec::new(alloc),
            outputs: Vec::new(alloc),
            bits: Vec::new(alloc),
        }
    }

    /// The line of the connect of the output of the cell with that number, and the bits that it drives.
    pub fn output(&self, number: u32) -> (u32, &[SignalBit])
        ensures { (ws : List NetWire) (c : AnyCell) → KnowsNext ws (c ∷ []) number self.now
            → (result.0 ≡ output_line (output_connect_of c (kind_named c.kind)))
            × (result.1.now ≡ output_bits ws (output_connect_of c (kind_named c.kind))) }
    {
        match self.cells.get(number as usize) {
            Some(cell) => (cell.output_line, run_of(&self.outputs, cell.output)),
            None => (0, &[]),
        }
    }

    /// Puts the cell of that kind that the item may be behind others, if it is kept.
    pub fn push_item(
        &mut self,
        wires: &Wires<'_>,
        item: &Item<'_>,
        kind: Option<CellKind>,
    ) -> Result<(), NoMemory>
        requires good { IsGoodItem wires.now.list.now item.now }
        requires kind { kind ≡ kind_in item.now }
        ensures { OnOk result ((cs : List AnyCell) → KnowsPorts wires.now.list.now cs self.old
            → KnowsPorts wires.now.list.now (cs ++ kept_cells (item.now ∷ [])) self.new) }
    {
        match item {
            Item::Cell(cell) => {
                if is_kept(cell) {
                    self.push_cell(wires, cell, kind)
                } else {
                    Ok(())
                }
            }
            _ => Ok(()),
        }
    }

    /// Puts a cell of that kind behind others.
    fn push_cell(
        &mut self,
        wires: &Wires<'_>,
        cell: &Cell<'_>,
        kind: Option<CellKind>,
    ) -> Result<(), NoMemory>
        requires good { AreGoodPorts wires.now.list.now cell.now.connects }
        requires kind { kind ≡ kind_named cell.now.kind }
        ensures { OnOk result ((cs : List AnyCell) → KnowsPorts wires.now.list.now cs self.old
            → KnowsPorts wires.now.list.now (cs ++ cell.now ∷ []) self.new) }
    {
        let inputs = push_inputs(wires, cell, kind, &mut self.bits, &mut self.reads)?;
        let output = self.outputs.len();
        let output_line = push_output(wires, cell, kind, &mut self.outputs)?;
        self.cells.push(PortCell {
            line: cell.line,
            kind,
            inputs,
            output_line,
            output: Run {
                first: output,
                end: self.outputs.len(),
            },
        })?;
        Ok(())
    }
}

/// Puts the bits that the inputs of a cell of that kind read behind others; answers which they are. `bits` is room for
/// the bits of one port.
fn push_inputs(
    wires: &Wires<'_>,
    cell: &Cell<'_>,
    kind: Option<CellKind>,
    bits: &mut Vec<SignalBit>,
    reads: &mut Vec<PortBit>,
) -> Result<Run, NoMemory>
    requires good { AreGoodPorts wires.now.list.now cell.now.connects }
    requires kind { kind ≡ kind_named cell.now.kind }
    ensures reads { OnOk result (reads.new.items ≡ reads.old.items ++ map port_bit (cell_reads wires.now.list.now cell.now)) }
    ensures run { IfOk result (λ run. run ≡ record { first = length reads.old.items; end = length reads.new.items }) }
{
    let first = reads.len();
    for letter in input_letters(kind) {
        push_port(wires, cell, *letter, bits, reads)?;
    }
    Ok(Run {
        first,
        end: reads.len(),
    })
}

/// The letters of the input ports of a kind.
fn input_letters(kind: Option<CellKind>) -> &'static [u8]
    ensures { result.now ≡ letters kind }
{
    match kind {
        None => &[],
        Some(kind) => inputs(kind),
    }
}

/// The connect of the output port of a cell of that kind.
fn output_connect<'c, 'a>(cell: &'c Cell<'a>, kind: Option<CellKind>) -> Option<&'c PortConnect<'a>>
    ensures { option_copied result ≡ output_connect_of cell.now kind }
{
    match kind {
        None => None,
        Some(kind) => connect_of(cell, output_port(kind)),
    }
}

/// Puts what the input port of that letter reads behind others.
fn push_port(
    wires: &Wires<'_>,
    cell: &Cell<'_>,
    letter: u8,
    bits: &mut Vec<SignalBit>,
    reads: &mut Vec<PortBit>,
) -> Result<(), NoMemory>
    requires { AreGoodPorts wires.now.list.now cell.now.connects }
    ensures { OnOk result (reads.new.items
        ≡ reads.old.items ++ map port_bit (connect_reads wires.now.list.now (connect_of_port cell.now letter))) }
{
    let Some(connect) = connect_of(cell, letter) else {
        return Ok(());
    };
    push_reads(wires, connect, bits, reads)
}

/// Puts what is read through a connect behind others.
fn push_reads(
    wires: &Wires<'_>,
    connect: &PortConnect<'_>,
    bits: &mut Vec<SignalBit>,
    reads: &mut Vec<PortBit>,
) -> Result<(), NoMemory>
    requires { IsGood (shape wires.now.list.now connect.now.signal) }
    ensures { OnOk result (reads.new.items
        ≡ reads.old.items ++ map port_bit (connect_reads wires.now.list.now (Some connect.now))) }
{
    bits.clear();
    push_signal(wires, &connect.signal, bits)?;
    for bit in bits.as_slice() {
        reads.push(PortBit {
            line: connect.line,
            bit: *bit,
        })?;
    }
    Ok(())
}

/// Puts the bits on the output of a cell of that kind behind others; answers the line of their connect.
fn push_output(
    wires: &Wires<'_>,
    cell: &Cell<'_>,
    kind: Option<CellKind>,
    outputs: &mut Vec<SignalBit>,
) -> Result<u32, NoMemory>
    requires good { AreGoodPorts wires.now.list.now cell.now.connects }
    requires kind { kind ≡ kind_named cell.now.kind }
    ensures line { IfOk result (λ line. line ≡ output_line (output_connect_of cell.now (kind_named cell.now.kind))) }
    ensures bits { OnOk result (outputs.new.items ≡ outputs.old.items
        ++ output_bits wires.now.list.now (output_connect_of cell.now (kind_named cell.now.kind))) }
{
    let Some(connect) = output_connect(cell, kind) else {
        return Ok(0);
    };
    push_signal(wires, &connect.signal, outputs)?;
    Ok(connect.line)
}

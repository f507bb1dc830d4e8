//! What a netlist's wires and cells are joined to.

ghost use Rattle.std.specs.Prelude.{◌≡◌, ◌<◌, length, slice_get, Some};

use crate::tree::Port;
use cell_kinds::CellKind;
use sequences::Sequence;

/// One bit of a signal.
#[derive(Clone, Copy, Debug, PartialEq, Eq)]
pub enum SignalBit {
    /// A bit of a wire, by its number: the bits of all wires are numbered wire by wire in file order,
    /// from place 0 of each wire.
    Net(u32),
    Zero,
    One,
    /// A constant bit that is neither 0 nor 1.
    Unknown,
}

/// Where a bit ends, followed back through the connects.
#[derive(Clone, Copy, Debug, PartialEq, Eq)]
pub enum Source {
    /// This bit of an input wire, by its number.
    Input(u32),
    /// The output of this kept cell. Kept cells are numbered in file order.
    Cell(u32),
    Zero,
    One,
    /// A constant bit that is neither 0 nor 1.
    Unknown,
    /// Nowhere: it has no driver, or its connects go round.
    Missing,
}

/// The wires, bits and kept cells of a module.
#[derive(Debug, Drop)]
pub struct Nets {
    /// In file order.
    pub wires: Sequence<NetWire>,
    /// Where each bit ends.
    pub sources: Sequence<Source>,
    /// The kept cells, in file order.
    pub cells: Sequence<NetCell>,
}

/// A wire, and which bits are its own.
#[derive(Debug, Drop)]
pub struct NetWire {
    pub line: u32,
    pub name: Sequence<u8>,
    /// The number of its bit at place 0.
    pub first: u32,
    pub width: u32,
    pub port: Port,
}

/// A cell of a known kind.
#[derive(Debug, Drop)]
pub struct NetCell {
    pub line: u32,
    pub kind: CellKind,
    /// What its inputs read, in the order of the cell table.
    pub pins: Sequence<Pin>,
    /// The bit that its output drives.
    pub output: u32,
}

/// What an input of a cell reads.
#[derive(Clone, Copy, Debug, PartialEq, Eq)]
pub struct Pin {
    /// The line of its connect.
    pub line: u32,
    pub source: Source,
}

/// Where a bit ends.
pub fn source_of(nets: &Nets, bit: u32) -> Source
    requires { bit < length nets.now.sources }
    ensures { slice_get nets.now.sources bit ≡ Some result }
{
    nets.sources.as_slice()[bit as usize]
}

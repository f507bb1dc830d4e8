//! Items put one after another.

ghost use Rattle.std.specs.Prelude.{◌≡◌, [], ◌∷◌, ◌++◌, ◌+◌, ◌^◌, ◌<◌, IfOk, OnOk};
ghost use Rattle.circuit_types.specs.declared.signal.Signal.TheVariants as signal;
ghost use Rattle.circuit_types.specs.declared.signal.Value.TheVariants as value;
ghost use Rattle.circuit_types.specs.declared.tree.Item.TheVariants as item;
ghost use Rattle.gadget_maker.specs.Gadget.{note, port_wire, inner_wire, cell_on, cell_name as cell_name_of, gate, register};
ghost use Rattle.gadget_maker.specs.Listed.{on_port, Puts, HasRoom};

use crate::signals::{cell_name, wire};
use circuit_types::{
    Attribute, Cell, Item, Name, NoMemory, Port, PortConnect, Signal, Value, Wire,
};
use sequences::Sequence;
use std::alloc::Global;

/// The items so far.
#[derive(Drop)]
pub struct Listing {
    pub items: Vec<Item<'static>>,
    /// The number of the line on which the next item begins.
    pub line: u32,
    /// The number of the next cell.
    pub cells: u32,
}

/// The note on a port.
fn note(alloc: Global, text: &[u8]) -> Result<Attribute<'static>, NoMemory>
    ensures { IfOk result (λ attribute. attribute ≡ note text.now) }
{
    Ok(Attribute {
        name: Name::in_text(b"\\mask"),
        value: Value::Text(Sequence::from_vec(Vec::from_slice(alloc, text)?)),
    })
}

fn connect(line: u32, port: &'static [u8], signal: Signal<'static>) -> PortConnect<'static>
    ensures { result ≡ on_port line port.now signal.entry }
{
    PortConnect {
        line,
        port: Name::in_text(port),
        signal,
    }
}

/// The connects of a cell's ports, from a line on.
fn connects(
    alloc: Global,
    line: u32,
    ports: (&'static [u8], &'static [u8], &'static [u8]),
    signals: (Signal<'static>, Signal<'static>, Signal<'static>),
) -> Result<Vec<PortConnect<'static>>, NoMemory>
    requires { line + 2 < 2 ^ 32 }
    ensures { IfOk result (λ list. list.items
        ≡ on_port line ports.entry.0.now signals.entry.0
        ∷ on_port (line + 1) ports.entry.1.now signals.entry.1
        ∷ on_port (line + 2) ports.entry.2.now signals.entry.2 ∷ []) }
{
    let (first, second, third) = signals;
    let mut list = Vec::new(alloc);
    list.push(connect(line, ports.0, first))?;
    list.push(connect(line + 1, ports.1, second))?;
    list.push(connect(line + 2, ports.2, third))?;
    Ok(list)
}

impl Listing {
    /// Puts a port's wire, with its note.
    pub fn put_port(
        &mut self,
        alloc: Global,
        name: &'static [u8],
        width: u32,
        port: Port,
        text: &[u8],
    ) -> Result<(), NoMemory>
        requires { HasRoom self.old 1 }
        ensures { OnOk result (Puts self.old self.new 1 (port_wire name.now width port text.now ∷ [])) }
    {
        let mut attributes = Vec::new(alloc);
        attributes.push(note(alloc, text)?)?;
        self.items.push(Item::Wire(Wire {
            line: self.line + 1,
            name: Name::in_text(name),
            attributes: Sequence::from_vec(attributes),
            width,
            offset: 0,
            port,
            upto: false,
            signed: false,
        }))?;
        self.line += 2;
        Ok(())
    }

    /// Puts an inner wire of one bit.
    pub fn put_inner(&mut self, alloc: Global, name: Name<'static>) -> Result<(), NoMemory>
        requires { HasRoom self.old 1 }
        ensures { OnOk result (Puts self.old self.new 1 (inner_wire name.entry ∷ [])) }
    {
        self.items.push(Item::Wire(Wire {
            line: self.line,
            name,
            attributes: Sequence::from_vec(Vec::new(alloc)),
            width: 1,
            offset: 0,
            port: Port::Inner,
            upto: false,
            signed: false,
        }))?;
        self.line += 1;
        Ok(())
    }

    /// Puts a cell with three ports.
    fn put_cell(
        &mut self,
        alloc: Global,
        kind: &'static [u8],
        ports: (&'static [u8], &'static [u8], &'static [u8]),
        signals: (Signal<'static>, Signal<'static>, Signal<'static>),
    ) -> Result<(), NoMemory>
        requires { HasRoom self.old 1 }
        ensures listed { OnOk result (self.new.items.items ≡ self.old.items.items
            ++ item.Cell (cell_on self.old.line kind.now (cell_name_of self.old.cells)
            (on_port (self.old.line + 1) ports.entry.0.now signals.entry.0
            ∷ on_port (self.old.line + 1 + 1) ports.entry.1.now signals.entry.1
            ∷ on_port (self.old.line + 1 + 2) ports.entry.2.now signals.entry.2 ∷ [])) ∷ []) }
        ensures line { OnOk result (self.new.line ≡ self.old.line + 5) }
        ensures cells { OnOk result (self.new.cells ≡ self.old.cells + 1) }
    {
        let connects = connects(alloc, self.line + 1, ports, signals)?;
        let name = cell_name(alloc, self.cells)?;
        self.items.push(Item::Cell(Cell {
            line: self.line,
            kind: Name::in_text(kind),
            name,
            attributes: Sequence::from_vec(Vec::new(alloc)),
            parameters: Sequence::from_vec(Vec::new(alloc)),
            connects: Sequence::from_vec(connects),
        }))?;
        self.line += 5;
        self.cells += 1;
        Ok(())
    }

    /// Puts a gate of two inputs.
    pub fn put_gate(
        &mut self,
        alloc: Global,
        kind: &'static [u8],
        a: Signal<'static>,
        b: Signal<'static>,
        y: Signal<'static>,
    ) -> Result<(), NoMemory>
        requires { HasRoom self.old 1 }
        ensures { OnOk result (Puts self.old self.new 1 (gate kind.now a.entry b.entry y.entry ∷ [])) }
    {
        self.put_cell(alloc, kind, (b"\\A", b"\\B", b"\\Y"), (a, b, y))
    }

    /// Puts a flip-flop.
    pub fn put_register(
        &mut self,
        alloc: Global,
        d: Signal<'static>,
        q: Signal<'static>,
    ) -> Result<(), NoMemory>
        requires { HasRoom self.old 1 }
        ensures { OnOk result (Puts self.old self.new 1 (register d.entry q.entry ∷ [])) }
    {
        let clock = wire(b"\\clk");
        self.put_cell(alloc, b"$_DFF_P_", (b"\\C", b"\\D", b"\\Q"), (clock, d, q))
    }
}

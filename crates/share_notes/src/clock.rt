//! The clock, and what reads it.
ghost use Rattle.std.specs.Prelude.{◌≡◌, ◌+◌, ◌++◌, ◌||◌, [], ◌∷◌, ℕ, slice_index_or, IfOk, OnOk};
ghost use Rattle.std.specs.List.{list_any, flat_map, range_with_len};
ghost use Rattle.std.specs.Ordering.{nat_cmp};
ghost use Rattle.std.specs.BTreeSet.{contains};
ghost use Rattle.circuit_types.specs.Order.{has};
ghost use Rattle.circuit_types.specs.declared.nets.Source.TheVariants.{Missing};
ghost use Rattle.share_notes.specs.Lines.{wire_lines};
ghost use Rattle.share_notes.specs.Clocks.{is_clock_mark, is_clock as is_clock_wire, clock_bits, further_clocks as further_clocks_of, is_clock_pin, is_misread as is_misread_by, misread_pins, ends_at_clock as ends_at_clock_by, misread_wires, clock_lines as clock_lines_of};
ghost use Rattle.share_notes.specs.Known.{is_held};

use crate::mark::{Mark, MarkedWire};
use crate::note::Note;
use cell_kinds::{CellKind, inputs};
use circuit_types::{NetCell, NetWire, Nets, NoMemory, Pin, Port, Source};
use std::alloc::Global;
use std::collections::BTreeSet;

/// The bits of the clock inputs.
#[derive(Drop)]
pub struct Clocks {
    pub bits: BTreeSet<u32>,
}

impl Clocks {
    fn new(alloc: Global, wires: &[MarkedWire]) -> Result<Clocks, NoMemory>
        ensures { IfOk result (λ clocks. (bit : ℕ) → contains nat_cmp clocks.bits bit
            ≡ has (clock_bits wires.now) bit) }
    {
        let mut clocks = Clocks {
            bits: BTreeSet::new(alloc),
        };
        for wire in wires {
            clocks.add(wire)?;
        }
        Ok(clocks)
    }

    /// Adds the wire's bit, if it is a clock.
    fn add(&mut self, wire: &MarkedWire) -> Result<(), NoMemory>
        ensures { OnOk result ((bit : ℕ) → contains nat_cmp self.new.bits bit
            ≡ (contains nat_cmp self.old.bits bit || has (clock_bits (wire.now ∷ [])) bit)) }
    {
        if is_clock(&wire.mark) {
            let _ = self.bits.insert(wire.first)?;
        }
        Ok(())
    }

    fn has(&self, source: Source) -> bool
        ensures { result ≡ is_held self.now.bits source }
    {
        match source {
            Source::Input(bit) => self.bits.contains(&bit),
            _ => false,
        }
    }
}

fn is_clock(mark: &Mark) -> bool
    ensures { result ≡ is_clock_mark mark.now }
{
    match mark {
        Mark::Noted(Note::Clock) => true,
        _ => false,
    }
}

/// The input C of a flip-flop.
fn is_clock_pin(kind: CellKind, letter: u8) -> bool
    ensures { result ≡ is_clock_pin kind letter }
{
    match kind {
        CellKind::Gate(_) => false,
        CellKind::Flop(_) => letter == b'C',
    }
}

/// Whether a flip-flop's C is no clock input, or another input is one.
fn is_misread(clocks: &Clocks, kind: CellKind, letter: u8, pin: Pin) -> bool
    ensures { result ≡ is_misread_by (is_held clocks.now.bits) kind (letter, pin) }
{
    if is_clock_pin(kind, letter) {
        !clocks.has(pin.source)
    } else {
        clocks.has(pin.source)
    }
}

/// Puts the lines of the cell's inputs that are misread behind others.
fn push_misread_pins(clocks: &Clocks, cell: &NetCell, lines: &mut Vec<u32>) -> Result<(), NoMemory>
    ensures { OnOk result (lines.new.items ≡ lines.old.items ++ misread_pins (is_held clocks.now.bits) cell.now) }
{
    let mut letters = inputs(cell.kind);
    let mut pins = cell.pins.as_slice();
    while let [letter, other_letters @ ..] = letters {
        let [pin, other_pins @ ..] = pins else {
            return Ok(());
        };
        if is_misread(clocks, cell.kind, *letter, *pin) {
            lines.push(pin.line)?;
        }
        letters = other_letters;
        pins = other_pins;
    }
    Ok(())
}

/// Where a bit ends, or nowhere where there is no such bit.
fn end_of(sources: &[Source], bit: usize) -> Source
    ensures { result ≡ slice_index_or sources.now bit Missing }
{
    match sources.get(bit) {
        Some(source) => *source,
        None => Source::Missing,
    }
}

/// Whether a bit of an output wire ends at a clock input.
fn ends_at_clock(clocks: &Clocks, sources: &[Source], wire: &NetWire) -> bool
    ensures { result ≡ ends_at_clock_by (is_held clocks.now.bits) sources.now wire.now }
{
    match wire.port {
        Port::Output(_) => has_clock(clocks, sources, wire.first, wire.width),
        _ => false,
    }
}

fn has_clock(clocks: &Clocks, sources: &[Source], first: u32, width: u32) -> bool
    ensures { result ≡ list_any (λ k. is_held clocks.now.bits (slice_index_or sources.now (first + k) Missing))
        (range_with_len 0 width) }
{
    for place in 0..width {
        if clocks.has(end_of(sources, first as usize + place as usize)) {
            return true;
        }
    }
    false
}

/// The lines of the clock inputs.
fn clock_wires(alloc: Global, wires: &[MarkedWire]) -> Result<Vec<u32>, NoMemory>
    ensures { IfOk result (λ lines. lines.items ≡ wire_lines is_clock_wire wires.now) }
{
    let mut lines = Vec::new(alloc);
    for wire in wires {
        if is_clock(&wire.mark) {
            lines.push(wire.line)?;
        }
    }
    Ok(lines)
}

/// The lines of the clock inputs after the first.
fn further_clocks(alloc: Global, wires: &[MarkedWire]) -> Result<Vec<u32>, NoMemory>
    ensures { IfOk result (λ lines. lines.items ≡ further_clocks_of wires.now) }
{
    let lines = clock_wires(alloc, wires)?;
    match lines.as_slice() {
        [] => Ok(Vec::new(alloc)),
        [_, further @ ..] => Vec::from_slice(alloc, further),
    }
}

/// Puts the lines of the cells' inputs that are misread behind others.
fn push_misread_cells(
    clocks: &Clocks,
    cells: &[NetCell],
    lines: &mut Vec<u32>,
) -> Result<(), NoMemory>
    ensures { OnOk result (lines.new.items ≡ lines.old.items
        ++ flat_map (misread_pins (is_held clocks.now.bits)) cells.now) }
{
    for cell in cells {
        push_misread_pins(clocks, cell, lines)?;
    }
    Ok(())
}

/// Puts the lines of the output wires that end at a clock behind others.
fn push_misread_wires(
    clocks: &Clocks,
    sources: &[Source],
    wires: &[NetWire],
    lines: &mut Vec<u32>,
) -> Result<(), NoMemory>
    ensures { OnOk result (lines.new.items ≡ lines.old.items
        ++ misread_wires (is_held clocks.now.bits) sources.now wires.now) }
{
    for wire in wires {
        if ends_at_clock(clocks, sources, wire) {
            lines.push(wire.line)?;
        }
    }
    Ok(())
}

/// The lines of the clock inputs after the first, and of wrong uses of a clock.
pub fn clock_lines(alloc: Global, wires: &[MarkedWire], nets: &Nets) -> Result<Vec<u32>, NoMemory>
    ensures { IfOk result (λ lines. lines.items ≡ clock_lines_of wires.now nets.now) }
{
    let clocks = Clocks::new(alloc, wires)?;
    let mut lines = further_clocks(alloc, wires)?;
    push_misread_cells(&clocks, nets.cells.as_slice(), &mut lines)?;
    push_misread_wires(
        &clocks,
        nets.sources.as_slice(),
        nets.wires.as_slice(),
        &mut lines,
    )?;
    Ok(lines)
}

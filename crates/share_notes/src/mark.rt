//! The wires of a module with their notes.
ghost use Rattle.std.specs.Prelude.{◌≡◌, ◌+◌, ◌≤◌, ◌++◌, ◌&&◌, [], ◌∷◌, All, IfOk, MatchOption, sum_by};
ghost use Rattle.circuit_types.specs.Items.{wires as wires_among};
ghost use Rattle.circuit_types.specs.Nets.{most_bits};
ghost use Rattle.circuit_types.specs.declared.tree.Wire.{Wire as AnyWire};
ghost use Rattle.circuit_types.specs.Drives.{is_input};
ghost use Rattle.share_notes.specs.Causes.{is_wrong as is_wrong_mark, is_absent as is_absent_mark, form_lines as form_lines_of, missing_lines as missing_lines_of};
ghost use Rattle.share_notes.specs.Known.{IsPlaced};
ghost use Rattle.share_notes.specs.Marks.{is_mask, masks, input_may_have, output_may_have, may_have, mark_by, mark_in, mark_of, marked_from, marked_wires};
ghost use Rattle.share_notes.specs.Reading.{note_named as note_of};

use crate::note::{Note, note_named};
use circuit_types::{Attribute, Item, NoMemory, Port, Value, Wire};
use std::alloc::Global;

/// What a wire carries as a note.
#[derive(Debug, Drop)]
pub enum Mark {
    /// It has no attribute `\mask`.
    Absent,
    /// Its `\mask` is no note, or stands twice, or may not stand on it.
    Wrong,
    Noted(Note),
}

/// A wire, the number of its first bit, and its note.
#[derive(Debug, Drop)]
pub struct MarkedWire {
    pub line: u32,
    pub first: u32,
    pub width: u32,
    pub port: Port,
    pub mark: Mark,
}

/// The most bits that a wire with the note `shares` may have.
pub const MOST_SHARES: u32 = 16;

fn is_mask(attribute: &Attribute<'_>) -> bool
    ensures { result ≡ is_mask attribute.now }
{
    attribute.name.as_slice() == b"\\mask".as_slice()
}

/// The value of the first attribute `\mask`, and what stands after it.
fn first_mask<'n, 'a>(attributes: &'n [Attribute<'a>]) -> Option<(&'n Value, &'n [Attribute<'a>])>
    ensures { MatchOption result (masks attributes.now ≡ []) (λ x. masks attributes.now ≡ x.0.now ∷ masks x.1.now) }
{
    let mut rest = attributes;
    while let [attribute, others @ ..] = rest {
        if is_mask(attribute) {
            return Some((&attribute.value, others));
        }
        rest = others;
    }
    None
}

fn input_may_have(width: u32, note: &Note) -> bool
    ensures { result ≡ input_may_have width note.now }
{
    match note {
        Note::Shares { .. } => width <= MOST_SHARES,
        Note::Clock => width == 1,
        _ => true,
    }
}

fn output_may_have(width: u32, note: &Note) -> bool
    ensures { result ≡ output_may_have width note.now }
{
    match note {
        Note::Share { .. } => true,
        Note::Shares { .. } => width <= MOST_SHARES,
        Note::Public => true,
        _ => false,
    }
}

/// Whether the note may stand on a wire of this port and width.
fn may_have(port: Port, width: u32, note: &Note) -> bool
    ensures { result ≡ may_have port width note.now }
{
    match port {
        Port::Inner => false,
        Port::Input(_) => input_may_have(width, note),
        Port::Output(_) => output_may_have(width, note),
    }
}

fn text_mark(alloc: Global, port: Port, width: u32, text: &[u8]) -> Result<Mark, NoMemory>
    ensures { IfOk result (λ mark. mark ≡ mark_by port width (note_of text.now)) }
{
    match note_named(alloc, text)? {
        None => Ok(Mark::Wrong),
        Some(note) => {
            if may_have(port, width, &note) {
                Ok(Mark::Noted(note))
            } else {
                Ok(Mark::Wrong)
            }
        }
    }
}

fn value_mark(alloc: Global, port: Port, width: u32, value: &Value) -> Result<Mark, NoMemory>
    ensures { IfOk result (λ mark. mark ≡ mark_in port width (value.now ∷ [])) }
{
    match value {
        Value::Text(text) => text_mark(alloc, port, width, text.as_slice()),
        _ => Ok(Mark::Wrong),
    }
}

/// What the wire carries as a note.
#[tactic(auto, unfolding(crate::specs::Marks::mark_of))]
fn read_mark(alloc: Global, wire: &Wire<'_>) -> Result<Mark, NoMemory>
    ensures { IfOk result (λ mark. mark ≡ mark_of wire.now) }
{
    let Some((value, rest)) = first_mask(wire.attributes.as_slice()) else {
        return Ok(Mark::Absent);
    };
    if first_mask(rest).is_some() {
        return Ok(Mark::Wrong);
    }
    value_mark(alloc, wire.port, wire.width, value)
}

/// Puts the wire that the item may be behind others; answers the number of the next bit.
fn push_wire(
    alloc: Global,
    item: &Item<'_>,
    first: u32,
    wires: &mut Vec<MarkedWire>,
) -> Result<u32, NoMemory>
    requires { first + sum_by (λ (w : AnyWire). w.width) (wires_among (item.now ∷ [])) ≤ most_bits }
    ensures placed { IfOk result (λ next. All IsPlaced wires.old.items → All IsPlaced wires.new.items) }
    ensures wires { IfOk result (λ next. wires.new.items ≡ wires.old.items
        ++ marked_from first (wires_among (item.now ∷ []))) }
    ensures next { IfOk result (λ next. next
        ≡ first + sum_by (λ (w : AnyWire). w.width) (wires_among (item.now ∷ []))) }
{
    let Item::Wire(wire) = item else {
        return Ok(first);
    };
    wires.push(MarkedWire {
        line: wire.line,
        first,
        width: wire.width,
        port: wire.port,
        mark: read_mark(alloc, wire)?,
    })?;
    Ok(first + wire.width)
}

/// The wires of a module with their notes, in file order.
pub fn marked_wires(alloc: Global, items: &[Item<'_>]) -> Result<Vec<MarkedWire>, NoMemory>
    requires { sum_by (λ (w : AnyWire). w.width) (wires_among items.now) ≤ most_bits }
    ensures wires { IfOk result (λ wires. wires.items ≡ marked_wires items.now) }
    ensures placed { IfOk result (λ wires. All IsPlaced wires.items) }
{
    let mut wires = Vec::new(alloc);
    let mut first = 0;
    for item in items {
        first = push_wire(alloc, item, first, &mut wires)?;
    }
    Ok(wires)
}

/// The lines of the wires whose notes are wrong.
pub fn form_lines(alloc: Global, wires: &[MarkedWire]) -> Result<Vec<u32>, NoMemory>
    ensures { IfOk result (λ lines. lines.items ≡ form_lines_of wires.now) }
{
    let mut lines = Vec::new(alloc);
    for wire in wires {
        if is_wrong(&wire.mark) {
            lines.push(wire.line)?;
        }
    }
    Ok(lines)
}

/// The lines of the input wires without a note.
pub fn missing_lines(alloc: Global, wires: &[MarkedWire]) -> Result<Vec<u32>, NoMemory>
    ensures { IfOk result (λ lines. lines.items ≡ missing_lines_of wires.now) }
{
    let mut lines = Vec::new(alloc);
    for wire in wires {
        if lacks_note(wire) {
            lines.push(wire.line)?;
        }
    }
    Ok(lines)
}

fn is_wrong(mark: &Mark) -> bool
    ensures { result ≡ is_wrong_mark mark.now }
{
    match mark {
        Mark::Wrong => true,
        _ => false,
    }
}

fn is_absent(mark: &Mark) -> bool
    ensures { result ≡ is_absent_mark mark.now }
{
    match mark {
        Mark::Absent => true,
        _ => false,
    }
}

fn lacks_note(wire: &MarkedWire) -> bool
    ensures { result ≡ (is_input wire.now.port && is_absent_mark wire.now.mark) }
{
    match wire.port {
        Port::Input(_) => is_absent(&wire.mark),
        _ => false,
    }
}

//! What is read that has no driver or is an unknown constant.

ghost use Rattle.std.specs.Prelude.{◌≡◌, ◌+◌, ◌≤◌, [], ◌∷◌, ◌++◌, List, All, map, filter, if◌then◌else◌};
ghost use Rattle.std.specs.List.{flat_map};
ghost use Rattle.circuit_types.specs.Reads.{is_output as is_output_port, wire_reads};
ghost use Rattle.circuit_types.specs.Nets.{most_bits, pin_of};
ghost use Rattle.circuit_types.specs.declared.nets.Pin.{Pin as AnyPin};
ghost use Rattle.net_build.specs.Reading.{AreReadFaults, read_refusal as read_refusal_of};

use crate::cells::end_of;
use crate::faults::earlier;
use circuit_types::{NetCell, NetWire, Pin, Port, Refusal, SignalBit, Source};

/// The least line at which what is read has no driver, and that at which it is an unknown constant.
#[derive(Clone, Copy)]
pub struct ReadFaults {
    pub undriven: Option<u32>,
    pub unknown: Option<u32>,
}

/// What is wrong with what cells and output wires read.
pub fn read_faults(wires: &[NetWire], sources: &[Source], cells: &[NetCell]) -> ReadFaults
    requires { All (λ w. w.first + w.width ≤ most_bits) wires.now }
    ensures { AreReadFaults (flat_map (λ c. c.pins) cells.now
        ++ map (pin_of sources.now) (flat_map wire_reads (filter (λ w. is_output_port w.port) wires.now))) result }
{
    let mut faults = ReadFaults {
        undriven: None,
        unknown: None,
    };
    for cell in cells {
        faults = with_pins(faults, cell.pins.as_slice());
    }
    with_outputs(faults, wires, sources)
}

/// The faults, and those of these pins.
fn with_pins(before: ReadFaults, pins: &[Pin]) -> ReadFaults
    ensures { (earlier : List AnyPin) → AreReadFaults earlier before → AreReadFaults (earlier ++ pins.now) result }
{
    let mut faults = before;
    for pin in pins {
        faults = with_pin(faults, *pin);
    }
    faults
}

fn with_pin(faults: ReadFaults, pin: Pin) -> ReadFaults
    ensures { (earlier : List AnyPin) → AreReadFaults earlier faults → AreReadFaults (earlier ++ pin ∷ []) result }
{
    match pin.source {
        Source::Missing => ReadFaults {
            undriven: earlier(faults.undriven, Some(pin.line)),
            ..faults
        },
        Source::Unknown => ReadFaults {
            unknown: earlier(faults.unknown, Some(pin.line)),
            ..faults
        },
        _ => faults,
    }
}

/// The faults, and those of the output wires.
fn with_outputs(before: ReadFaults, wires: &[NetWire], sources: &[Source]) -> ReadFaults
    requires { All (λ w. w.first + w.width ≤ most_bits) wires.now }
    ensures { (earlier : List AnyPin) → AreReadFaults earlier before
        → AreReadFaults (earlier
        ++ map (pin_of sources.now) (flat_map wire_reads (filter (λ w. is_output_port w.port) wires.now))) result }
{
    let mut faults = before;
    for wire in wires {
        faults = with_wire(faults, wire, sources);
    }
    faults
}

/// The faults, and those of the wire if it is an output wire.
fn with_wire(faults: ReadFaults, wire: &NetWire, sources: &[Source]) -> ReadFaults
    requires { wire.now.first + wire.now.width ≤ most_bits }
    ensures { (earlier : List AnyPin) → AreReadFaults earlier faults
        → AreReadFaults (earlier
        ++ (if is_output_port wire.now.port then map (pin_of sources.now) (wire_reads wire.now) else [])) result }
{
    if is_output(wire.port) {
        with_bits(faults, wire, sources)
    } else {
        faults
    }
}

fn is_output(port: Port) -> bool
    ensures { result ≡ is_output_port port }
{
    match port {
        Port::Output(_) => true,
        _ => false,
    }
}

/// The faults, and those of the bits of a wire.
fn with_bits(before: ReadFaults, wire: &NetWire, sources: &[Source]) -> ReadFaults
    requires { wire.now.first + wire.now.width ≤ most_bits }
    ensures { (earlier : List AnyPin) → AreReadFaults earlier before
        → AreReadFaults (earlier ++ map (pin_of sources.now) (wire_reads wire.now)) result }
{
    let mut faults = before;
    for bit in wire.first..wire.first + wire.width {
        let pin = Pin {
            line: wire.line,
            source: end_of(sources, SignalBit::Net(bit)),
        };
        faults = with_pin(faults, pin);
    }
    faults
}

/// The refusal that is due, of these faults.
pub fn read_refusal(faults: ReadFaults) -> Option<Refusal>
    ensures { result ≡ read_refusal_of faults }
{
    if let Some(line) = faults.undriven {
        return Some(Refusal::Undriven { line });
    }
    if let Some(line) = faults.unknown {
        return Some(Refusal::UnknownBit { line });
    }
    None
}

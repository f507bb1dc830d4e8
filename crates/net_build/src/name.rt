//! Names of bits, as they are printed.

ghost use Rattle.std.specs.Prelude.{◌≡◌, ◌-◌, ◌&&◌, nat_le, nat_lt, find, IfOk};
ghost use Rattle.std.specs.Option.{option_copied};
ghost use Rattle.net_build.specs.Names.{has_bit, bare, bit_name, printed_name};

use crate::faults::begins_with_backslash;
use circuit_types::{NetWire, NoMemory};
use std::alloc::Global;

/// The printed name of a bit, of the wires with the numbers of their bits: the name of its wire without a
/// leading backslash, and, where the wire's width is not 1, its place in brackets. It is empty where no wire
/// has the bit.
#[tactic(auto, unfolding(crate::specs::Names::printed_name))]
pub fn name_in(alloc: Global, wires: &[NetWire], bit: u32) -> Result<Vec<u8>, NoMemory>
    ensures { IfOk result (λ name. name.items ≡ printed_name wires.now bit) }
{
    match wire_of(wires, bit) {
        None => Ok(Vec::new(alloc)),
        Some(wire) => bit_name(alloc, wire, bit.saturating_sub(wire.first)),
    }
}

/// The wire that has the bit.
fn wire_of(wires: &[NetWire], bit: u32) -> Option<&NetWire>
    ensures { option_copied result ≡ find (has_bit bit) wires.now }
{
    wires.iter().find(|wire| has_bit(wire, bit))
}

fn has_bit(wire: &NetWire, bit: u32) -> bool
    ensures { result ≡ has_bit bit wire.now }
{
    wire.first <= bit && bit - wire.first < wire.width
}

fn bit_name(alloc: Global, wire: &NetWire, place: u32) -> Result<Vec<u8>, NoMemory>
    ensures { IfOk result (λ name. name.items ≡ bit_name wire.now place) }
{
    let mut name = Vec::from_slice(alloc, without_backslash(wire.name.as_slice()))?;
    if wire.width != 1 {
        let place = format!(in alloc; "[{place}]")?;
        name.extend_from_slice(place.as_bytes())?;
    }
    Ok(name)
}

fn without_backslash(name: &[u8]) -> &[u8]
    ensures { result.now ≡ bare name.now }
{
    if begins_with_backslash(name) {
        &name[1..]
    } else {
        name
    }
}

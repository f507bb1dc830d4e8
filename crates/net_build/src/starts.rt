//! What drives the bits before any statement: those of input wires are inputs, all others are driven by nothing.

ghost use Rattle.std.specs.Prelude.{◌≡◌, ◌+◌, ◌≤◌, ℕ, [], length, slice_index_or, if◌then◌else◌, IfOk};
ghost use Rattle.circuit_types.specs.Items.{bit_count};
ghost use Rattle.circuit_types.specs.Drives.{is_input as is_input_port};
ghost use Rattle.circuit_types.specs.Nets.{most_bits};
ghost use Rattle.net_build.specs.Drivers.{KnowsDrivers, has_input};
ghost use Rattle.net_build.specs.Good.{AreWithin};
ghost use Rattle.net_build.specs.declared.drivers.Driver.TheVariants.{Nothing, Input};

use crate::drivers::Driver;
use circuit_types::{NetWire, NoMemory, Port};
use std::alloc::Global;

/// What drives each bit of these wires before any statement does.
pub fn starting_drivers(alloc: Global, wires: &[NetWire]) -> Result<Vec<Driver>, NoMemory>
    requires within { AreWithin wires.now }
    requires few { bit_count wires.now ≤ most_bits }
    ensures { IfOk result (λ v. KnowsDrivers wires.now [] v.items) }
{
    let mut drivers = vec![in alloc; Driver::Nothing; bit_total(wires)]?;
    mark_inputs(drivers.as_mut_slice(), wires);
    Ok(drivers)
}

/// Marks the bits of all input wires.
fn mark_inputs(drivers: &mut [Driver], wires: &[NetWire])
    requires within { AreWithin wires.now }
    requires few { bit_count wires.now ≤ most_bits }
    requires size { length drivers.old ≡ bit_count wires.now }
    requires blank { (k : ℕ) → slice_index_or drivers.old k Nothing ≡ Nothing }
    ensures { KnowsDrivers wires.now [] drivers.new }
{
    for wire in wires {
        mark_input(drivers, wire);
    }
}

/// How many bits the wires have together.
fn bit_total(wires: &[NetWire]) -> usize
    requires { bit_count wires.now ≤ most_bits }
    ensures { result ≡ bit_count wires.now }
{
    let mut total = 0;
    for wire in wires {
        total += wire.width as usize;
    }
    total
}

/// Marks the bits of the wire as inputs, if it is an input wire.
fn mark_input(drivers: &mut [Driver], wire: &NetWire)
    requires within { wire.now.first + wire.now.width ≤ length drivers.old }
    requires few { length drivers.old ≤ most_bits }
    ensures { (k : ℕ) → slice_index_or drivers.new k Nothing
        ≡ (if has_input k wire.now then Input else slice_index_or drivers.old k Nothing) }
{
    if is_input(wire.port) {
        for bit in wire.first..wire.first + wire.width {
            drivers[bit as usize] = Driver::Input;
        }
    }
}

fn is_input(port: Port) -> bool
    ensures { result ≡ is_input_port port }
{
    match port {
        Port::Input(_) => true,
        _ => false,
    }
}

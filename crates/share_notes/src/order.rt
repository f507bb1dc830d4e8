//! The order of ports.
ghost use Rattle.std.specs.Prelude.{◌≡◌, IfOk};
ghost use Rattle.std.specs.List.Sorted.{IsPermutation};
ghost use Rattle.share_notes.specs.PortOrder.{port_number, in_port_order};

use crate::mark::MarkedWire;
use circuit_types::{NoMemory, Port};

fn port_number(port: Port) -> u32
    ensures { result ≡ port_number port }
{
    match port {
        Port::Inner => 0,
        Port::Input(number) => number,
        Port::Output(number) => number,
    }
}

/// The wires by port number, those of one number in the order in which they are given.
pub fn in_port_order(mut wires: Vec<MarkedWire>) -> Result<Vec<MarkedWire>, NoMemory>
    ensures order { IfOk result (λ ordered. ordered.items ≡ in_port_order wires.items) }
    ensures permutation { IfOk result (λ ordered. IsPermutation wires.items ordered.items) }
{
    wires.sort_by_key(|wire| port_number(wire.port))?;
    Ok(wires)
}

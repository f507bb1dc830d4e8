//! The value of a gate.
ghost use Rattle.std.specs.Prelude.{◌≡◌, Bool, if◌then◌else◌, length};
ghost use Rattle.cell_kinds.specs.Cells.{gate, gate_value};

use crate::kind::GateKind;

/// What a gate computes of the values of its inputs, given in the order of the table.
#[tactic(auto, unfolding(crate::specs::Cells::gate_value))]
pub fn output(kind: GateKind, values: &[bool]) -> bool
    requires { length values.now ≡ length (gate kind).inputs }
    ensures { result ≡ gate_value kind values.now }
{
    match kind {
        GateKind::Buf => values[0],
        GateKind::Not => !values[0],
        GateKind::And => values[0] & values[1],
        GateKind::Nand => !(values[0] & values[1]),
        GateKind::Or => values[0] | values[1],
        GateKind::Nor => !(values[0] | values[1]),
        GateKind::Xor => values[0] ^ values[1],
        GateKind::Xnor => !(values[0] ^ values[1]),
        GateKind::Andnot => values[0] & !values[1],
        GateKind::Ornot => values[0] | !values[1],
        GateKind::Mux => choose(values[2], values[1], values[0]),
        GateKind::Nmux => !choose(values[2], values[1], values[0]),
        GateKind::Aoi3 => !(values[0] & values[1] | values[2]),
        GateKind::Oai3 => !((values[0] | values[1]) & values[2]),
        GateKind::Aoi4 => !(values[0] & values[1] | values[2] & values[3]),
        GateKind::Oai4 => !((values[0] | values[1]) & (values[2] | values[3])),
    }
}

/// One of two values.
fn choose(first: bool, one: bool, other: bool) -> bool
    ensures { result ≡ (if first then one else other) }
{
    if first { one } else { other }
}

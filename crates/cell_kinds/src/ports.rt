//! The ports of a cell.
ghost use Rattle.std.specs.Prelude.{◌≡◌};
ghost use Rattle.cell_kinds.specs.Cells.{gate, flop_inputs as flop_input_letters, input_letters, output_letter};

use crate::kind::{CellKind, Flop, GateKind};

/// The letters of a cell's input ports, in the order of the table. In a netlist a backslash stands
/// before the letter.
#[tactic(auto, unfolding(crate::specs::Cells::input_letters))]
pub fn inputs(kind: CellKind) -> &'static [u8]
    ensures { result.now ≡ input_letters kind }
{
    match kind {
        CellKind::Gate(gate) => gate_inputs(gate),
        CellKind::Flop(flop) => flop_inputs(flop),
    }
}

fn gate_inputs(kind: GateKind) -> &'static [u8]
    ensures { result.now ≡ (gate kind).inputs }
{
    match kind {
        GateKind::Buf | GateKind::Not => b"A",
        GateKind::And | GateKind::Nand => b"AB",
        GateKind::Or | GateKind::Nor => b"AB",
        GateKind::Xor | GateKind::Xnor => b"AB",
        GateKind::Andnot | GateKind::Ornot => b"AB",
        GateKind::Mux | GateKind::Nmux => b"ABS",
        GateKind::Aoi3 | GateKind::Oai3 => b"ABC",
        GateKind::Aoi4 | GateKind::Oai4 => b"ABCD",
    }
}

fn flop_inputs(flop: Flop) -> &'static [u8]
    ensures { result.now ≡ flop_input_letters flop }
{
    match (flop.enable, flop.reset) {
        (None, None) => b"DC",
        (None, Some(_)) => b"DCR",
        (Some(_), None) => b"DCE",
        (Some(_), Some(_)) => b"DCER",
    }
}

/// The letter of a cell's output port: Y of a gate, Q of a flip-flop.
pub fn output_port(kind: CellKind) -> u8
    ensures { result ≡ output_letter kind }
{
    match kind {
        CellKind::Gate(_) => b'Y',
        CellKind::Flop(_) => b'Q',
    }
}

//! The formulas of the cell table, as lists of parts.
ghost use Rattle.std.specs.Prelude.{◌≡◌, List, []};
ghost use Rattle.expr_table.specs.Term.{Term};
ghost use Rattle.term_build.specs.Building.{run_parts};
ghost use Rattle.term_build.specs.GateTerms.{gate_parts};

use cell_kinds::GateKind;

/// What a part reads.
#[derive(Clone, Copy, Debug, PartialEq, Eq)]
pub enum Operand {
    One,
    /// The input at this place.
    Pin(usize),
    /// The part at this place.
    Part(usize),
}

/// One application of conjunction or of exclusive or; a negation is the exclusive or with One.
#[derive(Clone, Copy, Debug, PartialEq, Eq)]
pub enum Part {
    Not(Operand),
    Both(Operand, Operand),
    Differ(Operand, Operand),
}

use Operand::{Part as Made, Pin};
use Part::{Both, Differ, Not};

/// The parts of a gate's formula, from left to right and from the inside outwards. A disjunction is the negated conjunction
/// of its negated sides, which are made once both sides are.
pub fn parts_of(kind: GateKind) -> &'static [Part]
    ensures { (pins : List Term) → run_parts pins [] result.now ≡ gate_parts kind pins }
{
    match kind {
        GateKind::Buf => &[],
        GateKind::Not => &[Not(Pin(0))],
        GateKind::And => &[Both(Pin(0), Pin(1))],
        GateKind::Nand => &[Both(Pin(0), Pin(1)), Not(Made(0))],
        GateKind::Or => &[
            Not(Pin(0)),
            Not(Pin(1)),
            Both(Made(0), Made(1)),
            Not(Made(2)),
        ],
        GateKind::Nor => &[
            Not(Pin(0)),
            Not(Pin(1)),
            Both(Made(0), Made(1)),
            Not(Made(2)),
            Not(Made(3)),
        ],
        GateKind::Xor => &[Differ(Pin(0), Pin(1))],
        GateKind::Xnor => &[Differ(Pin(0), Pin(1)), Not(Made(0))],
        GateKind::Andnot => &[Not(Pin(1)), Both(Pin(0), Made(0))],
        GateKind::Ornot => &[
            Not(Pin(1)),
            Not(Pin(0)),
            Not(Made(0)),
            Both(Made(1), Made(2)),
            Not(Made(3)),
        ],
        GateKind::Mux => &[
            Both(Pin(2), Pin(1)),
            Not(Pin(2)),
            Both(Made(1), Pin(0)),
            Differ(Made(0), Made(2)),
        ],
        GateKind::Nmux => &[
            Both(Pin(2), Pin(1)),
            Not(Pin(2)),
            Both(Made(1), Pin(0)),
            Differ(Made(0), Made(2)),
            Not(Made(3)),
        ],
        GateKind::Aoi3 => &[
            Both(Pin(0), Pin(1)),
            Not(Made(0)),
            Not(Pin(2)),
            Both(Made(1), Made(2)),
            Not(Made(3)),
            Not(Made(4)),
        ],
        GateKind::Oai3 => &[
            Not(Pin(0)),
            Not(Pin(1)),
            Both(Made(0), Made(1)),
            Not(Made(2)),
            Both(Made(3), Pin(2)),
            Not(Made(4)),
        ],
        GateKind::Aoi4 => &[
            Both(Pin(0), Pin(1)),
            Both(Pin(2), Pin(3)),
            Not(Made(0)),
            Not(Made(1)),
            Both(Made(2), Made(3)),
            Not(Made(4)),
            Not(Made(5)),
        ],
        GateKind::Oai4 => &[
            Not(Pin(0)),
            Not(Pin(1)),
            Both(Made(0), Made(1)),
            Not(Made(2)),
            Not(Pin(2)),
            Not(Pin(3)),
            Both(Made(4), Made(5)),
            Not(Made(6)),
            Both(Made(3), Made(7)),
            Not(Made(8)),
        ],
    }
}

//! The rows of gates.
ghost use Rattle.std.specs.Prelude.{◌<◌, List, [], ◌∷◌, length, IfOk};
ghost use Rattle.expr_table.specs.Table.{IsRowOf};
ghost use Rattle.expr_table.specs.Term.{Term};
ghost use Rattle.term_build.specs.Building.{AreRows, HoldsRow, Makes, ShowRows, operand_term, part_term};
ghost use Rattle.term_build.specs.GateTerms.{gate_parts, gate_term};

use crate::joining::{both, differ, row_or_zero};
use crate::parts::{Operand, Part, parts_of};
use cell_kinds::GateKind;
use circuit_types::Stop;
use expr_table::{ExprTable, Row};
use std::alloc::Global;

/// The row of an operand, over those of the pins and of the parts before.
fn operand_row(table: &ExprTable, pins: &[Row], made: &[Row], operand: Operand) -> Row
    ensures within { AreRows table.now.nodes pins.now → AreRows table.now.nodes made.now → result.0 < length table.now.nodes }
    ensures row { (ts done : List Term) → ShowRows table.now.nodes pins.now ts → ShowRows table.now.nodes made.now done
        → IsRowOf table.now.nodes result.0 (operand_term ts done operand) }
{
    match operand {
        Operand::One => table.one(),
        Operand::Pin(place) => row_or_zero(pins, place),
        Operand::Part(place) => row_or_zero(made, place),
    }
}

/// Makes the row of a part.
fn part_row(table: &mut ExprTable, pins: &[Row], made: &[Row], part: Part) -> Result<Row, Stop>
    requires pins { AreRows table.old.nodes pins.now }
    requires made { AreRows table.old.nodes made.now }
    ensures kept { IfOk result (λ row. HoldsRow table.old table.new row.0) }
    ensures makes { (ts done : List Term) → ShowRows table.old.nodes pins.now ts → ShowRows table.old.nodes made.now done
        → Makes table.old table.new (part_term ts done part ∷ []) (part_term ts done part) result }
{
    match part {
        Part::Not(a) => {
            let one = table.one();
            let a = operand_row(table, pins, made, a);
            differ(table, one, a)
        }
        Part::Both(a, b) => {
            let a = operand_row(table, pins, made, a);
            let b = operand_row(table, pins, made, b);
            both(table, a, b)
        }
        Part::Differ(a, b) => {
            let a = operand_row(table, pins, made, a);
            let b = operand_row(table, pins, made, b);
            differ(table, a, b)
        }
    }
}

/// Makes the row of a gate, with all parts of its formula.
pub fn gate_row(
    alloc: Global,
    table: &mut ExprTable,
    kind: GateKind,
    pins: &[Row],
) -> Result<Row, Stop>
    requires { AreRows table.old.nodes pins.now }
    ensures kept { IfOk result (λ row. HoldsRow table.old table.new row.0) }
    ensures makes { (ts : List Term) → ShowRows table.old.nodes pins.now ts
        → Makes table.old table.new (gate_parts kind ts) (gate_term kind ts) result }
{
    let mut made = Vec::new(alloc);
    for part in parts_of(kind) {
        let row = part_row(table, pins, &made, *part)?;
        made.push(row)?;
    }
    if made.len() == 0 {
        return Ok(row_or_zero(pins, 0));
    }
    Ok(row_or_zero(&made, made.len() - 1))
}

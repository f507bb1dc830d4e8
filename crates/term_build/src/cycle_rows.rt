//! The rows that are kept of a cycle, and those of its cells.
ghost use Rattle.std.specs.Prelude.{◌≡◌, ◌<◌, IfOk, List, length, map, ℕ};
ghost use Rattle.cell_kinds.specs.declared.kind.CellKind.TheVariants.{Flop as AnyFlop};
ghost use Rattle.circuit_types.specs.declared.nets.Pin.{Pin as AnyPin};
ghost use Rattle.circuit_types.specs.declared.nets.Source.{Source as AnySource};
ghost use Rattle.circuit_types.specs.DataSources.{pin_sources, IsWired};
ghost use Rattle.circuit_types.specs.Order.{IsLevelled};
ghost use Rattle.circuit_types.specs.Value.{start_value};
ghost use Rattle.expr_table.specs.Term.{Term};
ghost use Rattle.term_build.specs.Building.{AreCycleRows, AreCycles, AreRows, HasConstants, HoldsRow, IsShownCell, constant_row, Makes, MakesCells, ShowBits, ShowCycles, kept_row, row_kept, row_of};
ghost use Rattle.term_build.specs.SourceTerms.{TermAssignment, assigned_term, kept_cell_term};
ghost use Rattle.term_build.specs.TermInstance.{kind_parts};

use crate::gate_rows::gate_row;
use crate::joining::row_or_zero;
use cell_kinds::{CellKind, Flop};
use circuit_types::{Circuit, NetCell, NoMemory, Pin, Source, Stop, Timing};
use expr_table::{ExprTable, Row};
use std::alloc::Global;

/// The rows of the input bits and of the cells in a cycle, by their numbers.
#[derive(Drop)]
pub struct CycleRows {
    pub bits: Vec<Row>,
    pub cells: Vec<Row>,
}

impl CycleRows {
    /// The row of a source; Zero's where the source has no meaning.
    pub fn row(&self, source: Source) -> Row
        ensures { result.0 ≡ row_of self.now source }
    {
        match source {
            Source::Input(bit) => row_or_zero(&self.bits, bit as usize),
            Source::Cell(cell) => row_or_zero(&self.cells, cell as usize),
            Source::One => Row(1),
            Source::Zero | Source::Unknown | Source::Missing => Row(0),
        }
    }

    /// The rows of what the pins read.
    fn pin_rows(&self, alloc: Global, pins: &[Pin]) -> Result<Vec<Row>, NoMemory>
        ensures { IfOk result (λ rows. rows.items ≡ map (λ (pin : AnyPin). row_kept self.now pin.source) pins.now) }
    {
        let mut rows = Vec::new(alloc);
        for pin in pins {
            rows.push(self.row(pin.source))?;
        }
        Ok(rows)
    }
}

/// The row of a constant bit.
pub fn constant_row(bit: bool) -> Row
    ensures { result.0 ≡ constant_row bit }
{
    if bit { Row(1) } else { Row(0) }
}

/// The value of a flip-flop in the first cycle: its reset value, or else 0.
fn start_value(flop: Flop) -> bool
    ensures { result ≡ start_value (AnyFlop flop) }
{
    match flop.reset {
        Some(reset) => reset.value,
        None => false,
    }
}

/// The row that a flip-flop keeps in the cycle after those done: where all is settled that of its data input; in cycle 0 that
/// of its start value; else that which its data input had in the cycle before.
fn flop_row(timing: Timing, cell: &NetCell, flop: Flop, rows: &CycleRows, done: &[CycleRows]) -> Row
    ensures { result.0 ≡ kept_row timing rows.now done.now cell.now flop }
{
    match timing {
        Timing::Settled => rows.row(cell.data_source()),
        Timing::Cycles(_) => match done.last() {
            Some(before) => before.row(cell.data_source()),
            None => constant_row(start_value(flop)),
        },
    }
}

/// Makes the row of a cell.
fn cell_row(
    alloc: Global,
    table: &mut ExprTable,
    timing: Timing,
    cell: &NetCell,
    rows: &CycleRows,
    done: &[CycleRows],
) -> Result<Row, Stop>
    requires rows { AreCycleRows table.old.nodes rows.now }
    requires done { AreCycles table.old.nodes done.now }
    requires constants { HasConstants table.old.nodes }
    ensures kept { IfOk result (λ row. HoldsRow table.old table.new row.0) }
    ensures makes { (term : AnySource → Term) (kept : Term)
        → IsShownCell table.old.nodes timing rows.now done.now term kept cell.now cell.now.kind
        → Makes table.old table.new (kind_parts cell.now.kind (map term (pin_sources cell.now)))
        (kept_cell_term kept cell.now.kind (map term (pin_sources cell.now))) result }
{
    match cell.kind {
        CellKind::Gate(kind) => {
            let pins = rows.pin_rows(alloc, cell.pins.as_slice())?;
            gate_row(alloc, table, kind, &pins)
        }
        CellKind::Flop(flop) => Ok(flop_row(timing, cell, flop, rows, done)),
    }
}

/// Makes the rows of all cells in the cycle after those done, in the circuit's order.
pub fn cell_rows(
    alloc: Global,
    table: &mut ExprTable,
    circuit: &Circuit,
    bits: Vec<Row>,
    done: &[CycleRows],
) -> Result<CycleRows, Stop>
    requires wired { IsWired circuit.now.nets }
    requires levelled { IsLevelled circuit.now }
    requires bits { AreRows table.old.nodes bits.items }
    requires constants { HasConstants table.old.nodes }
    requires done { AreCycles table.old.nodes done.now }
    ensures are { IfOk result (AreCycleRows table.new.nodes) }
    ensures makes { (assigned : TermAssignment)
        → ShowBits table.old.nodes bits.items (λ bit. assigned bit (length done.now))
        → ShowCycles circuit.now.nets table.old.nodes (assigned_term circuit.now.timing circuit.now.nets assigned) done.now
        → MakesCells circuit.now table.old table.new
        (assigned_term circuit.now.timing circuit.now.nets assigned (length done.now)) result }
{
    let cells = vec![in alloc; Row(0); circuit.nets.cells.as_slice().len()]?;
    let mut rows = CycleRows { bits, cells };
    for cell in circuit.order.as_slice() {
        let net_cell = &circuit.nets.cells.as_slice()[*cell as usize];
        let row = cell_row(alloc, table, circuit.timing, net_cell, &rows, done)?;
        rows.cells[*cell as usize] = row;
    }
    Ok(rows)
}

//! Joining rows: one application of a gate of the table, and the limit on rows as a refusal.
ghost use Rattle.std.specs.Prelude.{◌≡◌, ◌<◌, [], ◌∷◌, length};
ghost use Rattle.circuit_types.specs.declared.refusal.Stop.TheVariants as stop;
ghost use Rattle.circuit_types.specs.declared.refusal.Refusal.TheVariants as refusal;
ghost use Rattle.circuit_types.specs.declared.refusal.Which.TheVariants as which;
ghost use Rattle.expr_table.specs.Table.{xor_at, and_at};
ghost use Rattle.term_build.specs.Building.{Makes, row_at};

use circuit_types::{Refusal, Stop, Which};
use expr_table::{ExprTable, Row, TermStop};

/// The refusal of a circuit whose terms need too many rows.
pub fn too_many_terms() -> Stop
    ensures { result ≡ stop.Refused (refusal.Limit which.Terms) }
{
    Stop::Refused(Refusal::Limit(Which::Terms))
}

/// The row at a place, and Zero's row past the end.
pub fn row_or_zero(rows: &[Row], place: usize) -> Row
    ensures { result.0 ≡ row_at rows.now place }
{
    match rows.get(place) {
        Some(row) => *row,
        None => Row(0),
    }
}

/// The row of the exclusive or of two rows.
pub fn differ(table: &mut ExprTable, a: Row, b: Row) -> Result<Row, Stop>
    requires a_in { a.0 < length table.old.nodes }
    requires b_in { b.0 < length table.old.nodes }
    ensures { Makes table.old table.new (xor_at table.old.nodes a b ∷ []) (xor_at table.old.nodes a b) result }
{
    match table.xor(a, b) {
        Ok(row) => Ok(row),
        Err(TermStop::TooManyTerms) => Err(too_many_terms()),
        Err(TermStop::NoMemory) => Err(Stop::NoMemory),
    }
}

/// The row of the conjunction of two rows.
pub fn both(table: &mut ExprTable, a: Row, b: Row) -> Result<Row, Stop>
    requires a_in { a.0 < length table.old.nodes }
    requires b_in { b.0 < length table.old.nodes }
    ensures { Makes table.old table.new (and_at table.old.nodes a b ∷ []) (and_at table.old.nodes a b) result }
{
    match table.and(a, b) {
        Ok(row) => Ok(row),
        Err(TermStop::TooManyTerms) => Err(too_many_terms()),
        Err(TermStop::NoMemory) => Err(Stop::NoMemory),
    }
}

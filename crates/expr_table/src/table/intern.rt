//! Interning: the row of a gate, which is added where the table does not have it.
ghost use Rattle.std.specs.Prelude.{◌≡◌, ◌++◌, ◌∷◌, [], ◌<◌, length, IfOk, OnOk, OnErr};
ghost use Rattle.indexmap.specs.IndexMap.{keys, IsUnchanged};
ghost use Rattle.expr_table.specs.Table.{most_rows, terms, term_of};
ghost use Rattle.expr_table.specs.Interning.{IsNumbered, IsAbsent, IsOrderedGate, Interns};

use super::{ExprTable, MOST_ROWS, TermStop};
use crate::NoMemory;
use crate::node::{Node, Row};
use indexmap::IndexMap;

impl ExprTable {
    /// The row of a gate, which is added where it is not there.
    pub(super) fn intern(&mut self, node: Node) -> Result<Row, TermStop>
        requires { IsOrderedGate self.old.nodes node }
        ensures { Interns (term_of (terms self.old.nodes) node) self.old self.new result }
    {
        if let Some(row) = self.rows.get(&node) {
            return Ok(Row(*row));
        }
        if self.rows.len() >= MOST_ROWS {
            return Err(TermStop::TooManyTerms);
        }
        let row = add(&mut self.rows, node)?;
        Ok(row)
    }
}

/// Adds a node that is not there, as the last.
pub(super) fn add(rows: &mut IndexMap<Node, u32>, node: Node) -> Result<Row, NoMemory>
    requires numbered { IsNumbered rows.old.entries }
    requires absent { IsAbsent (keys rows.old) node }
    requires room { length (keys rows.old) < most_rows }
    ensures row { IfOk result (λ row. row.0 ≡ length (keys rows.old)) }
    ensures nodes { OnOk result (keys rows.new ≡ keys rows.old ++ node ∷ []) }
    ensures numbered { OnOk result (IsNumbered rows.new.entries) }
    ensures stopped { OnErr result (IsUnchanged rows.old rows.new) }
{
    let row = rows.len() as u32;
    rows.insert(node, row)?;
    Ok(Row(row))
}

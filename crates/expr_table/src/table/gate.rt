//! Exclusive or and conjunction of two rows: what simplifies is known; else the gate, its sides in order, is
//! interned.
ghost use Rattle.std.specs.Prelude.{◌≡◌, ◌≢◌, ◌<◌, ◌↔◌, length, IfOk, OnOk, OnErr, Err};
ghost use Rattle.expr_table.specs.Table.{terms, term_at, term_of, xor_at, and_at, with_term};
ghost use Rattle.expr_table.specs.Table.{Extends, IsFull, IsNew, IsRowOf, IsTable};
ghost use Rattle.expr_table.specs.Interning.{Interns, IsOrderedGate};
ghost use Rattle.expr_table.specs.Gates.{gate_at, gate_node, ordered_gate};

use super::{ExprTable, TermStop};
use crate::node::{Node, Row};
use std::cmp::Ordering;

/// The gates that join two rows.
#[derive(Clone, Copy)]
pub(super) enum Gate {
    And,
    Xor,
}

/// The node of a gate over two rows.
fn gate_node(gate: Gate, a: Row, b: Row) -> Node
    ensures { result ≡ gate_node gate a b }
{
    match gate {
        Gate::And => Node::And(a, b),
        Gate::Xor => Node::Xor(a, b),
    }
}

impl ExprTable {
    /// The row of the simplified exclusive or of two rows: Zero where they are equal, the other where one
    /// is Zero, c where one is One and the other is Xor of One and c, else their Xor with the lesser term
    /// first. At most one row is added, where the term is in none. [`TermStop::TooManyTerms`] where it is
    /// in none and the table is full. The table is unchanged after every error.
    pub fn xor(&mut self, a: Row, b: Row) -> Result<Row, TermStop>
        requires a_in { a.0 < length self.old.nodes }
        requires b_in { b.0 < length self.old.nodes }
        ensures row { IfOk result (λ row. IsRowOf self.new.nodes row.0 (xor_at self.old.nodes a b)) }
        ensures terms { OnOk result (terms self.new.nodes
            ≡ with_term (terms self.old.nodes) (xor_at self.old.nodes a b)) }
        ensures kept { Extends self.old self.new }
        ensures table { IsTable self.new }
        ensures stopped { OnErr result (self.new ≡ self.old) }
        ensures too_many { (result ≡ Err TermStop.TooManyTerms)
            ↔ (IsNew self.old (xor_at self.old.nodes a b) × IsFull self.old) }
        ensures no_memory { result ≡ Err TermStop.NoMemory → IsNew self.old (xor_at self.old.nodes a b) }
    {
        self.join(Gate::Xor, a, b)
    }

    /// The row of the simplified conjunction of two rows: Zero where one is Zero, the other where one is
    /// One, the same row where they are equal, else their And with the lesser term first. At most one row
    /// is added, where the term is in none. [`TermStop::TooManyTerms`] where it is in none and the table
    /// is full. The table is unchanged after every error.
    pub fn and(&mut self, a: Row, b: Row) -> Result<Row, TermStop>
        requires a_in { a.0 < length self.old.nodes }
        requires b_in { b.0 < length self.old.nodes }
        ensures row { IfOk result (λ row. IsRowOf self.new.nodes row.0 (and_at self.old.nodes a b)) }
        ensures terms { OnOk result (terms self.new.nodes
            ≡ with_term (terms self.old.nodes) (and_at self.old.nodes a b)) }
        ensures kept { Extends self.old self.new }
        ensures table { IsTable self.new }
        ensures stopped { OnErr result (self.new ≡ self.old) }
        ensures too_many { (result ≡ Err TermStop.TooManyTerms)
            ↔ (IsNew self.old (and_at self.old.nodes a b) × IsFull self.old) }
        ensures no_memory { result ≡ Err TermStop.NoMemory → IsNew self.old (and_at self.old.nodes a b) }
    {
        self.join(Gate::And, a, b)
    }

    /// The row of the simplified gate of two rows.
    fn join(&mut self, gate: Gate, a: Row, b: Row) -> Result<Row, TermStop>
        requires a_in { a.0 < length self.old.nodes }
        requires b_in { b.0 < length self.old.nodes }
        ensures { Interns (gate_at gate self.old.nodes a b) self.old self.new result }
    {
        let _ = &self.rows;
        if let Some(row) = self.simplified(gate, a, b) {
            return Ok(row);
        }
        let node = self.ordered(gate, a, b);
        self.intern(node)
    }

    /// The gate over two rows, the lesser term first.
    fn ordered(&self, gate: Gate, a: Row, b: Row) -> Node
        requires a_in { a.0 < length self.now.nodes }
        requires b_in { b.0 < length self.now.nodes }
        requires differ { a ≢ b }
        ensures gate { IsOrderedGate self.now.nodes result }
        ensures term { term_of (terms self.now.nodes) result
            ≡ ordered_gate gate (term_at (terms self.now.nodes) a.0) (term_at (terms self.now.nodes) b.0) }
    {
        let _ = &self.rows;
        match self.compare(a, b) {
            Ordering::Greater => gate_node(gate, b, a),
            Ordering::Less | Ordering::Equal => gate_node(gate, a, b),
        }
    }
}

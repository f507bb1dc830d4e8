//! Reading the nodes of a table.
ghost use Rattle.std.specs.Prelude.{◌≡◌, ◌+◌, ◌<◌, List, length};
ghost use Rattle.expr_table.specs.declared.node.Node.{Node};
ghost use Rattle.expr_table.specs.Table.{node_at};

use crate::steps::Steps;
use expr_table::{ExprTable, Node, Row};
use std::sync::ledger::Ledger;

/// The nodes of a table, seen one at a time.
pub trait Looks {
    ghost nodes: { Self → List Node };

    /// How many rows there are.
    fn rows(&self) -> u32
        ensures { result ≡ length (nodes self.now) };

    /// The node of a row, which takes one step.
    fn look<L: Ledger>(&self, row: Row, steps: &mut Steps<L>) -> Node
        requires { row.0 < length (nodes self.now) }
        ensures node { result ≡ node_at (nodes self.now) row.0 }
        ensures cost { steps.new ≡ steps.old + 1 };
}

impl Looks for ExprTable {
    ghost nodes = { λ table. table.nodes };

    fn rows(&self) -> u32 {
        ExprTable::rows(self)
    }

    fn look<L: Ledger>(&self, row: Row, steps: &mut Steps<L>) -> Node {
        steps.tick();
        self.node(row)
    }
}

//! What is known of a gate over two rows without a look for its row.
ghost use Rattle.std.specs.Prelude.{◌≡◌, ◌<◌, length, IfSome};
ghost use Rattle.std.specs.Option.{option_map};
ghost use Rattle.expr_table.specs.Table.{terms, term_at};
ghost use Rattle.expr_table.specs.Gates.{Simplifies};
ghost use Rattle.expr_table.specs.Term.{without_one};
ghost use Rattle.expr_table.specs.declared.table.gate.Gate.TheVariants.{And, Xor};

use super::ExprTable;
use super::gate::Gate;
use crate::node::{Node, Row};

impl ExprTable {
    /// The row that a gate simplifies to.
    pub(super) fn simplified(&self, gate: Gate, a: Row, b: Row) -> Option<Row>
        requires a_in { a.0 < length self.now.nodes }
        requires b_in { b.0 < length self.now.nodes }
        ensures { Simplifies gate self.now.nodes a b result }
    {
        match gate {
            Gate::And => self.simplified_and(a, b),
            Gate::Xor => self.simplified_xor(a, b),
        }
    }

    /// The row that a conjunction simplifies to.
    fn simplified_and(&self, a: Row, b: Row) -> Option<Row>
        requires a_in { a.0 < length self.now.nodes }
        requires b_in { b.0 < length self.now.nodes }
        ensures { Simplifies And self.now.nodes a b result }
    {
        let _ = &self.rows;
        let zero = self.zero();
        let one = self.one();
        if a == zero {
            return Some(a);
        }
        if b == zero {
            return Some(b);
        }
        if a == one {
            return Some(b);
        }
        if b == one {
            return Some(a);
        }
        if a == b { Some(a) } else { None }
    }

    /// The row that an exclusive or simplifies to.
    fn simplified_xor(&self, a: Row, b: Row) -> Option<Row>
        requires a_in { a.0 < length self.now.nodes }
        requires b_in { b.0 < length self.now.nodes }
        ensures { Simplifies Xor self.now.nodes a b result }
    {
        let _ = &self.rows;
        let zero = self.zero();
        if a == b {
            return Some(zero);
        }
        if a == zero {
            return Some(b);
        }
        if b == zero {
            return Some(a);
        }
        if let Some(c) = self.without_one(a, b) {
            return Some(c);
        }
        self.without_one(b, a)
    }

    /// c, where `a` is One and `b` is the Xor of One and c.
    fn without_one(&self, a: Row, b: Row) -> Option<Row>
        requires a_in { a.0 < length self.now.nodes }
        requires b_in { b.0 < length self.now.nodes }
        ensures within { IfSome result (λ c. c.0 < length self.now.nodes) }
        ensures term { option_map (λ c. term_at (terms self.now.nodes) c.0) result
            ≡ without_one (term_at (terms self.now.nodes) a.0) (term_at (terms self.now.nodes) b.0) }
    {
        let _ = &self.rows;
        let one = self.one();
        if a != one {
            return None;
        }
        match self.node(b) {
            Node::Xor(side, c) => if side == one { Some(c) } else { None },
            _ => None,
        }
    }
}

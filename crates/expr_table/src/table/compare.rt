//! The structural order of rows.
ghost use Rattle.std.specs.Prelude.{◌≡◌, ◌≢◌, ◌<◌, length};
ghost use Rattle.expr_table.specs.Table.{terms, term_at};
ghost use Rattle.expr_table.specs.Term.{term_cmp};
ghost use Rattle.expr_table.specs.Steps.{Compares, differing_sides, next_step, node_kind};

use super::ExprTable;
use crate::node::{Node, Row};
use std::cmp::Ordering;

/// What one step of a comparison says: the order, or two earlier rows that have it.
enum Step {
    Known(Ordering),
    Deeper(Row, Row),
}

impl ExprTable {
    /// The structural order of the terms of two rows. It takes no memory and no stack: rows have one
    /// term each, so only the sides that differ first are followed, in a loop.
    pub fn compare(&self, a: Row, b: Row) -> Ordering
        requires a_in { a.0 < length self.now.nodes }
        requires b_in { b.0 < length self.now.nodes }
        ensures { result ≡ term_cmp (term_at (terms self.now.nodes) a.0) (term_at (terms self.now.nodes) b.0) }
    {
        let mut a = a;
        let mut b = b;
        while a != b {
            match self.step(a, b) {
                Step::Known(order) => return order,
                Step::Deeper(p, q) => {
                    a = p;
                    b = q;
                }
            }
        }
        Ordering::Equal
    }

    /// One step from two rows towards where their terms differ.
    fn step(&self, a: Row, b: Row) -> Step
        requires a_in { a.0 < length self.now.nodes }
        requires b_in { b.0 < length self.now.nodes }
        requires differ { a ≢ b }
        ensures { Compares self.now.nodes a.0 b.0 result }
    {
        let _ = &self.rows;
        step_of(self.node(a), self.node(b))
    }
}

/// One step from two nodes.
fn step_of(m: Node, n: Node) -> Step
    ensures { result ≡ next_step m n }
{
    match m {
        Node::Input(i) => {
            if let Node::Input(j) = n {
                return Step::Known(i.cmp(&j));
            }
        }
        Node::Random(i) => {
            if let Node::Random(j) = n {
                return Step::Known(i.cmp(&j));
            }
        }
        Node::And(p, q) => {
            if let Node::And(r, s) = n {
                return differing(p, q, r, s);
            }
        }
        Node::Xor(p, q) => {
            if let Node::Xor(r, s) = n {
                return differing(p, q, r, s);
            }
        }
        Node::Zero | Node::One => {}
    }
    Step::Known(kind(m).cmp(&kind(n)))
}

/// The sides at which two gates of one kind differ first.
fn differing(p: Row, q: Row, r: Row, s: Row) -> Step
    ensures { result ≡ differing_sides p q r s }
{
    if p == r {
        Step::Deeper(q, s)
    } else {
        Step::Deeper(p, r)
    }
}

/// How a node's kind ranks in the structural order.
fn kind(node: Node) -> u8
    ensures { result ≡ node_kind node }
{
    match node {
        Node::Zero => 0,
        Node::One => 1,
        Node::Input(_) => 2,
        Node::Random(_) => 3,
        Node::And(_, _) => 4,
        Node::Xor(_, _) => 5,
    }
}

//! The table of terms, and how its rows are read.
ghost use Rattle.std.specs.Prelude.{◌≡◌, ◌+◌, ◌<◌, length, slice_get, Some};
ghost use Rattle.expr_table.specs.Table.{Table, IsTable, IsRowOf};
ghost use Rattle.expr_table.specs.Term as term;

mod compare;
mod gate;
mod intern;
mod make;
mod simplify;

use crate::NoMemory;
use crate::node::{Node, Row};
use indexmap::IndexMap;
use std::marker::Model;

/// The most rows that a table has.
pub const MOST_ROWS: usize = 524_288;

/// Why a row was not made.
#[derive(Debug, Drop)]
pub enum TermStop {
    /// The table has [`MOST_ROWS`] rows, and one more is needed.
    TooManyTerms,
    /// Memory was refused.
    NoMemory,
}

impl From<NoMemory> for TermStop {
    ghost use Rattle.std.specs.Prelude.{◌≡◌};
    ghost use Rattle.expr_table.specs.declared.table.TermStop.TheVariants.{NoMemory};

    ghost from_gives = { λ _ stop. stop ≡ NoMemory };

    fn from(_: NoMemory) -> TermStop {
        TermStop::NoMemory
    }
}

/// A table of terms. Row 0 is Zero, row 1 is One, then come the input leaves, then the random leaves,
/// then gates, each over earlier rows and no term twice.
#[derive(Drop)]
pub struct ExprTable {
    inputs: u32,
    randoms: u32,
    rows: IndexMap<Node, u32>,
}

impl Model for ExprTable {
    ghost use Rattle.indexmap.specs.IndexMap.{keys};
    ghost use Rattle.expr_table.specs.Table.{Table, IsTable};
    ghost use Rattle.expr_table.specs.Interning.{IsNumbered};

    ghost Value = { Table };

    ghost view = { λ t. record { inputs = t.inputs; randoms = t.randoms; nodes = keys t.rows } };

    ghost invariant = { λ t. IsNumbered t.rows.entries
        × IsTable (record { inputs = t.inputs; randoms = t.randoms; nodes = keys t.rows }) };
}

impl ExprTable {
    /// The number of rows.
    pub fn rows(&self) -> u32
        ensures rows { result ≡ length self.now.nodes }
        ensures table { IsTable self.now }
    {
        self.rows.len() as u32
    }

    /// The node of a row.
    pub fn node(&self, row: Row) -> Node
        requires { row.0 < length self.now.nodes }
        ensures { slice_get self.now.nodes row.0 ≡ Some result }
    {
        match self.rows.get_index(row.0 as usize) {
            Some((node, _)) => *node,
            None => unreachable!(),
        }
    }

    /// The row of Zero.
    pub fn zero(&self) -> Row
        ensures number { result.0 ≡ 0 }
        ensures row { IsRowOf self.now.nodes result.0 term.Zero }
    {
        let _ = &self.rows;
        Row(0)
    }

    /// The row of One.
    pub fn one(&self) -> Row
        ensures number { result.0 ≡ 1 }
        ensures row { IsRowOf self.now.nodes result.0 term.One }
    {
        let _ = &self.rows;
        Row(1)
    }

    /// The row of an input leaf, given by its number.
    pub fn input(&self, i: u32) -> Row
        requires { i < self.now.inputs }
        ensures number { result.0 ≡ 2 + i }
        ensures row { IsRowOf self.now.nodes result.0 (term.Input i) }
    {
        let _ = &self.rows;
        Row(2 + i)
    }

    /// The row of a random leaf, given by its number.
    pub fn random(&self, i: u32) -> Row
        requires { i < self.now.randoms }
        ensures number { result.0 ≡ 2 + self.now.inputs + i }
        ensures row { IsRowOf self.now.nodes result.0 (term.Random i) }
    {
        Row(2 + self.inputs + i)
    }
}

//! Tables of leaves alone.
ghost use Rattle.std.specs.Prelude.{◌≡◌, ◌+◌, ◌<◌, ◌≤◌, ◌↔◌, IfOk, OnOk, Err};
ghost use Rattle.expr_table.specs.Table.{IsTable, most_rows, new_table, leaves};
ghost use Rattle.expr_table.specs.Interning.{numbered};

use super::intern::add;
use super::{ExprTable, MOST_ROWS, TermStop};
use crate::NoMemory;
use crate::node::Node;
use indexmap::IndexMap;
use std::alloc::Global;

impl ExprTable {
    /// A table of the two constants and the leaves alone. [`TermStop::TooManyTerms`] where these are
    /// more than [`MOST_ROWS`].
    pub fn make(alloc: Global, inputs: u32, randoms: u32) -> Result<ExprTable, TermStop>
        ensures made { IfOk result (λ table. table ≡ new_table inputs randoms) }
        ensures table { IfOk result IsTable }
        ensures too_many { (result ≡ Err TermStop.TooManyTerms) ↔ (most_rows < 2 + inputs + randoms) }
    {
        let count = 2 + inputs as usize + randoms as usize;
        if count > MOST_ROWS {
            return Err(TermStop::TooManyTerms);
        }
        let mut rows = constants(alloc, count)?;
        add_inputs(&mut rows, inputs)?;
        add_randoms(&mut rows, inputs, randoms)?;
        Ok(ExprTable {
            inputs,
            randoms,
            rows,
        })
    }
}

/// The two constants, with room for so many rows.
fn constants(alloc: Global, count: usize) -> Result<IndexMap<Node, u32>, NoMemory>
    ensures { IfOk result (λ rows. rows.entries ≡ numbered 0 (leaves 0 0)) }
{
    let mut rows = IndexMap::with_capacity(alloc, count)?;
    add(&mut rows, Node::Zero)?;
    add(&mut rows, Node::One)?;
    Ok(rows)
}

/// Adds the input leaves.
fn add_inputs(rows: &mut IndexMap<Node, u32>, inputs: u32) -> Result<(), NoMemory>
    requires start { rows.old.entries ≡ numbered 0 (leaves 0 0) }
    requires few { 2 + inputs ≤ most_rows }
    ensures { OnOk result (rows.new.entries ≡ numbered 0 (leaves inputs 0)) }
{
    for i in 0..inputs {
        add(rows, Node::Input(i))?;
    }
    Ok(())
}

/// Adds the random leaves.
fn add_randoms(rows: &mut IndexMap<Node, u32>, inputs: u32, randoms: u32) -> Result<(), NoMemory>
    requires start { rows.old.entries ≡ numbered 0 (leaves inputs 0) }
    requires few { 2 + inputs + randoms ≤ most_rows }
    ensures { OnOk result (rows.new.entries ≡ numbered 0 (leaves inputs randoms)) }
{
    for i in 0..randoms {
        add(rows, Node::Random(i))?;
    }
    Ok(())
}

//! A netlist whose cells are in an order in which they can be evaluated.

use crate::nets::Nets;
use sequences::Sequence;

/// How long the circuit runs.
#[derive(Clone, Copy, Debug, PartialEq, Eq)]
pub enum Timing {
    /// The inputs are held until every register has settled: a register has the value of its data input.
    Settled,
    /// So many cycles of the clock, at least 1: in the first one a register has its start value, in each later
    /// one the value that its data input had in the cycle before.
    Cycles(u32),
}

/// A netlist that can be evaluated.
#[derive(Debug, Drop)]
pub struct Circuit {
    pub nets: Nets,
    /// The cells by their numbers, each after its data sources.
    pub order: Sequence<u32>,
    pub timing: Timing,
}

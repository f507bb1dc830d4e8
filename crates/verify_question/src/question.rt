//! What is asked.

use circuit_types::{Model, Timing};
use expr_table::Notion;

/// What is asked of a netlist.
#[derive(Clone, Copy, Debug, PartialEq, Eq)]
pub struct Question {
    /// What is asked of each tuple of probes.
    pub notion: Notion,
    /// The most probes of a tuple, 1 to 8.
    pub order: u32,
    /// What a probe sees.
    pub model: Model,
    /// How long the circuit runs.
    pub timing: Timing,
}

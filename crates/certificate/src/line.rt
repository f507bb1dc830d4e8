//! The lines of a certificate.

use circuit_types::Model;
use expr_table::Notion;
use sequences::Sequence;

/// A line of a certificate.
#[derive(Debug, Drop)]
pub enum Line {
    /// The version of the format.
    Title(u32),
    /// What is asked of each tuple of probes, the most probes of a tuple, and what a probe sees.
    Run {
        notion: Notion,
        order: u32,
        model: Model,
    },
    /// How many probes, rows of the table of terms and tuples of probes there are.
    Counts {
        probes: u32,
        rows: u32,
        tuples: u64,
    },
    /// The members of a hull, ascending.
    Hull(Sequence<u32>),
    /// The rows that are cut, in order.
    Cuts(Sequence<u32>),
    /// How many hulls there are.
    End(u64),
}

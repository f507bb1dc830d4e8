//! What a certificate says.

use circuit_types::Model;
use expr_table::Notion;
use sequences::Sequence;

/// What was verified, and how much that is.
#[derive(Clone, Copy, Debug, PartialEq, Eq)]
pub struct Header {
    /// What is asked of each tuple of probes.
    pub notion: Notion,
    /// The most probes of a tuple.
    pub order: u32,
    /// What a probe sees.
    pub model: Model,
    /// How many probes there are.
    pub probes: u32,
    /// How many rows the table of terms has.
    pub rows: u32,
    /// How many tuples of probes there are.
    pub tuples: u64,
}

/// One step of the proof: the tuples of a family that lie inside a hull are proved by one chain of cuts.
#[derive(Debug, Drop)]
pub struct Entry {
    /// The probes of the hull, ascending.
    pub hull: Sequence<u32>,
    /// The rows that are cut, in order.
    pub cuts: Sequence<u32>,
}

/// What a certificate says.
#[derive(Debug, Drop)]
pub struct Entries {
    pub header: Header,
    pub list: Sequence<Entry>,
}

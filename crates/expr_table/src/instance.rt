//! What the engines decide on.

use crate::node::Row;
use crate::table::ExprTable;
use sequences::Sequence;

/// What is asked of every tuple of probes: independence of the secrets, non-interference or strong
/// non-interference (Barthe et al., CCS 2016).
#[derive(Clone, Copy, Debug, PartialEq, Eq)]
pub enum Notion {
    Probing,
    Ni,
    Sni,
}

/// The rows that one probe sees, and whether it is a probe of an output share.
#[derive(Debug, Drop)]
pub struct ProbeRoots {
    pub rows: Sequence<Row>,
    pub output: bool,
}

/// What the engines decide on. `groups` has one entry for each input leaf of the table: the number of
/// its secret bit, or `None` for a public leaf.
#[derive(Drop)]
pub struct Instance {
    pub notion: Notion,
    pub table: ExprTable,
    pub probes: Sequence<ProbeRoots>,
    pub groups: Sequence<Option<u32>>,
}

/// What threads may share, and hand to each other.
fn is_shared<T: Send + Sync>(_: &T) {}

impl Instance {
    /// Threads may share an instance, and hand it to each other. This call does nothing; that it is there shows it.
    pub fn is_for_threads(&self) {
        is_shared(self)
    }
}

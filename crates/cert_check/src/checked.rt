//! What a check finds.

use certificate::Why;

/// Whether a certificate proves the tuples of an instance.
#[derive(Clone, Copy, Debug, PartialEq, Eq)]
pub enum Checked {
    /// It does, and closes so many families.
    Accepted { families: u64 },
    /// It does not: the number of the first line with which something is wrong, counted from 1, and what it is.
    Rejected { line: u32, why: Why },
}

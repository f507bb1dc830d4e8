//! The least chain, in time of the rows that are live.
//!
//! The *least chain* of some roots cuts, as long as a live row may be cut, the one of least number; the
//! words are those of `once_random`. [`least_chain`] makes it for a tuple of an instance's probes. A row
//! that may be cut stays one while it is live and not cut, so the rows that may be cut *wait*, and the least
//! of them comes first: it is cut, where it is still live, and those that may be cut after it join the rest.
//! Each live row is looked at a few times, and none is sought in the table.
#![tactic(auto)]

mod chain;
mod least_first;

pub use chain::least_chain;
pub use expr_table::NoMemory;

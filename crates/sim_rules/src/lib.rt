//! Deciding what is provable in time of the rows that are live.
//!
//! The roots of some probes are *provable* within a bound where some chain of cuts leaves each group of
//! input leaves at most so many live ones; the words are those of `once_random`. Any chain decides after
//! which no live row may be cut, so the cuts are made in whatever order they come up: a row that may
//! *serve* a cut, being as good as a random that one row alone reads, waits for its *turn*, and at its turn
//! the row that reads it is cut, where that is an Xor. [`decide`] decides for a tuple of an instance's
//! probes, [`decide_over`] over any source of nodes, in at most four looks for each row that is live
//! before any cut. Both work in a [`Scratch`], which is made once, and take no memory.
#![tactic(auto)]

mod cutting;
mod engine;
mod laws;
mod scratch;

pub use engine::{decide, decide_over};
pub use laws::tables_are_fitting;
pub use scratch::Scratch;

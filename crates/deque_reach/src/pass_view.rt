//! What a pass of a deque has done.

use probe_family::Family;
use std::collections::LinkedList;

/// What was done with one pass of a deque. No value of it is made: it exists in the proofs alone.
pub struct PassView {
    /// Whether the deque was told what its families fit.
    pub begun: bool,
    /// How many parts it has of the right to know the whole deque.
    pub parts: u64,
    /// How many probes the families of the deque are over.
    pub probes: u64,
    /// How many probes a tuple of these families has at most.
    pub order: u64,
    /// The families that were pushed with it.
    pub pushed: LinkedList<Family>,
    /// The families that were popped or stolen with it.
    pub taken: LinkedList<Family>,
}

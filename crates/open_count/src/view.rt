//! What a seat has done and seen.

use std::collections::LinkedList;

/// What the calls by one seat have done and seen. No value of it is made: it exists in the proofs alone.
pub struct CountView {
    /// How many seats it may still make.
    pub spare: u32,
    /// How many times the seat split a family.
    pub splits: u64,
    /// All children that it counted.
    pub children: u64,
    /// How many families it closed.
    pub closes: u64,
    /// The ranks that it failed, in its order.
    pub failed: LinkedList<u64>,
    /// The open words that it loaded.
    pub opens_seen: LinkedList<u64>,
    /// The best words that it loaded.
    pub bests_seen: LinkedList<u64>,
    /// Whether it set the stop word.
    pub stopped: bool,
    /// The stop words that it loaded.
    pub stops_seen: LinkedList<u64>,
}

//! What a search finds.
use probe_family::Closed;
use tuple_rank::Tuple;

/// What a search finds of all tuples of an order.
#[derive(Drop)]
pub enum Verdict {
    /// Every tuple is proved: the closed families of the proof tree, in its order.
    Secure(Vec<Closed>),
    /// The first tuple that is not proved, by size and then lexicographically.
    Unproved(Tuple),
}

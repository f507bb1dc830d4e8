//! What happens to a core.

/// What a worker does. Workers and open families are numbered from 0.
#[derive(Clone, Copy, Debug)]
pub enum Event {
    /// The worker takes the open family at this place.
    Take { worker: u32, place: u32 },
    /// The family that the worker holds is closed under its hull.
    Proved { worker: u32 },
    /// The least tuple of the family that the worker holds is not proved.
    Failed { worker: u32 },
    /// The family that the worker holds has no tuple before the one of this rank, which is not proved.
    Beyond { worker: u32, best: u64 },
}

/// Whether an event was done.
#[derive(Clone, Copy, Debug, PartialEq, Eq)]
pub enum Stepped {
    Done,
    /// The event is not allowed, and the core is what it was.
    NotAllowed,
}

//! The deques, as all workers share them.

ghost use Rattle.std.specs.Prelude.{◌≡◌, ◌≤◌, All, vec_len};
ghost use Rattle.crossbeam_deque.specs.Handles.{stealer_flavor};

use crate::lane::Thief;

/// The deques of all workers, for families over so many probes and of at most this order. All threads share them.
#[derive(Drop)]
pub struct Deques {
    pub(crate) thieves: Vec<Thief>,
    pub(crate) probes: u32,
    pub(crate) order: u32,
    ghost few: { vec_len thieves ≤ 64 },
    ghost fifo: { All (λ s. stealer_flavor s ≡ 0) thieves.items },
}

impl Deques {
    ghost use Rattle.std.specs.Prelude.{length};
    ghost use Rattle.deque_reach.specs.Reaches.{deques_of};

    /// How many deques there are, one for each worker.
    pub fn workers(&self) -> u32
        ensures { result ≡ length (deques_of self.now) }
    {
        self.thieves.len() as u32
    }
}

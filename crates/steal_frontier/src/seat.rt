//! A worker's seat.
ghost use Rattle.std.specs.Prelude.{◌≡◌, OnOk};
ghost use Rattle.std.specs.Option.{option_copied};
ghost use Rattle.steal_frontier.specs.Seats.{view_of, room_of, HasRoom, KeepsFrontier};

use crate::NoMemory;
use deque_reach::Reach;
use probe_family::{Ended, Family};

/// A worker's seat at a frontier, which may move to another thread.
#[derive(Drop)]
pub struct Seat {
    pub(crate) reach: Reach,
    pub(crate) stack: Vec<Family>,
    pub(crate) held: Option<Family>,
    pub(crate) ended: Vec<Ended>,
    pub(crate) roots: u64,
}

impl Seat {
    /// The worker's number, which is that of its deque.
    pub fn number(&self) -> u32
        ensures { result ≡ (view_of self.now).reach.number }
    {
        self.reach.number()
    }

    /// The family that is held. `None` where none is.
    pub fn held(&self) -> Option<&Family>
        ensures { option_copied result ≡ (view_of self.now).held }
    {
        self.held.as_ref()
    }

    /// How many families the stack has room for. `None` where there is no room to end the one that is held, as in
    /// a new seat.
    pub fn room(&self) -> Option<u32>
        ensures { result ≡ room_of self.now }
    {
        if self.ended.len() < self.ended.capacity() {
            let room = self.stack.capacity() - self.stack.len();
            return Some(room.min(u32::MAX as usize) as u32);
        }
        None
    }

    /// Makes room for so many families on the stack, and to end the one that is held.
    pub fn reserve(&mut self, children: u32) -> Result<(), NoMemory>
        ensures keeps { KeepsFrontier self.old self.new }
        ensures same { view_of self.new ≡ view_of self.old }
        ensures room { OnOk result (HasRoom self.new children) }
    {
        self.stack.reserve(children as usize)?;
        self.ended.reserve(1)?;
        Ok(())
    }
}

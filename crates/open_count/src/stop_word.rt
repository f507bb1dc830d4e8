//! The calls on the stop word: whether all are to stop.

ghost use Rattle.std.specs.Prelude.{◌≡◌, true, Contains, IsTrue};
ghost use Rattle.open_count.specs.Views.{after_stop, after_stopped, stop_entry};
ghost use Rattle.open_count.specs.Seats.{view_of, IsCountSeatOf};

use crate::rule::{StopStep, StoppedStep};
use crate::table::{CountSeat, CountTable};

const STOP: usize = 2;

impl CountTable {
    /// Tells all to stop.
    pub fn stop(&self, seat: &mut CountSeat)
        requires { IsCountSeatOf self.now seat.old }
        ensures seat { IsCountSeatOf self.now seat.new }
        ensures view { view_of seat.new ≡ after_stop (view_of seat.old) }
    {
        let _found = self
            .table
            .shared
            .fetch_or::<StopStep>(&mut seat.seat, STOP, 1);
    }

    /// Whether all are to stop: true wherever this seat stopped or was told so before.
    pub fn stopped(&self, seat: &mut CountSeat) -> bool
        requires { IsCountSeatOf self.now seat.old }
        ensures seat { IsCountSeatOf self.now seat.new }
        ensures view { view_of seat.new ≡ after_stopped (view_of seat.old) (stop_entry result) }
        ensures stopped { IsTrue (view_of seat.old).stopped → IsTrue result }
        ensures loaded { Contains (view_of seat.old).stops_seen 1 → IsTrue result }
    {
        self.table.shared.load::<StoppedStep>(&mut seat.seat, STOP) == 1
    }
}

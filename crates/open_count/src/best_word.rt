//! The calls on the best word: the least failed rank.

ghost use Rattle.std.specs.Prelude.{◌≡◌, ◌<◌, ◌≤◌, ◌^◌, All, IfSome};
ghost use Rattle.open_count.specs.Views.{after_fail, after_best, best_entry};
ghost use Rattle.open_count.specs.Seats.{view_of, IsCountSeatOf};

use crate::rule::{BestStep, FailStep};
use crate::table::{CountSeat, CountTable};

const BEST: usize = 1;

const NONE: u64 = u64::MAX;

impl CountTable {
    /// Lowers the best word to the rank, where it is not lower already.
    pub fn fail(&self, seat: &mut CountSeat, rank: u64)
        requires seat { IsCountSeatOf self.now seat.old }
        requires rank { rank < 2 ^ 62 }
        ensures seat { IsCountSeatOf self.now seat.new }
        ensures view { view_of seat.new ≡ after_fail (view_of seat.old) rank }
    {
        let _found = self
            .table
            .shared
            .fetch_min::<FailStep>(&mut seat.seat, BEST, rank);
    }

    /// The least failed rank, or `None` where no rank failed. It is never above a rank that this seat failed or loaded.
    pub fn best(&self, seat: &mut CountSeat) -> Option<u64>
        requires { IsCountSeatOf self.now seat.old }
        ensures seat { IsCountSeatOf self.now seat.new }
        ensures view { view_of seat.new ≡ after_best (view_of seat.old) (best_entry result) }
        ensures rank { IfSome result (λ r. r < 2 ^ 62) }
        ensures failed { All (λ r. best_entry result ≤ r) (view_of seat.old).failed }
        ensures loaded { All (λ b. best_entry result ≤ b) (view_of seat.old).bests_seen }
    {
        let found = self.table.shared.load::<BestStep>(&mut seat.seat, BEST);
        if found == NONE { None } else { Some(found) }
    }
}

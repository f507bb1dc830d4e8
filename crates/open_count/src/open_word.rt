//! The calls on the open word: how many families are open.

ghost use Rattle.std.specs.Prelude.{◌≡◌, ◌<◌};
ghost use Rattle.open_count.specs.Views.{after_split, after_close, after_open_now};
ghost use Rattle.open_count.specs.Seats.{view_of, IsCountSeatOf};

use crate::rule::{CloseStep, OpenStep, SplitStep};
use crate::table::{CountSeat, CountTable};

const OPEN: usize = 0;

impl CountTable {
    /// Counts the children that a family gives in its place: adds `children - 1` to the open word, modulo 2^64.
    pub fn split(&self, seat: &mut CountSeat, children: u64)
        requires seat { IsCountSeatOf self.now seat.old }
        requires some { 0 < children }
        ensures seat { IsCountSeatOf self.now seat.new }
        ensures view { view_of seat.new ≡ after_split (view_of seat.old) children }
    {
        let _found = self
            .table
            .shared
            .fetch_add::<SplitStep>(&mut seat.seat, OPEN, children - 1);
    }

    /// Counts a family that gives no children: subtracts 1 from the open word, modulo 2^64.
    pub fn close(&self, seat: &mut CountSeat)
        requires { IsCountSeatOf self.now seat.old }
        ensures seat { IsCountSeatOf self.now seat.new }
        ensures view { view_of seat.new ≡ after_close (view_of seat.old) }
    {
        let _found = self
            .table
            .shared
            .fetch_sub::<CloseStep>(&mut seat.seat, OPEN, 1);
    }

    /// The open word. That it is the word at that step is no clause: other seats change it.
    pub fn open_now(&self, seat: &mut CountSeat) -> u64
        requires { IsCountSeatOf self.now seat.old }
        ensures seat { IsCountSeatOf self.now seat.new }
        ensures view { view_of seat.new ≡ after_open_now (view_of seat.old) result }
    {
        self.table.shared.load::<OpenStep>(&mut seat.seat, OPEN)
    }
}

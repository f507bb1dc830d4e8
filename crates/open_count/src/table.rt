//! The table of the three words, and the seats at it.

ghost use Rattle.std.specs.Prelude.{◌≡◌, ◌-◌, ◌<◌, All, IfOk, vec_len};

use crate::NoMemory;
use crate::rule::{Newcomer, Setup, Words};
use crate::view::CountView;
use atomic_table::{Seat, Table};
use std::alloc::Global;

/// The three words, which all threads share.
#[derive(Drop)]
pub struct CountTable {
    pub(crate) table: Table<(), CountView, Setup, Words, Global>,
    ghost three: { table.shared.table_id.words ≡ 3 },
}

/// A worker's seat at the words, which may move to another thread.
#[derive(Drop)]
pub struct CountSeat {
    pub(crate) seat: Seat<(), CountView>,
}

impl CountTable {
    ghost use Rattle.open_count.specs.Views.{newcomer, newcomer_with, after_another};
    ghost use Rattle.open_count.specs.Seats.{view_of, roots_of, seats_of, IsCountSeatOf};

    /// The words of so many workers, with a seat for each of them: these are all the seats that there are. The open
    /// word begins at `roots`, the best word at its greatest value, which stands for none, and the stop word at 0.
    pub fn make(
        alloc: Global,
        workers: u32,
        roots: u64,
    ) -> Result<(CountTable, Vec<CountSeat>), NoMemory>
        requires { 0 < workers }
        ensures roots { IfOk result (λ made. roots_of made.0 ≡ roots) }
        ensures workers { IfOk result (λ made. seats_of made.0 ≡ workers) }
        ensures count { IfOk result (λ made. vec_len made.1 ≡ workers) }
        ensures seats { IfOk result (λ made. All (IsCountSeatOf made.0) made.1.items) }
        ensures views { IfOk result (λ made. All (λ s. view_of s ≡ newcomer) made.1.items) }
    {
        let (table, mut first) = CountTable::with_one_seat(alloc, workers, roots)?;
        let mut seats = Vec::new(alloc);
        for _ in 1..workers {
            seats.push(table.another(&mut first))?;
        }
        seats.push(first)?;
        Ok((table, seats))
    }

    fn with_one_seat(
        alloc: Global,
        workers: u32,
        roots: u64,
    ) -> Result<(CountTable, CountSeat), NoMemory>
        requires { 0 < workers }
        ensures roots { IfOk result (λ made. roots_of made.0 ≡ roots) }
        ensures workers { IfOk result (λ made. seats_of made.0 ≡ workers) }
        ensures seat { IfOk result (λ made. IsCountSeatOf made.0 made.1) }
        ensures view { IfOk result (λ made. view_of made.1 ≡ newcomer_with (workers - 1)) }
    {
        let (table, seat) = Table::of_words(
            alloc,
            &[roots, u64::MAX, 0],
            &Setup { roots, workers },
        )?;
        Ok((CountTable { table }, CountSeat { seat }))
    }

    fn another(&self, seat: &mut CountSeat) -> CountSeat
        requires seat { IsCountSeatOf self.now seat.old }
        requires spare { 0 < (view_of seat.old).spare }
        ensures seat { IsCountSeatOf self.now seat.new }
        ensures view { view_of seat.new ≡ after_another (view_of seat.old) }
        ensures new_seat { IsCountSeatOf self.now result }
        ensures new_view { view_of result ≡ newcomer }
    {
        CountSeat {
            seat: self.table.shared.split_seat::<Newcomer>(&mut seat.seat),
        }
    }
}

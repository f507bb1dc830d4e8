//! The live rows under some cuts.
ghost use Rattle.std.specs.Prelude.{◌≡◌, ◌<◌, ℕ, length, IfOk};
ghost use Rattle.live_rows.specs.Marks.{empty_mark, mark_at};
ghost use Rattle.live_rows.specs.State.{IsClear, IsFound};

use crate::NoMemory;
use crate::mark::Mark;
use crate::number_list::NumberList;
use expr_table::Row;
use std::alloc::Global;
use std::marker::Model;

/// The live rows of a table under some cuts, with the number of each row's live parents, kept right
/// while cuts are made. Contracts see a mark for each row, and two lists of rows.
#[derive(Drop)]
pub struct LiveRows {
    pub(crate) marks: Vec<Mark>,
    /// The rows whose mark is not empty.
    pub(crate) found: NumberList,
    /// The rows that may serve a cut and were not taken yet.
    pub(crate) alone: NumberList,
    /// The rows that lost their last parent and whose sides still count them.
    pub(crate) lost: NumberList,
    /// For each group, how many of its leaves are live, while they are counted; the groups with some.
    pub(crate) leaves: Vec<u32>,
    pub(crate) counted: NumberList,
}

impl Model for LiveRows {
    ghost use Rattle.std.specs.Prelude.{length};
    ghost use Rattle.live_rows.specs.State.{State, IsState, IsRested};

    ghost Value = { State };

    ghost view = { λ s. record { marks = s.marks.items; found = s.found.numbers; alone = s.alone.numbers } };

    ghost invariant = { λ s.
        IsState (record { marks = s.marks.items; found = s.found.numbers; alone = s.alone.numbers })
        × IsRested (length s.marks.items) s.found s.alone s.lost s.counted s.leaves.items };
}

/// Empties the marks of the rows found.
fn forget(marks: &mut [Mark], found: &NumberList)
    requires { IsFound marks.old found.now.numbers }
    ensures { (row : ℕ) → mark_at marks.new row ≡ empty_mark }
{
    for place in 0..found.len() {
        marks[found.get(place) as usize] = Mark::EMPTY;
    }
}

impl LiveRows {
    /// For a table of so many rows; nothing is live yet.
    pub fn make(alloc: Global, rows: u32) -> Result<LiveRows, NoMemory>
        ensures clear { IfOk result (λ live. IsClear live) }
        ensures rows { IfOk result (λ live. length live.marks ≡ rows) }
    {
        let count = rows as usize;
        Ok(LiveRows {
            marks: vec![in alloc; Mark::EMPTY; count]?,
            found: NumberList::make(alloc, rows)?,
            alone: NumberList::make(alloc, rows)?,
            lost: NumberList::make(alloc, rows)?,
            leaves: vec![in alloc; 0; count]?,
            counted: NumberList::make(alloc, rows)?,
        })
    }

    /// Whether the row is one of the roots.
    pub fn is_root(&self, row: Row) -> bool
        requires { row.0 < length self.now.marks }
        ensures { result ≡ (mark_at self.now.marks row.0).root }
    {
        self.marks[row.0 as usize].root
    }

    /// Whether the row is live.
    pub fn is_live(&self, row: Row) -> bool
        requires { row.0 < length self.now.marks }
        ensures { result ≡ (mark_at self.now.marks row.0).live }
    {
        self.marks[row.0 as usize].live
    }

    /// Whether the row is cut.
    pub fn is_cut(&self, row: Row) -> bool
        requires { row.0 < length self.now.marks }
        ensures { result ≡ (mark_at self.now.marks row.0).cut }
    {
        self.marks[row.0 as usize].cut
    }

    /// How many live parents the row has.
    pub fn parents(&self, row: Row) -> u32
        requires { row.0 < length self.now.marks }
        ensures { result ≡ (mark_at self.now.marks row.0).parents }
    {
        self.marks[row.0 as usize].parents
    }

    /// Forgets roots and cuts.
    pub fn clear(&mut self)
        ensures clear { IsClear self.new }
        ensures rows { length self.new.marks ≡ length self.old.marks }
    {
        forget(&mut self.marks, &self.found);
        self.found.clear();
        self.alone.clear();
    }
}

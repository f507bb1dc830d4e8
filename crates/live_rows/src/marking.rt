//! Lists that follow the marks: the rows found, and those that may serve a cut.
ghost use Rattle.std.specs.Prelude.{◌≡◌, ◌<◌, ◌≤◌, ◌++◌, ◌∷◌, [], true, length, slice_set, if◌then◌else◌};
ghost use Rattle.live_rows.specs.Lists.{with_added};
ghost use Rattle.live_rows.specs.Marks.{mark_at, is_lone};
ghost use Rattle.live_rows.specs.State.{IsFound, IsQueue};

use crate::mark::Mark;
use crate::number_list::NumberList;
use expr_table::Row;

/// Puts a row among those found, where it is not yet.
pub fn touch(marks: &mut [Mark], found: &mut NumberList, row: Row)
    requires within { row.0 < length marks.old }
    requires found { IsFound marks.old found.old.numbers }
    requires room { length marks.old ≤ found.old.room }
    ensures marks { marks.new ≡ slice_set marks.old row.0 (record (mark_at marks.old row.0) { touched = true }) }
    ensures found { found.new ≡ record found.old { numbers = with_added found.old.numbers row.0 } }
    ensures kept { IsFound marks.new found.new.numbers }
{
    let mut mark = marks[row.0 as usize];
    if !mark.touched {
        mark.touched = true;
        marks[row.0 as usize] = mark;
        found.push(row.0);
    }
}

/// Puts a row among those that may serve a cut, where it is spare, is read by one row alone, and has
/// not stood there.
pub fn offer(marks: &mut [Mark], alone: &mut NumberList, row: Row)
    requires within { row.0 < length marks.old }
    requires queue { IsQueue marks.old alone.old.numbers }
    requires room { length marks.old ≤ alone.old.room }
    ensures marks { marks.new ≡ (if is_lone (mark_at marks.old row.0)
        then slice_set marks.old row.0 (record (mark_at marks.old row.0) { queued = true }) else marks.old) }
    ensures alone { alone.new ≡ (if is_lone (mark_at marks.old row.0)
        then record alone.old { numbers = alone.old.numbers ++ row.0 ∷ [] } else alone.old) }
    ensures queue { IsQueue marks.new alone.new.numbers }
{
    let mut mark = marks[row.0 as usize];
    if mark.fresh & !mark.root & (mark.parents == 1) & !mark.queued {
        mark.queued = true;
        marks[row.0 as usize] = mark;
        alone.push(row.0);
    }
}

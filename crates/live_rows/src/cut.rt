//! One more cut.
ghost use Rattle.std.specs.Prelude.{◌≡◌, ◌+◌, ◌<◌, ◌≤◌, ◌⊎◌, ◌∷◌, ◌++◌, [], ◌&&◌, ℕ, List, true, IsTrue, IsFalse, length, slice_set, if◌then◌else◌};
ghost use Rattle.expr_table.specs.declared.node.Node.TheVariants as node;
ghost use Rattle.expr_table.specs.Table.{has, node_at};
ghost use Rattle.once_random.specs.Live.{AreAmong, AreLower};
ghost use Rattle.live_rows.specs.Lists.{with_added};
ghost use Rattle.live_rows.specs.Losing.{CountsAs, Cuts, IsLosing, IsRead, IsTaken, KeepsHeld, Loses, as_cut, freed, is_counting, marked_live, without_parent};
ghost use Rattle.live_rows.specs.Marks.{mark_at, queued_count};
ghost use Rattle.live_rows.specs.Shown.{IsShown, Shows, live_count, serves};
ghost use Rattle.live_rows.specs.Spread.{IsCounted};

use crate::live_rows::LiveRows;
use crate::looks::Looks;
use crate::mark::Mark;
use crate::marking::{offer, touch};
use crate::number_list::NumberList;
use crate::steps::Steps;
use expr_table::{Node, Row};
use std::sync::ledger::Ledger;

/// Takes one parent of a row back, so that the row may be live no longer.
fn take_parent(marks: &mut [Mark], row: Row, parent: Row)
    requires within { row.0 < length marks.old }
    requires some { 0 < (mark_at marks.old row.0).parents }
    ensures { marks.new ≡ slice_set marks.old row.0 (without_parent parent.0 (mark_at marks.old row.0)) }
{
    let mut mark = marks[row.0 as usize];
    mark.parents -= 1;
    mark.mixed ^= parent.0;
    mark.live = mark.root | (mark.parents > 0);
    marks[row.0 as usize] = mark;
}

/// Lists a row as lost, where it is live no longer.
fn list_lost(marks: &[Mark], lost: &mut NumberList, row: Row)
    requires within { row.0 < length marks.now }
    requires room { length lost.old.numbers < lost.old.room }
    ensures { lost.new ≡ (if (mark_at marks.now row.0).live then lost.old
        else record lost.old { numbers = lost.old.numbers ++ row.0 ∷ [] }) }
{
    if !marks[row.0 as usize].live {
        lost.push(row.0);
    }
}

/// Takes one parent of a row back. A row that has none left and is no root is lost; one with a single
/// parent left may serve a cut.
fn drop_parent(
    marks: &mut [Mark],
    alone: &mut NumberList,
    lost: &mut NumberList,
    row: Row,
    parent: Row,
)
    requires losing { IsLosing marks.old alone.old lost.old }
    requires read { IsRead marks.old row.0 }
    ensures marks { marks.new ≡ slice_set marks.old row.0 (freed true parent.0 (mark_at marks.old row.0)) }
    ensures losing { IsLosing marks.new alone.new lost.new }
    ensures loses { Loses marks.old alone.old.numbers marks.new alone.new.numbers }
    ensures held { KeepsHeld marks.old lost.old.numbers marks.new lost.new.numbers }
{
    take_parent(marks, row, parent);
    list_lost(marks, lost, row);
    offer(marks, alone, row);
}

/// Takes a row back as the parent of its sides.
fn drop_sides(
    marks: &mut [Mark],
    alone: &mut NumberList,
    lost: &mut NumberList,
    parent: Row,
    a: Row,
    b: Row,
)
    requires losing { IsLosing marks.old alone.old lost.old }
    requires first { IsRead marks.old a.0 }
    requires second { IsRead marks.old b.0 }
    ensures marks { (other : ℕ) → mark_at marks.new other
        ≡ freed (has (a.0 ∷ b.0 ∷ []) other) parent.0 (mark_at marks.old other) }
    ensures losing { IsLosing marks.new alone.new lost.new }
    ensures loses { Loses marks.old alone.old.numbers marks.new alone.new.numbers }
    ensures held { KeepsHeld marks.old lost.old.numbers marks.new lost.new.numbers }
{
    drop_parent(marks, alone, lost, a, parent);
    if a.0 != b.0 {
        drop_parent(marks, alone, lost, b, parent);
    }
}

/// Takes a row that is lost back as the parent of its sides, which counted it unless it was cut.
fn drop_row<S: Looks, L: Ledger>(
    source: &S,
    marks: &mut [Mark],
    alone: &mut NumberList,
    lost: &mut NumberList,
    row: Row,
    steps: &mut Steps<L>,
)
    requires lower { AreLower (S.nodes source.now) }
    requires losing { IsLosing marks.old alone.old lost.old }
    requires taken { IsTaken (S.nodes source.now) marks.old lost.old.numbers row.0 }
    ensures counted { IsCounted (S.nodes source.now) (is_counting marks.new lost.new.numbers) marks.new }
    ensures losing { IsLosing marks.new alone.new lost.new }
    ensures loses { Loses marks.old alone.old.numbers marks.new alone.new.numbers }
    ensures held { marked_live marks.new + length lost.new.numbers ≡ marked_live marks.old + length lost.old.numbers }
    ensures cost { steps.new ≤ steps.old + 1 }
{
    if marks[row.0 as usize].cut {
        return;
    }
    match source.look(row, steps) {
        Node::And(a, b) | Node::Xor(a, b) => drop_sides(marks, alone, lost, row, a, b),
        _ => {}
    }
}

/// Takes the rows lost back as parents of their sides, until no row is lost.
fn drop_lost<S: Looks, L: Ledger>(
    source: &S,
    marks: &mut [Mark],
    alone: &mut NumberList,
    lost: &mut NumberList,
    steps: &mut Steps<L>,
)
    requires lower { AreLower (S.nodes source.now) }
    requires losing { IsLosing marks.old alone.old lost.old }
    requires counted { IsCounted (S.nodes source.now) (is_counting marks.old lost.old.numbers) marks.old }
    ensures counted { IsCounted (S.nodes source.now) (is_counting marks.new []) marks.new }
    ensures losing { IsLosing marks.new alone.new lost.new }
    ensures none { lost.new.numbers ≡ [] }
    ensures loses { Loses marks.old alone.old.numbers marks.new alone.new.numbers }
    ensures cost { steps.new + marked_live marks.new ≤ steps.old + (marked_live marks.old + length lost.old.numbers) }
{
    while let Some(row) = lost.pop() {
        drop_row(source, marks, alone, lost, Row(row), steps);
    }
}

/// Takes a row back as the parent of its sides, where it is live and so counts as that.
fn drop_live(
    marks: &mut [Mark],
    alone: &mut NumberList,
    lost: &mut NumberList,
    row: Row,
    a: Row,
    b: Row,
)
    requires within { row.0 < length marks.old }
    requires losing { IsLosing marks.old alone.old lost.old }
    requires first { IsTrue (mark_at marks.old row.0).live → IsRead marks.old a.0 }
    requires second { IsTrue (mark_at marks.old row.0).live → IsRead marks.old b.0 }
    ensures marks { (other : ℕ) → mark_at marks.new other
        ≡ freed ((mark_at marks.old row.0).live && has (a.0 ∷ b.0 ∷ []) other) row.0 (mark_at marks.old other) }
    ensures losing { IsLosing marks.new alone.new lost.new }
    ensures loses { Loses marks.old alone.old.numbers marks.new alone.new.numbers }
    ensures held { KeepsHeld marks.old lost.old.numbers marks.new lost.new.numbers }
{
    if marks[row.0 as usize].live {
        drop_sides(marks, alone, lost, row, a, b);
    }
}

/// Marks a row as cut.
fn mark_cut(marks: &mut [Mark], row: Row)
    requires { row.0 < length marks.old }
    ensures { marks.new ≡ slice_set marks.old row.0 (as_cut (mark_at marks.old row.0)) }
{
    let mut mark = marks[row.0 as usize];
    mark.cut = true;
    mark.fresh = true;
    marks[row.0 as usize] = mark;
}

/// Cuts a row, and so takes it back as the parent of its sides where it is live.
fn leave_sides(
    marks: &mut [Mark],
    alone: &mut NumberList,
    lost: &mut NumberList,
    row: Row,
    a: Row,
    b: Row,
)
    requires within { row.0 < length marks.old }
    requires losing { IsLosing marks.old alone.old lost.old }
    requires first { IsTrue (mark_at marks.old row.0).live → IsRead marks.old a.0 }
    requires second { IsTrue (mark_at marks.old row.0).live → IsRead marks.old b.0 }
    ensures counts { (other : ℕ) → CountsAs (mark_at marks.new other)
        (freed ((mark_at marks.old row.0).live && has (a.0 ∷ b.0 ∷ []) other) row.0 (mark_at marks.old other)) }
    ensures losing { IsLosing marks.new alone.new lost.new }
    ensures cuts { Cuts row.0 marks.old alone.old.numbers marks.new alone.new.numbers }
    ensures held { KeepsHeld marks.old lost.old.numbers marks.new lost.new.numbers }
{
    drop_live(marks, alone, lost, row, a, b);
    mark_cut(marks, row);
    offer(marks, alone, row);
}

impl LiveRows {
    /// Cuts a row, whose node is the Xor of two sides.
    pub fn cut<S: Looks, L: Ledger>(
        &mut self,
        source: &S,
        row: Row,
        a: Row,
        b: Row,
        steps: &mut Steps<L>,
    )
        requires rows { length self.old.marks ≡ length (S.nodes source.now) }
        requires lower { AreLower (S.nodes source.now) }
        requires within { row.0 < length self.old.marks }
        requires xor { node_at (S.nodes source.now) row.0 ≡ node.Xor a b }
        requires uncut { IsFalse (mark_at self.old.marks row.0).cut }
        requires shown { IsShown (S.nodes source.now) self.old.marks }
        ensures shows { (roots cuts : List ℕ) → Shows (S.nodes source.now) roots cuts self.old.marks
            → Shows (S.nodes source.now) roots (row.0 ∷ cuts) self.new.marks }
        ensures found { self.new.found ≡ with_added self.old.found row.0 }
        ensures kept_found { IsTrue (mark_at self.old.marks row.0).live → self.new.found ≡ self.old.found }
        ensures alone { AreAmong self.old.alone self.new.alone }
        ensures served { (roots cuts : List ℕ) → Shows (S.nodes source.now) roots cuts self.old.marks
            → (other : ℕ) → IsTrue (serves (S.nodes source.now) roots (row.0 ∷ cuts) other)
            → (IsTrue (serves (S.nodes source.now) roots cuts other) ⊎ IsTrue (has self.new.alone other)) }
        ensures queued { queued_count self.new.marks + length self.old.alone
            ≡ queued_count self.old.marks + length self.new.alone }
        ensures few { queued_count self.new.marks ≤ length self.new.found }
        ensures cost { (roots cuts : List ℕ) → Shows (S.nodes source.now) roots cuts self.old.marks
            → steps.new + live_count (S.nodes source.now) roots (row.0 ∷ cuts)
            ≤ steps.old + live_count (S.nodes source.now) roots cuts }
    {
        let marks = self.marks.as_mut_slice();
        touch(marks, &mut self.found, row);
        leave_sides(marks, &mut self.alone, &mut self.lost, row, a, b);
        drop_lost(source, marks, &mut self.alone, &mut self.lost, steps);
    }
}

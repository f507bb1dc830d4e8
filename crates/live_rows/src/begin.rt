//! Marking what the roots of some probes read.
ghost use Rattle.std.specs.Prelude.{◌≡◌, ◌+◌, ◌^◌, ◌<◌, ◌≤◌, ◌++◌, [], ℕ, List, All, IsTrue, length, slice_set};
ghost use Rattle.expr_table.specs.declared.node.Row.{Row};
ghost use Rattle.expr_table.specs.Instance.{rows_of};
ghost use Rattle.expr_table.specs.Table.{has, numbers, sides};
ghost use Rattle.bit_rows.specs.Sets.{members};
ghost use Rattle.once_random.specs.Live.{AreLower};
ghost use Rattle.once_random.specs.Tuples.{roots_over};
ghost use Rattle.live_rows.specs.Chosen.{chosen_from};
ghost use Rattle.live_rows.specs.Lists.{with_added};
ghost use Rattle.live_rows.specs.Marks.{mark_at, queued_count};
ghost use Rattle.live_rows.specs.Shown.{Shows, live_count, serves};
ghost use Rattle.live_rows.specs.Spread.{IsSpread, as_root, is_offered, noted, offered, rooted, with_parent};
ghost use Rattle.live_rows.specs.State.{IsClear, IsFound, IsQueue};

use crate::live_rows::LiveRows;
use crate::looks::Looks;
use crate::mark::Mark;
use crate::marking::{offer, touch};
use crate::number_list::NumberList;
use crate::steps::Steps;
use bit_rows::BitRow;
use expr_table::{Node, ProbeRoots, Row};
use std::sync::ledger::Ledger;

/// Marks a root.
fn mark_root(marks: &mut [Mark], found: &mut NumberList, row: Row)
    requires within { row.0 < length marks.old }
    requires found { IsFound marks.old found.old.numbers }
    requires room { length marks.old ≤ found.old.room }
    ensures marks { marks.new ≡ slice_set marks.old row.0 (as_root (mark_at marks.old row.0)) }
    ensures found { IsFound marks.new found.new.numbers }
    ensures room { found.new.room ≡ found.old.room }
{
    let known = marks[row.0 as usize];
    if known.root & known.live & known.touched {
        // the row was marked for another probe
        return;
    }
    touch(marks, found, row);
    let mut mark = marks[row.0 as usize];
    mark.root = true;
    mark.live = true;
    marks[row.0 as usize] = mark;
}

/// Marks the rows that a probe sees.
fn mark_probe(marks: &mut [Mark], found: &mut NumberList, rows: &[Row])
    requires within { All (λ (row : Row). row.0 < length marks.old) rows.now }
    requires found { IsFound marks.old found.old.numbers }
    requires room { length marks.old ≤ found.old.room }
    ensures marks { (row : ℕ) → mark_at marks.new row ≡ rooted (has (numbers rows.now) row) (mark_at marks.old row) }
    ensures found { IsFound marks.new found.new.numbers }
    ensures room { found.new.room ≡ found.old.room }
{
    for row in rows {
        mark_root(marks, found, *row);
    }
}

/// The least member that is at least `start`.
fn chosen_from(set: &BitRow, start: u32) -> Option<u32>
    ensures { result ≡ chosen_from set.now start }
{
    if start == 0 {
        return set.first();
    }
    set.next(start - 1)
}

/// Marks the rows that the chosen probes see.
fn mark_roots(marks: &mut [Mark], found: &mut NumberList, probes: &[ProbeRoots], chosen: &BitRow)
    requires one_flag_each { length chosen.now ≡ length probes.now }
    requires within { All (λ probe. All (λ row. row < length marks.old) (rows_of probe)) probes.now }
    requires found { IsFound marks.old found.old.numbers }
    requires room { length marks.old ≤ found.old.room }
    ensures marks { (row : ℕ) → mark_at marks.new row
        ≡ rooted (has (roots_over probes.now (members chosen.now)) row) (mark_at marks.old row) }
    ensures found { IsFound marks.new found.new.numbers }
    ensures room { found.new.room ≡ found.old.room }
{
    // so its members are numbers of 32 bits
    let _length = chosen.len();
    let mut start = 0;
    while let Some(probe) = chosen_from(chosen, start) {
        mark_probe(marks, found, probes[probe as usize].rows.as_slice());
        start = probe + 1;
    }
}

/// Counts a live parent for a row, which so is live.
fn add_parent(marks: &mut [Mark], found: &mut NumberList, row: Row, parent: Row)
    requires within { row.0 < length marks.old }
    requires found { IsFound marks.old found.old.numbers }
    requires room { length marks.old ≤ found.old.room }
    requires small { (mark_at marks.old row.0).parents + 1 < 2 ^ 32 }
    ensures marks { marks.new ≡ slice_set marks.old row.0 (with_parent parent.0 (mark_at marks.old row.0)) }
    ensures found { found.new ≡ record found.old { numbers = with_added found.old.numbers row.0 } }
    ensures kept { IsFound marks.new found.new.numbers }
{
    touch(marks, found, row);
    let mut mark = marks[row.0 as usize];
    mark.live = true;
    mark.parents += 1;
    mark.mixed ^= parent.0;
    marks[row.0 as usize] = mark;
}

/// Notes the node of a live row: whether it is a random leaf, and that it reads its sides.
fn note(marks: &mut [Mark], found: &mut NumberList, row: Row, node: Node)
    requires within { row.0 < length marks.old }
    requires touched { IsTrue (mark_at marks.old row.0).touched }
    requires sides { (side : ℕ) → IsTrue (has (sides node) side) → side < length marks.old }
    requires found { IsFound marks.old found.old.numbers }
    requires room { length marks.old ≤ found.old.room }
    requires small { (side : ℕ) → IsTrue (has (sides node) side) → (mark_at marks.old side).parents + 1 < 2 ^ 32 }
    ensures marks { (other : ℕ) → mark_at marks.new other ≡ noted row.0 node other (mark_at marks.old other) }
    ensures found { IsFound marks.new found.new.numbers }
    ensures more { (more : List ℕ) × (found.new.numbers ≡ found.old.numbers ++ more) }
    ensures room { found.new.room ≡ found.old.room }
{
    match node {
        Node::Random(_) => marks[row.0 as usize].fresh = true,
        Node::And(a, b) | Node::Xor(a, b) => {
            add_parent(marks, found, a, row);
            if a.0 != b.0 {
                add_parent(marks, found, b, row);
            }
        }
        _ => {}
    }
}

/// Marks what the rows found read, and so on: each row found is looked at once.
fn spread<S: Looks, L: Ledger>(
    source: &S,
    marks: &mut [Mark],
    found: &mut NumberList,
    steps: &mut Steps<L>,
)
    requires lower { AreLower (S.nodes source.now) }
    requires start { IsSpread (S.nodes source.now) marks.old marks.old found.old.numbers 0 }
    requires room { length marks.old ≤ found.old.room }
    requires few { length marks.old < 2 ^ 32 }
    ensures spread { IsSpread (S.nodes source.now) marks.old marks.new found.new.numbers (length found.new.numbers) }
    ensures room { found.new.room ≡ found.old.room }
    ensures cost { steps.new ≡ steps.old + length found.new.numbers }
{
    let mut next = 0;
    while next < found.len() {
        let row = Row(found.get(next));
        let node = source.look(row, steps);
        note(marks, found, row, node);
        next += 1;
    }
}

/// Lists those of the rows found that may serve a cut.
fn offer_all(marks: &mut [Mark], found: &NumberList, alone: &mut NumberList)
    requires found { IsFound marks.old found.now.numbers }
    requires none { alone.old.numbers ≡ [] }
    requires queue { IsQueue marks.old alone.old.numbers }
    requires room { length marks.old ≤ alone.old.room }
    ensures marks { (row : ℕ) → mark_at marks.new row
        ≡ offered (is_offered marks.old found.now.numbers row) (mark_at marks.old row) }
    ensures alone { (row : ℕ) → has alone.new.numbers row ≡ is_offered marks.old found.now.numbers row }
    ensures queue { IsQueue marks.new alone.new.numbers }
    ensures room { alone.new.room ≡ alone.old.room }
{
    for place in 0..found.len() {
        offer(marks, alone, Row(found.get(place)));
    }
}

impl LiveRows {
    /// Marks what the roots of the chosen probes read. Each live row is looked at once.
    pub fn begin<S: Looks, L: Ledger>(
        &mut self,
        source: &S,
        probes: &[ProbeRoots],
        chosen: &BitRow,
        steps: &mut Steps<L>,
    )
        requires clear { IsClear self.old }
        requires rows { length self.old.marks ≡ length (S.nodes source.now) }
        requires lower { AreLower (S.nodes source.now) }
        requires one_flag_each { length chosen.now ≡ length probes.now }
        requires roots { All (λ probe. All (λ row. row < length (S.nodes source.now)) (rows_of probe)) probes.now }
        ensures shows { Shows (S.nodes source.now) (roots_over probes.now (members chosen.now)) [] self.new.marks }
        ensures alone { (row : ℕ)
            → IsTrue (serves (S.nodes source.now) (roots_over probes.now (members chosen.now)) [] row)
            → IsTrue (has self.new.alone row) }
        ensures queued { queued_count self.new.marks ≡ length self.new.alone }
        ensures found { length self.new.found
            ≡ live_count (S.nodes source.now) (roots_over probes.now (members chosen.now)) [] }
        ensures few { queued_count self.new.marks ≤ length self.new.found }
        ensures cost { steps.new
            ≡ steps.old + live_count (S.nodes source.now) (roots_over probes.now (members chosen.now)) [] }
    {
        let marks = self.marks.as_mut_slice();
        mark_roots(marks, &mut self.found, probes, chosen);
        spread(source, marks, &mut self.found, steps);
        offer_all(marks, &self.found, &mut self.alone);
    }
}

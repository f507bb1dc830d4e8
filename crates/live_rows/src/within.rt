//! Whether each group has few live leaves.
ghost use Rattle.std.specs.Prelude.{◌≡◌, ◌+◌, ◌<◌, ◌≤◌, ◌^◌, ◌&&◌, [], ℕ, List, All, IfSome, length, nat_le, slice_index_or, slice_set};
ghost use Rattle.expr_table.specs.declared.node.Node.TheVariants.{Input};
ghost use Rattle.expr_table.specs.Table.{node_at};
ghost use Rattle.once_random.specs.Groups.{is_group, are_within, is_leaf_of};
ghost use Rattle.once_random.specs.Numbers.{all_below, count_below};
ghost use Rattle.live_rows.specs.Shown.{Shows};
ghost use Rattle.live_rows.specs.State.{IsFound};
ghost use Rattle.live_rows.specs.Tally.{IsTally, is_marked_leaf};

use crate::live_rows::LiveRows;
use crate::looks::Looks;
use crate::mark::Mark;
use crate::number_list::NumberList;
use crate::steps::Steps;
use expr_table::{Node, Row};
use std::sync::ledger::Ledger;

/// Counts a leaf for its group.
fn count_leaf(leaves: &mut [u32], counted: &mut NumberList, group: u32)
    requires within { group < length leaves.old }
    requires small { slice_index_or leaves.old group 0 + 1 < 2 ^ 32 }
    requires tally { IsTally leaves.old counted.old.numbers }
    requires room { length leaves.old ≤ counted.old.room }
    ensures leaves { leaves.new ≡ slice_set leaves.old group (slice_index_or leaves.old group 0 + 1) }
    ensures tally { IsTally leaves.new counted.new.numbers }
    ensures room { counted.new.room ≡ counted.old.room }
{
    let count = leaves[group as usize];
    leaves[group as usize] = count + 1;
    if count == 0 {
        counted.push(group);
    }
}

/// The group of a node, where it is an input leaf that has one.
fn group_of(node: Node, groups: &[Option<u32>]) -> Option<u32>
    requires one_group_each { (i : ℕ) → node ≡ Input i → i < length groups.now }
    ensures { (group : ℕ) → is_group group result ≡ is_leaf_of groups.now group node }
{
    match node {
        Node::Input(i) => groups[i as usize],
        _ => None,
    }
}

/// Counts the live input leaves of each group.
fn count_leaves<S: Looks, L: Ledger>(
    source: &S,
    groups: &[Option<u32>],
    marks: &[Mark],
    found: &NumberList,
    leaves: &mut [u32],
    counted: &mut NumberList,
    steps: &mut Steps<L>,
)
    requires rows { length marks.now ≡ length (S.nodes source.now) }
    requires few { length marks.now < 2 ^ 32 }
    requires found { IsFound marks.now found.now.numbers }
    requires one_group_each { (row i : ℕ) → node_at (S.nodes source.now) row ≡ Input i → i < length groups.now }
    requires groups_within { All (λ group. IfSome group (λ secret. secret < length groups.now)) groups.now }
    requires few_groups { length groups.now ≤ length leaves.old }
    requires tally { IsTally leaves.old counted.old.numbers }
    requires none { (group : ℕ) → slice_index_or leaves.old group 0 ≡ 0 }
    requires room { length leaves.old ≤ counted.old.room }
    ensures counts { (group : ℕ) → slice_index_or leaves.new group 0
        ≡ count_below (length (S.nodes source.now)) (is_marked_leaf (S.nodes source.now) groups.now marks.now group) }
    ensures tally { IsTally leaves.new counted.new.numbers }
    ensures room { counted.new.room ≡ counted.old.room }
    ensures cost { steps.new ≤ steps.old + length found.now.numbers }
{
    for place in 0..found.len() {
        let row = Row(found.get(place));
        if marks[row.0 as usize].live {
            let node = source.look(row, steps);
            if let Some(group) = group_of(node, groups) {
                count_leaf(leaves, counted, group);
            }
        }
    }
}

/// Whether all counts are at most `bound`; takes them back.
fn take_counts(leaves: &mut [u32], counted: &mut NumberList, bound: u32) -> bool
    requires { IsTally leaves.old counted.old.numbers }
    ensures within { result ≡ all_below (length leaves.old) (λ group. nat_le (slice_index_or leaves.old group 0) bound) }
    ensures none { (group : ℕ) → slice_index_or leaves.new group 0 ≡ 0 }
    ensures counted { counted.new.numbers ≡ [] }
    ensures room { counted.new.room ≡ counted.old.room }
{
    let mut few = true;
    while let Some(group) = counted.pop() {
        few = few & (leaves[group as usize] <= bound);
        leaves[group as usize] = 0;
    }
    few
}

impl LiveRows {
    /// Whether each group has at most `bound` live input leaves. Each live row is looked at once.
    pub fn are_within<S: Looks, L: Ledger>(
        &mut self,
        source: &S,
        groups: &[Option<u32>],
        bound: u32,
        steps: &mut Steps<L>,
    ) -> bool
        requires rows { length self.old.marks ≡ length (S.nodes source.now) }
        requires one_group_each { (row i : ℕ) → node_at (S.nodes source.now) row ≡ Input i → i < length groups.now }
        requires few_groups { length groups.now ≤ length self.old.marks }
        requires groups_within { All (λ group. IfSome group (λ secret. secret < length groups.now)) groups.now }
        ensures kept { self.new ≡ self.old }
        ensures within { (roots cuts : List ℕ) → Shows (S.nodes source.now) roots cuts self.old.marks
            → result ≡ are_within (S.nodes source.now) groups.now roots cuts bound }
        ensures cost { steps.new ≤ steps.old + length self.old.found }
    {
        let leaves = self.leaves.as_mut_slice();
        let counted = &mut self.counted;
        count_leaves(
            source,
            groups,
            &self.marks,
            &self.found,
            leaves,
            counted,
            steps,
        );
        take_counts(leaves, counted, bound)
    }
}

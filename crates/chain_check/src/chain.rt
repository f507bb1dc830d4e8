//! The check of a chain.
ghost use Rattle.std.specs.Prelude.{◌≡◌, ◌<◌, MatchOption, length};
ghost use Rattle.expr_table.specs.Instance.{IsFitting};
ghost use Rattle.expr_table.specs.Table.{IsTable};
ghost use Rattle.bit_rows.specs.Sets.{members};
ghost use Rattle.once_random.specs.Cuts.{AreWithin};
ghost use Rattle.once_random.specs.Tuples.{roots_of};
ghost use Rattle.live_rows.specs.State.{IsClear};
ghost use Rattle.chain_check.specs.Answer.{IsAnswer, IsFirstBadCut};
ghost use Rattle.chain_check.specs.Made.{CutsAreMade};

use crate::allowed::cut_allowed;
use crate::answer::ChainAnswer;
use bit_rows::BitRow;
use expr_table::{Instance, Row};
use live_rows::{LiveRows, Steps};
use std::marker::Brand;
use std::sync::ledger::{Blank, Ledger};

/// Marks what the probes read, and makes the cuts one after another, as long as they are allowed. The place
/// of the first that is not.
fn make_cuts<L: Ledger>(
    instance: &Instance,
    live: &mut LiveRows,
    probes: &BitRow,
    cuts: &[Row],
    steps: &mut Steps<L>,
) -> Option<u32>
    requires table { IsTable instance.now.table }
    requires fitting { IsFitting instance.now }
    requires clear { IsClear live.old }
    requires made_for { length live.old.marks ≡ length instance.now.table.nodes }
    requires one_flag_each { length probes.now ≡ length instance.now.probes }
    requires cut_rows { AreWithin instance.now.table cuts.now }
    ensures rows { length live.new.marks ≡ length live.old.marks }
    ensures made { MatchOption result
        (CutsAreMade instance.now.table.nodes (roots_of instance.now (members probes.now)) cuts.now live.new.marks)
        (IsFirstBadCut instance.now.table.nodes (roots_of instance.now (members probes.now)) cuts.now) }
{
    live.begin(&instance.table, instance.probes.as_slice(), probes, steps);
    for (place, row) in cuts.iter().enumerate() {
        if !cut_allowed(&instance.table, live, *row, steps) {
            return Some(place as u32);
        }
    }
    None
}

/// What the list of cuts is. The marks stay as the cuts left them.
fn answer_for<L: Ledger>(
    instance: &Instance,
    live: &mut LiveRows,
    probes: &BitRow,
    bound: u32,
    cuts: &[Row],
    steps: &mut Steps<L>,
) -> ChainAnswer
    requires table { IsTable instance.now.table }
    requires fitting { IsFitting instance.now }
    requires clear { IsClear live.old }
    requires made_for { length live.old.marks ≡ length instance.now.table.nodes }
    requires one_flag_each { length probes.now ≡ length instance.now.probes }
    requires cut_rows { AreWithin instance.now.table cuts.now }
    ensures rows { length live.new.marks ≡ length live.old.marks }
    ensures answer { IsAnswer instance.now (roots_of instance.now (members probes.now)) bound cuts.now result }
{
    if let Some(place) = make_cuts(instance, live, probes, cuts, steps) {
        return ChainAnswer::BadCut(place);
    }
    if live.are_within(&instance.table, instance.groups.as_slice(), bound, steps) {
        ChainAnswer::Holds
    } else {
        ChainAnswer::OverBound
    }
}

/// The check, whose steps nobody counts.
fn check_uncounted<L: Ledger>(
    instance: &Instance,
    live: &mut LiveRows,
    probes: &BitRow,
    bound: u32,
    cuts: &[Row],
    blank: Blank,
) -> ChainAnswer
    requires fitting { IsFitting instance.now }
    requires clear { IsClear live.old }
    requires made_for { length live.old.marks ≡ length instance.now.table.nodes }
    requires one_flag_each { length probes.now ≡ length instance.now.probes }
    requires cut_rows { AreWithin instance.now.table cuts.now }
    requires name { blank.name ≡ L.name }
    requires parts { blank.parts ≡ L.parts }
    requires some { 0 < L.parts }
    ensures clear { IsClear live.new }
    ensures rows { length live.new.marks ≡ length live.old.marks }
    ensures answer { IsAnswer instance.now (roots_of instance.now (members probes.now)) bound cuts.now result }
{
    let _rows = instance.table.rows();
    let mut steps = Steps::<L>::open(blank);
    let answer = answer_for(instance, live, probes, bound, cuts, &mut steps);
    live.clear();
    answer
}

/// Whether these cuts are a chain that leaves the input leaves that a tuple of probes reads within the
/// bound. It looks at what the probes read and at the cuts, and takes no memory.
pub fn is_chain(
    instance: &Instance,
    live: &mut LiveRows,
    probes: &BitRow,
    bound: u32,
    cuts: &[Row],
) -> ChainAnswer
    requires fitting { IsFitting instance.now }
    requires clear { IsClear live.old }
    requires made_for { length live.old.marks ≡ length instance.now.table.nodes }
    requires one_flag_each { length probes.now ≡ length instance.now.probes }
    requires cut_rows { AreWithin instance.now.table cuts.now }
    ensures clear { IsClear live.new }
    ensures rows { length live.new.marks ≡ length live.old.marks }
    ensures answer { IsAnswer instance.now (roots_of instance.now (members probes.now)) bound cuts.now result }
{
    check_uncounted::<Brand>(instance, live, probes, bound, cuts, Blank::new(1))
}

//! Making the least chain.
ghost use Rattle.std.specs.Prelude.{◌≡◌, ◌+◌, ◌<◌, ◌≤◌, ◌∷◌, [], ℕ, List, IsTrue, IfOk, OnOk, length};
ghost use Rattle.expr_table.specs.Instance.{IsFitting};
ghost use Rattle.expr_table.specs.Table.{IsTable};
ghost use Rattle.bit_rows.specs.Sets.{members};
ghost use Rattle.once_random.specs.Cuts as cuts;
ghost use Rattle.once_random.specs.Cuts.{AreWithin, cuts_of};
ghost use Rattle.once_random.specs.Tuples.{roots_of};
ghost use Rattle.live_rows.specs.Marks.{is_spare, mark_at};
ghost use Rattle.live_rows.specs.Shown.{IsShown, Shows};
ghost use Rattle.live_rows.specs.State.{IsClear};
ghost use Rattle.least_chain.specs.Waiting.{AreWaiting, IsCutting, IsTurn, work};

use crate::NoMemory;
use crate::least_first::LeastFirst;
use bit_rows::BitRow;
use expr_table::{ExprTable, Instance, Node, Row};
use live_rows::{LiveRows, Steps};
use std::alloc::Global;
use std::marker::Brand;
use std::sync::ledger::{Blank, Ledger};

/// Puts the row that alone reads this one among those that wait, where it is an Xor: this one masks it.
fn offer_parent(
    table: &ExprTable,
    live: &LiveRows,
    row: Row,
    waiting: &mut LeastFirst,
) -> Result<(), NoMemory>
    requires table { IsTable table.now }
    requires shown { IsShown table.now.nodes live.now.marks }
    requires within { row.0 < length live.now.marks }
    requires spare { IsTrue (is_spare (mark_at live.now.marks row.0)) }
    ensures waiting { OnOk result ((roots done : List ℕ) → Shows table.now.nodes roots done live.now.marks
        → AreWaiting table.now.nodes roots done (row.0 ∷ live.now.alone) waiting.old
        → AreWaiting table.now.nodes roots done live.now.alone waiting.new) }
    ensures len { OnOk result (length waiting.new ≤ length waiting.old + 1) }
{
    let Some(parent) = live.only_parent(row) else {
        return Ok(());
    };
    match table.node(parent) {
        Node::Xor(_, _) => waiting.push(parent.0),
        _ => Ok(()),
    }
}

/// Puts each row that a row alone masks among those that wait.
fn offer_parents(
    table: &ExprTable,
    live: &mut LiveRows,
    waiting: &mut LeastFirst,
) -> Result<(), NoMemory>
    requires table { IsTable table.now }
    requires shown { IsShown table.now.nodes live.old.marks }
    ensures marks { live.new.marks ≡ live.old.marks }
    ensures found { live.new.found ≡ live.old.found }
    ensures alone { OnOk result (live.new.alone ≡ []) }
    ensures waiting { OnOk result ((roots done : List ℕ) → Shows table.now.nodes roots done live.old.marks
        → AreWaiting table.now.nodes roots done live.old.alone waiting.old
        → AreWaiting table.now.nodes roots done [] waiting.new) }
    ensures len { OnOk result (length waiting.new ≤ length waiting.old + length live.old.alone) }
{
    while let Some(row) = live.take_alone() {
        offer_parent(table, live, row, waiting)?;
    }
    Ok(())
}

/// The turn of the least row that waits: it is cut, where it is still live and not cut.
fn take_turn<L: Ledger>(
    table: &ExprTable,
    live: &mut LiveRows,
    waiting: &mut LeastFirst,
    chain: &mut Vec<Row>,
    row: Row,
    steps: &mut Steps<L>,
) -> Result<(), NoMemory>
    requires table { IsTable table.now }
    requires turn { (roots : List ℕ) × IsTurn table.now.nodes roots chain.old.items live.old waiting.old row.0 }
    ensures rows { length live.new.marks ≡ length live.old.marks }
    ensures turn { OnOk result ((roots : List ℕ)
        → IsTurn table.now.nodes roots chain.old.items live.old waiting.old row.0
        → IsCutting table.now.nodes roots chain.new.items live.new waiting.new) }
    ensures smaller { OnOk result (work live.new waiting.new ≤ work live.old waiting.old) }
{
    if !live.is_live(row) {
        return Ok(());
    }
    if live.is_cut(row) {
        return Ok(());
    }
    let Node::Xor(a, b) = table.node(row) else {
        return Ok(());
    };
    chain.push(row)?;
    live.cut(table, row, a, b, steps);
    offer_parents(table, live, waiting)?;
    Ok(())
}

/// Marks what the probes read, and makes the least chain. The marks stay as the cuts left them.
fn make_chain<L: Ledger>(
    alloc: Global,
    instance: &Instance,
    live: &mut LiveRows,
    probes: &BitRow,
    steps: &mut Steps<L>,
) -> Result<Vec<Row>, NoMemory>
    requires table { IsTable instance.now.table }
    requires fitting { IsFitting instance.now }
    requires clear { IsClear live.old }
    requires made_for { length live.old.marks ≡ length instance.now.table.nodes }
    requires one_flag_each { length probes.now ≡ length instance.now.probes }
    ensures rows { length live.new.marks ≡ length live.old.marks }
    ensures least { IfOk result (λ chain. cuts_of chain.items
        ≡ cuts.least_chain instance.now.table.nodes (roots_of instance.now (members probes.now))) }
    ensures within { IfOk result (λ chain. AreWithin instance.now.table chain.items) }
{
    let table = &instance.table;
    let mut waiting = LeastFirst::new(alloc);
    let mut chain = Vec::new(alloc);
    live.begin(table, instance.probes.as_slice(), probes, steps);
    offer_parents(table, live, &mut waiting)?;
    while let Some(row) = waiting.pop() {
        take_turn(table, live, &mut waiting, &mut chain, Row(row), steps)?;
    }
    Ok(chain)
}

/// The least chain, whose steps nobody counts.
fn make_uncounted<L: Ledger>(
    alloc: Global,
    instance: &Instance,
    live: &mut LiveRows,
    probes: &BitRow,
    blank: Blank,
) -> Result<Vec<Row>, NoMemory>
    requires fitting { IsFitting instance.now }
    requires clear { IsClear live.old }
    requires made_for { length live.old.marks ≡ length instance.now.table.nodes }
    requires one_flag_each { length probes.now ≡ length instance.now.probes }
    requires name { blank.name ≡ L.name }
    requires parts { blank.parts ≡ L.parts }
    requires some { 0 < L.parts }
    ensures clear { IsClear live.new }
    ensures rows { length live.new.marks ≡ length live.old.marks }
    ensures least { IfOk result (λ chain. cuts_of chain.items
        ≡ cuts.least_chain instance.now.table.nodes (roots_of instance.now (members probes.now))) }
    ensures within { IfOk result (λ chain. AreWithin instance.now.table chain.items) }
{
    let _rows = instance.table.rows();
    let mut steps = Steps::<L>::open(blank);
    let chain = make_chain(alloc, instance, live, probes, &mut steps);
    live.clear();
    chain
}

/// The least chain of a tuple of probes: the rows that are cut, in order. For want of memory too, nothing
/// is live afterwards.
pub fn least_chain(
    alloc: Global,
    instance: &Instance,
    live: &mut LiveRows,
    probes: &BitRow,
) -> Result<Vec<Row>, NoMemory>
    requires fitting { IsFitting instance.now }
    requires clear { IsClear live.old }
    requires made_for { length live.old.marks ≡ length instance.now.table.nodes }
    requires one_flag_each { length probes.now ≡ length instance.now.probes }
    ensures clear { IsClear live.new }
    ensures rows { length live.new.marks ≡ length live.old.marks }
    ensures least { IfOk result (λ chain. cuts_of chain.items
        ≡ cuts.least_chain instance.now.table.nodes (roots_of instance.now (members probes.now))) }
    ensures within { IfOk result (λ chain. AreWithin instance.now.table chain.items) }
{
    make_uncounted::<Brand>(alloc, instance, live, probes, Blank::new(1))
}

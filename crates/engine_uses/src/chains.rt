//! Chains of a refresh; and fronts of the least chains of pseudo-random tables, with wrong cuts put in.
ghost use Rattle.std.specs.Prelude.{◌≡◌, ◌≤◌, ◌<◌, ◌↔◌, ℕ, IsTrue, All, IfOk, IfSome, length};
ghost use Rattle.expr_table.specs.declared.node.Row.{Row};
ghost use Rattle.expr_table.specs.Instance.{IsFitting, rows_of};
ghost use Rattle.once_random.specs.Cuts.{AreWithin};
ghost use Rattle.live_rows.specs.State.{IsClear};

use crate::samples::{probes_of, refresh, set_of};
use bit_rows::BitRow;
use chain_check::{ChainAnswer, is_chain};
use expr_table::{ExprTable, Instance, NoMemory, Notion, ProbeRoots, Row};
use least_chain::least_chain;
use live_rows::LiveRows;
use sequences::Sequence;
use sim_rules::{Scratch, decide};
use std::alloc::Global;
use std::process::Abort;
use std::test::Fail;

/// Whether these are rows of the instance's table.
fn are_rows(instance: &Instance, rows: &[Row]) -> bool
    ensures { IsTrue result ↔ AreWithin instance.now.table rows.now }
{
    let count = instance.table.rows();
    rows.iter().all(|row| row.0 < count)
}

#[test]
fn checks_chains_of_a_refresh(rt: HostRuntime) -> Result<(), Fail> {
    let alloc = rt.alloc();
    let instance = refresh(&rt, alloc)?;
    let mut live = LiveRows::make(alloc, instance.table.rows())?;
    // a set of probes, the first one last; a bound; cuts; the answer
    let cases = [
        (0b10010, 0, [Row(5), Row(7)].as_slice(), ChainAnswer::Holds),
        (0b10010, 0, [Row(7), Row(5)].as_slice(), ChainAnswer::Holds),
        (0b10010, 0, [Row(7)].as_slice(), ChainAnswer::OverBound),
        (0b10010, 1, [Row(7)].as_slice(), ChainAnswer::Holds),
        (
            0b10010,
            0,
            [Row(7), Row(7)].as_slice(),
            ChainAnswer::BadCut(1),
        ),
        (
            0b10010,
            0,
            [Row(7), Row(2), Row(5)].as_slice(),
            ChainAnswer::BadCut(1),
        ),
        // a row that no probe reads, before and after a random is used once
        (
            0b10010,
            0,
            [Row(6), Row(7)].as_slice(),
            ChainAnswer::BadCut(0),
        ),
        (
            0b10010,
            0,
            [Row(7), Row(6), Row(5)].as_slice(),
            ChainAnswer::Holds,
        ),
        // an observed random, a random that is used twice, and a row that is cut in place of one
        (0b00011, 0, [Row(5)].as_slice(), ChainAnswer::BadCut(0)),
        (0b11000, 0, [Row(7)].as_slice(), ChainAnswer::BadCut(0)),
        (0b10100, 0, [Row(7)].as_slice(), ChainAnswer::BadCut(0)),
        (0b10100, 0, [Row(5), Row(7)].as_slice(), ChainAnswer::Holds),
    ];
    for (bits, bound, cuts, answer) in cases {
        let probes = set_of(alloc, 5, bits)?;
        assert!(rt; are_rows(&instance, cuts));
        assert_eq!(rt;
            is_chain(&instance, &mut live, &probes, bound, cuts),
            answer
        );
    }
    Ok(())
}

/// A number below `n`, the next of a stream that goes on from the seed.
fn below(seed: &mut u64, n: u32) -> u32
    requires { 0 < n }
    ensures { result < n }
{
    *seed = seed
        .wrapping_mul(6_364_136_223_846_793_005)
        .wrapping_add(1_442_695_040_888_963_407);
    ((*seed >> 33) % u64::from(n)) as u32
}

/// A table with six input leaves and twenty-four pseudo-random gates.
fn random_table(rt: &impl Abort, alloc: Global, seed: &mut u64) -> Result<ExprTable, Fail>
    ensures { IfOk result (λ table. table.inputs ≡ 6) }
{
    let mut table = ExprTable::make(alloc, 6, 12)?;
    for gate in 0..24 {
        let rows = table.rows();
        assert!(rt; rows > 0);
        let a = Row(below(seed, rows));
        let b = Row(below(seed, rows));
        if gate % 4 == 0 {
            table.and(a, b)?;
        } else {
            table.xor(a, b)?;
        }
    }
    Ok(table)
}

/// The leaves of three groups in turn.
fn groups_of(alloc: Global, inputs: u32) -> Result<Vec<Option<u32>>, NoMemory>
    ensures each { IfOk result (λ groups. length groups.items ≡ inputs) }
    ensures within { IfOk result (λ groups. All (λ group. IfSome group (λ secret. secret < inputs)) groups.items) }
{
    let mut groups = Vec::new(alloc);
    for leaf in 0..inputs {
        groups.push(Some(leaf % 3))?;
    }
    Ok(groups)
}

/// Such a table, with a probe for each of four of its last rows.
fn random_instance(rt: &impl Abort, alloc: Global, seed: &mut u64) -> Result<Instance, Fail>
    ensures fitting { IfOk result (λ instance. IsFitting instance) }
    ensures four { IfOk result (λ instance. length instance.probes ≡ 4) }
{
    let table = random_table(rt, alloc, seed)?;
    let rows = table.rows();
    assert!(rt; rows > 10);
    let last = [Row(rows - 1), Row(rows - 2), Row(rows - 5), Row(rows - 8)];
    let probes = probes_of(alloc, last.as_slice())?;
    let groups = groups_of(alloc, 6)?;
    Ok(Instance {
        notion: Notion::Probing,
        table,
        probes: Sequence::from_vec(probes),
        groups: Sequence::from_vec(groups),
    })
}

/// Checks each front of a least chain: no cut is bad, and the whole chain holds exactly where the set is decided to be
/// provable.
fn check_fronts(
    rt: &impl Abort,
    instance: &Instance,
    live: &mut LiveRows,
    probes: &BitRow,
    cuts: &[Row],
    provable: bool,
)
    requires fitting { IsFitting instance.now }
    requires clear { IsClear live.old }
    requires made_for { length live.old.marks ≡ length instance.now.table.nodes }
    requires one_flag_each { length probes.now ≡ length instance.now.probes }
    requires cut_rows { AreWithin instance.now.table cuts.now }
    ensures clear { IsClear live.new }
    ensures rows { length live.new.marks ≡ length live.old.marks }
{
    for len in 0..=cuts.len() {
        let front = &cuts[..len];
        assert!(rt; are_rows(instance, front));
        let answer = is_chain(instance, live, probes, 1, front);
        assert!(rt; answer == ChainAnswer::Holds || answer == ChainAnswer::OverBound);
        assert!(rt; len < cuts.len() || provable == (answer == ChainAnswer::Holds));
    }
}

/// Puts a wrong row in place of each cut in turn: a leaf, or a row that was cut before.
fn spoil_each(
    rt: &impl Abort,
    instance: &Instance,
    live: &mut LiveRows,
    probes: &BitRow,
    cuts: &mut [Row],
)
    requires fitting { IsFitting instance.now }
    requires clear { IsClear live.old }
    requires made_for { length live.old.marks ≡ length instance.now.table.nodes }
    requires one_flag_each { length probes.now ≡ length instance.now.probes }
    requires few { length cuts.old ≤ 100 }
    ensures clear { IsClear live.new }
    ensures rows { length live.new.marks ≡ length live.old.marks }
{
    for place in 0..cuts.len() {
        let cut = cuts[place];
        cuts[place] = if place == 0 { Row(0) } else { cuts[0] };
        assert!(rt; are_rows(instance, cuts));
        let answer = is_chain(instance, live, probes, 1, cuts);
        assert_eq!(rt; answer, ChainAnswer::BadCut(place as u32));
        cuts[place] = cut;
    }
}

/// Checks the least chain of each set of the four probes; the number of all their cuts.
fn check_sets(rt: &impl Abort, alloc: Global, instance: &Instance) -> Result<usize, Fail>
    requires fitting { IsFitting instance.now }
    requires four { length instance.now.probes ≡ 4 }
    ensures { IfOk result (λ count. count ≤ 1600) }
{
    let mut live = LiveRows::make(alloc, instance.table.rows())?;
    let mut scratch = Scratch::make(alloc, instance)?;
    let mut count = 0;
    for bits in 0..16 {
        let probes = set_of(alloc, 4, bits)?;
        let mut cuts = least_chain(alloc, instance, &mut live, &probes)?;
        assert!(rt; cuts.len() <= 100);
        count += cuts.len();
        let provable = decide(instance, &mut scratch, &probes, 1);
        check_fronts(rt, instance, &mut live, &probes, &cuts, provable);
        spoil_each(rt, instance, &mut live, &probes, &mut cuts);
    }
    Ok(count)
}

#[test]
fn checks_fronts_of_least_chains(rt: HostRuntime) -> Result<(), Fail> {
    let mut seed = 1;
    for _table in 0..4 {
        let instance = random_instance(&rt, rt.alloc(), &mut seed)?;
        assert!(rt; check_sets(&rt, rt.alloc(), &instance)? > 16);
    }
    Ok(())
}

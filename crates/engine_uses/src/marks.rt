//! A masked bit, cut step by step.
ghost use Rattle.std.specs.Prelude.{◌≡◌, ◌<◌, ◌∷◌, [], IfOk, length};
ghost use Rattle.expr_table.specs.Table.{IsTable};
ghost use Rattle.live_rows.specs.Shown.{IsShown};

use bit_rows::BitRow;
use expr_table::ExprTable;
use live_rows::{LiveRows, NoMemory, Node, ProbeRoots, Row, Steps};
use sequences::Sequence;
use std::alloc::Global;
use std::marker::Brand;
use std::process::Abort;
use std::sync::ledger::{Blank, Ledger};
use std::test::Fail;

/// A secret bit x in row 2 and two randoms in rows 3 and 4; row 5 is x + r, row 6 is r + s, and row 7 is
/// x + r + s.
fn masked(rt: &impl Abort, alloc: Global) -> Result<ExprTable, Fail>
    ensures table { IfOk result (λ table. IsTable table) }
    ensures inputs { IfOk result (λ table. table.inputs ≡ 1) }
    ensures rows { IfOk result (λ table. length table.nodes ≡ 8) }
{
    let mut table = ExprTable::make(alloc, 1, 2)?;
    for (a, b, row) in [(2, 3, 5), (3, 4, 6), (5, 4, 7)] {
        assert!(rt; a < table.rows() && b < table.rows());
        assert_eq!(rt; table.xor(Row(a), Row(b))?, Row(row));
    }
    assert_eq!(rt; table.rows(), 8);
    Ok(table)
}

/// A probe of one row.
fn probe_of(alloc: Global, row: u32) -> Result<ProbeRoots, NoMemory>
    ensures { IfOk result (λ probe. probe.rows ≡ record { 0 = row } ∷ []) }
{
    let rows = Sequence::from_vec(vec![in alloc; Row(row)]?);
    Ok(ProbeRoots {
        rows,
        output: false,
    })
}

/// Cuts a row of the table.
fn cut<L: Ledger>(
    rt: &impl Abort,
    table: &ExprTable,
    live: &mut LiveRows,
    row: u32,
    steps: &mut Steps<L>,
)
    requires { IsShown table.now.nodes live.old.marks }
    ensures { IsShown table.now.nodes live.new.marks }
{
    assert!(rt; row < table.rows());
    assert!(rt; !live.is_cut(Row(row)));
    if let Node::Xor(a, b) = table.node(Row(row)) {
        live.cut(table, Row(row), a, b, steps);
    }
}

/// Takes the mask of row 5 and then that of row 7.
fn unmask<L: Ledger>(rt: &impl Abort, alloc: Global, blank: Blank) -> Result<(), Fail>
    requires name { blank.name ≡ L.name }
    requires parts { blank.parts ≡ L.parts }
    requires some { 0 < L.parts }
{
    let table = masked(rt, alloc)?;
    let probes = [probe_of(alloc, 7)?, probe_of(alloc, 3)?];
    let groups = [Some(0)];
    let mut chosen = BitRow::make(alloc, 2)?;
    let mut live = LiveRows::make(alloc, table.rows())?;
    let mut steps = Steps::<L>::open(blank);

    chosen.set(0);
    live.begin(&table, probes.as_slice(), &chosen, &mut steps);
    assert!(rt; live.are_within(&table, groups.as_slice(), 1, &mut steps));
    assert!(rt; !live.are_within(&table, groups.as_slice(), 0, &mut steps));
    assert_eq!(rt; live.take_alone(), Some(Row(3)));
    assert_eq!(rt; live.only_parent(Row(3)), Some(Row(5)));

    cut(rt, &table, &mut live, 5, &mut steps);
    assert!(rt; live.is_live(Row(5)) && !live.is_live(Row(2)));
    assert!(rt; live.are_within(&table, groups.as_slice(), 0, &mut steps));
    assert_eq!(rt; live.take_alone(), Some(Row(5)));
    assert_eq!(rt; live.only_parent(Row(5)), Some(Row(7)));

    cut(rt, &table, &mut live, 7, &mut steps);
    assert!(rt; live.is_root(Row(7)) && live.is_live(Row(7)) && !live.is_live(Row(4)));
    assert_eq!(rt; live.take_alone(), Some(Row(4)));
    assert_eq!(rt; live.only_parent(Row(4)), None);

    live.clear();
    chosen.clear(0);
    chosen.set(1);
    live.begin(&table, probes.as_slice(), &chosen, &mut steps);
    assert!(rt; live.is_live(Row(3)) && !live.is_root(Row(7)) && !live.is_cut(Row(7)));
    assert_eq!(rt; live.parents(Row(3)), 0);
    assert_eq!(rt; live.take_alone(), None);
    Ok(())
}

#[test]
fn cuts_a_masked_bit(rt: HostRuntime) -> Result<(), Fail> {
    unmask::<Brand>(&rt, rt.alloc(), Blank::new(1))
}

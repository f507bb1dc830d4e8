//! The probes of a refresh, decided with their looks counted.
ghost use Rattle.std.specs.Prelude.{◌≡◌, ◌≤◌, ◌<◌, ℕ, All, IfOk, OnOk, length};
ghost use Rattle.expr_table.specs.declared.node.Row.{Row};
ghost use Rattle.expr_table.specs.Instance.{IsFitting, rows_of};

use crate::samples::{refresh, set_of};
use bit_rows::BitRow;
use expr_table::{ExprTable, Instance, NoMemory, Node, Notion, ProbeRoots, Row, TermStop};
use live_rows::{Looks, Steps};
use sequences::Sequence;
use sim_rules::{Scratch, decide, decide_over};
use std::alloc::Global;
use std::cell::Cell;
use std::marker::Brand;
use std::process::Abort;
use std::sync::ledger::{Blank, Ledger};
use std::test::Fail;

/// A table that counts the looks at it.
#[derive(Drop)]
struct Counted<'a> {
    table: &'a ExprTable,
    looks: Cell<u32>,
}

impl Looks for Counted<'_> {
    ghost nodes = { λ s. s.table.now.nodes };

    fn rows(&self) -> u32 {
        self.table.rows()
    }

    fn look<L: Ledger>(&self, row: Row, steps: &mut Steps<L>) -> Node {
        self.looks.set(self.looks.get().wrapping_add(1));
        self.table.look(row, steps)
    }
}

/// Decides over the instance's table, and says how often it looked.
fn decide_counted<L: Ledger>(
    instance: &Instance,
    scratch: &mut Scratch,
    probes: &BitRow,
    bound: u32,
    blank: Blank,
) -> (bool, u32)
    requires fitting { IsFitting instance.now }
    requires made_for { scratch.old ≡ length instance.now.table.nodes }
    requires one_flag_each { length probes.now ≡ length instance.now.probes }
    requires name { blank.name ≡ L.name }
    requires parts { blank.parts ≡ L.parts }
    requires some { 0 < L.parts }
    ensures { scratch.new ≡ scratch.old }
{
    let _rows = instance.table.rows();
    let source = Counted {
        table: &instance.table,
        looks: Cell::new(0),
    };
    let mut steps = Steps::<L>::open(blank);
    let provable = decide_over(
        &source,
        instance.probes.as_slice(),
        instance.groups.as_slice(),
        scratch,
        probes,
        bound,
        &mut steps,
    );
    (provable, source.looks.get())
}

/// Decides a set of the five probes, which is to look at most so often and to give this answer.
fn expect(
    rt: &impl Abort,
    instance: &Instance,
    scratch: &mut Scratch,
    probes: &BitRow,
    bound: u32,
    most: u32,
    provable: bool,
)
    requires fitting { IsFitting instance.now }
    requires made_for { scratch.old ≡ length instance.now.table.nodes }
    requires one_flag_each { length probes.now ≡ length instance.now.probes }
    ensures { scratch.new ≡ scratch.old }
{
    let (answer, looks) = decide_counted::<Brand>(instance, scratch, probes, bound, Blank::new(1));
    assert_eq!(rt; answer, provable);
    assert!(rt; looks <= most);
    assert_eq!(rt; decide(instance, scratch, probes, bound), provable);
}

#[test]
fn decides_the_probes_of_a_refresh(rt: HostRuntime) -> Result<(), Fail> {
    let alloc = rt.alloc();
    let instance = refresh(&rt, alloc)?;
    let mut scratch = Scratch::make(alloc, &instance)?;
    // a set of probes, the first one last; a bound; four looks for each row that is read; the answer
    let cases = [
        (0b10000, 0, 20, true),
        (0b10010, 0, 20, true),
        (0b01101, 0, 12, true),
        (0b00011, 0, 12, false),
        (0b00011, 1, 12, true),
        (0b11000, 0, 24, false),
        (0b10101, 0, 20, false),
        (0b00000, 0, 0, true),
    ];
    for (bits, bound, most, provable) in cases {
        let probes = set_of(alloc, 5, bits)?;
        expect(&rt, &instance, &mut scratch, &probes, bound, most, provable);
    }
    Ok(())
}

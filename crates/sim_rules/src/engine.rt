//! The decision.
ghost use Rattle.std.specs.Prelude.{◌≡◌, ◌+◌, ◌*◌, ◌<◌, ◌≤◌, ◌↔◌, [], IsTrue, length};
ghost use Rattle.expr_table.specs.Instance.{IsFitting};
ghost use Rattle.once_random.specs.Provable.{IsProvableOver, is_provable};
ghost use Rattle.once_random.specs.Tuples.{roots_of, roots_over};
ghost use Rattle.bit_rows.specs.Sets.{members};
ghost use Rattle.live_rows.specs.Shown.{live_count};
ghost use Rattle.sim_rules.specs.Fitting.{IsFittingOver};

use crate::cutting::cut_down;
use crate::scratch::Scratch;
use bit_rows::BitRow;
use expr_table::Instance;
use live_rows::{Looks, ProbeRoots, Steps};
use std::marker::Brand;
use std::sync::ledger::{Blank, Ledger};

/// Whether the roots of the chosen probes are provable within the bound, over the nodes of a source. It
/// looks at most four times for each row that is live before any cut.
pub fn decide_over<S: Looks, L: Ledger>(
    source: &S,
    probes: &[ProbeRoots],
    groups: &[Option<u32>],
    scratch: &mut Scratch,
    chosen: &BitRow,
    bound: u32,
    steps: &mut Steps<L>,
) -> bool
    requires { IsFittingOver (S.nodes source.now) probes.now groups.now chosen.now scratch.old }
    ensures stays_fit { scratch.new ≡ scratch.old }
    ensures provable { IsTrue result
        ↔ IsProvableOver (S.nodes source.now) groups.now (roots_over probes.now (members chosen.now)) bound }
    ensures cost { steps.new ≤ steps.old
        + 4 * live_count (S.nodes source.now) (roots_over probes.now (members chosen.now)) [] }
{
    let live = &mut scratch.live;
    cut_down(live, source, probes, chosen, steps);
    let within = live.are_within(source, groups, bound, steps);
    live.clear();
    within
}

/// The decision over an instance's own table, whose steps nobody counts.
fn decide_uncounted<L: Ledger>(
    instance: &Instance,
    scratch: &mut Scratch,
    probes: &BitRow,
    bound: u32,
    blank: Blank,
) -> bool
    requires fitting { IsFitting instance.now }
    requires made_for { scratch.old ≡ length instance.now.table.nodes }
    requires one_flag_each { length probes.now ≡ length instance.now.probes }
    requires name { blank.name ≡ L.name }
    requires parts { blank.parts ≡ L.parts }
    requires some { 0 < L.parts }
    ensures stays_fit { scratch.new ≡ scratch.old }
    ensures provable { result ≡ is_provable instance.now (roots_of instance.now (members probes.now)) bound }
{
    // what is ensured here holds of every table
    let _rows = instance.table.rows();
    let mut steps = Steps::<L>::open(blank);
    decide_over(
        &instance.table,
        instance.probes.as_slice(),
        instance.groups.as_slice(),
        scratch,
        probes,
        bound,
        &mut steps,
    )
}

/// Whether the roots of a tuple of probes are provable within the bound. It takes no memory.
pub fn decide(instance: &Instance, scratch: &mut Scratch, probes: &BitRow, bound: u32) -> bool
    requires fitting { IsFitting instance.now }
    requires made_for { scratch.old ≡ length instance.now.table.nodes }
    requires one_flag_each { length probes.now ≡ length instance.now.probes }
    ensures stays_fit { scratch.new ≡ scratch.old }
    ensures provable { result ≡ is_provable instance.now (roots_of instance.now (members probes.now)) bound }
{
    decide_uncounted::<Brand>(instance, scratch, probes, bound, Blank::new(1))
}

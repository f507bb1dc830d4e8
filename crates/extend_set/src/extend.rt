//! The hull of a family.
ghost use Rattle.std.specs.Prelude.{◌≡◌, IfNone, None, OnSome, Some, length};
ghost use Rattle.expr_table.specs.Instance.{IsFitting};
ghost use Rattle.probe_family.specs.Families.{IsFamily};
ghost use Rattle.probe_family.specs.Least.{least_of};
ghost use Rattle.extend_set.specs.Hull.{hull_of, set_with};

use crate::criterion::Criterion;
use crate::growth::Growth;
use crate::runs::reset_run;
use bit_rows::BitRow;
use expr_table::Instance;
use probe_family::Family;
use sim_rules::{Scratch, decide};

/// Whether sets of probes are provable within a bound.
#[derive(Drop)]
struct Provable<'a> {
    instance: &'a Instance,
    bound: u32,
}

impl Criterion for Provable<'_> {
    ghost use Rattle.std.specs.Prelude.{◌≡◌, length};
    ghost use Rattle.expr_table.specs.Instance.{IsFitting};
    ghost use Rattle.extend_set.specs.Hull.{is_provable_set};

    type Work = Scratch;

    ghost meets = { λ p set. is_provable_set p.instance.now p.bound set };

    ghost serves = { λ p scratch n. IsFitting p.instance.now × (scratch ≡ length p.instance.now.table.nodes)
        × (n ≡ length p.instance.now.probes) };

    fn is_met(&self, scratch: &mut Scratch, set: &BitRow) -> bool {
        decide(self.instance, scratch, set, self.bound)
    }
}

/// Grows the least tuple of a family by the probes of its parts that keep it provable within the family's bound, and
/// leaves the hull in `out`. None exactly where the least tuple is not provable; `out` is then the least tuple.
pub fn hull(
    instance: &Instance,
    scratch: &mut Scratch,
    family: &Family,
    out: &mut BitRow,
) -> Option<()>
    requires fitting { IsFitting instance.now }
    requires made_for { scratch.old ≡ length instance.now.table.nodes }
    requires family { IsFamily (length instance.now.probes) family.now }
    requires one_flag_each { length out.old ≡ length instance.now.probes }
    ensures stays_fit { scratch.new ≡ scratch.old }
    ensures one_flag_each { length out.new ≡ length out.old }
    ensures hull { OnSome result (hull_of instance.now family.now ≡ Some out.new) }
    ensures none { IfNone result (hull_of instance.now family.now ≡ None) }
    ensures least { IfNone result (out.new ≡ set_with (length instance.now.probes) (least_of family.now)) }
{
    // what it ensures holds of every table
    let _rows = instance.table.rows();
    let least = family.least();
    let tuple = least.as_slice();
    let criterion = Provable {
        instance,
        bound: family.bound,
    };
    reset_run(out, tuple, 0, out.len());
    if !criterion.is_met(scratch, out) {
        return None;
    }
    let growth = Growth {
        criterion: &criterion,
        parts: family.parts.as_slice(),
        tuple,
    };
    growth.grow(scratch, out);
    Some(())
}

//! What a reader and the crates above may want to know of the definitions; its body is empty.
ghost use Rattle.std.specs.Prelude.{◌≡◌, Bool, List, length};
ghost use Rattle.expr_table.specs.declared.instance.Instance.{Instance};
ghost use Rattle.expr_table.specs.Instance.{IsFitting};
ghost use Rattle.expr_table.specs.Table.{IsTable};
ghost use Rattle.sim_rules.specs.Fitting.{IsFittingOver};

/// A fitting instance of a table is fitting to be decided over its own nodes. What is provable over them is by
/// definition what is provable for the instance.
pub fn tables_are_fitting()
    ensures { (x : Instance) (chosen : List Bool) → IsTable x.table → IsFitting x
        → length chosen ≡ length x.probes
        → IsFittingOver x.table.nodes x.probes x.groups chosen (length x.table.nodes) }
{}

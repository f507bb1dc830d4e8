//! What provable tuples of a netlist's probes observe is simulatable.
//!
//! The instance is one of the circuit, under the notion, with the circuit's probes in the model: what
//! `term_build::instance` answers of the probes that `glitch_cone::probes` answers. It fits, as that call ensures and the
//! law [`instances_fit`] says again.
ghost use Rattle.std.specs.Prelude.{◌≡◌, ◌≤◌, ◌^◌, ℕ, Bool, List, length, sum_by};
ghost use Rattle.circuit_types.specs.declared.circuit.Circuit.{Circuit};
ghost use Rattle.circuit_types.specs.declared.probes.Model.{Model};
ghost use Rattle.circuit_types.specs.declared.probes.Probe.{Probe};
ghost use Rattle.circuit_types.specs.declared.roles.Roles.{Roles};
ghost use Rattle.circuit_types.specs.Order.{IsTiming};
ghost use Rattle.circuit_types.specs.Probes.{most_probes, probe_list};
ghost use Rattle.expr_table.specs.declared.instance.Instance.{Instance};
ghost use Rattle.expr_table.specs.declared.instance.Notion.{Notion};
ghost use Rattle.expr_table.specs.declared.instance.Notion.TheVariants.{Probing};
ghost use Rattle.expr_table.specs.Instance.{IsFitting};
ghost use Rattle.once_random.specs.Live.{AreAmong};
ghost use Rattle.once_random.specs.Provable.{IsProvable, leaves_left};
ghost use Rattle.once_random.specs.Tuples.{bound_of, roots_of};
ghost use Rattle.term_build.specs.TermInstance.{HasEachShare, HasInstance, random_count};
ghost use Rattle.count_law.specs.Counts.{assignments};
ghost use Rattle.count_law.specs.Netlists.{IsIndependentTuple, IsSimulatableTuple};
ghost use Rattle.count_law.specs.Netlists.{bits_observed, count_of_tuple, tuple_bound};
ghost use Rattle.count_law.specs.RowCounts.{count_of_rows};

use crate::counts::counts_add_up;
use crate::simulation::provable_is_simulatable;

/// Where a tuple is provable within its bound, what it observes is simulatable within it, from the leaves that the least
/// chain leaves live. Where it is so for probing security, what it observes does not depend on the secrets: any two
/// inputs that agree on the publics give each observation equally often.
pub fn soundness()
    ensures simulatable { (notion : Notion) (model : Model) (roles : Roles) (circuit : Circuit) (x : Instance)
        → HasInstance notion roles circuit (probe_list model roles circuit) x → IsFitting x
        → (tuple : List ℕ) → IsProvable x (roots_of x tuple) (bound_of x tuple)
        → IsSimulatableTuple notion model roles circuit tuple (leaves_left x (roots_of x tuple))
        (tuple_bound notion (probe_list model roles circuit) tuple) }
    ensures independent { (model : Model) (roles : Roles) (circuit : Circuit) (x : Instance)
        → HasInstance Probing roles circuit (probe_list model roles circuit) x → IsFitting x
        → (tuple : List ℕ) → IsProvable x (roots_of x tuple) (bound_of x tuple)
        → IsIndependentTuple Probing model roles circuit tuple }
{
    tuples_have_bounds();
    provable_tuple_is_simulatable();
}

/// Where a tuple's roots are provable within a bound, what it observes is simulatable within it, from the leaves that the
/// least chain leaves live. So is what some of its probes observe, from the leaves that their own least chain leaves live.
/// With bound 0 it does not depend on the secrets.
pub fn provable_tuple_is_simulatable()
    ensures within { (notion : Notion) (model : Model) (roles : Roles) (circuit : Circuit) (x : Instance)
        → HasInstance notion roles circuit (probe_list model roles circuit) x → IsFitting x
        → (tuple : List ℕ) (m : ℕ) → IsProvable x (roots_of x tuple) m
        → IsSimulatableTuple notion model roles circuit tuple (leaves_left x (roots_of x tuple)) m }
    ensures some { (notion : Notion) (model : Model) (roles : Roles) (circuit : Circuit) (x : Instance)
        → HasInstance notion roles circuit (probe_list model roles circuit) x → IsFitting x
        → (tuple some : List ℕ) (m : ℕ) → AreAmong some tuple → IsProvable x (roots_of x tuple) m
        → IsSimulatableTuple notion model roles circuit some (leaves_left x (roots_of x some)) m }
    ensures independent { (notion : Notion) (model : Model) (roles : Roles) (circuit : Circuit) (x : Instance)
        → HasInstance notion roles circuit (probe_list model roles circuit) x → IsFitting x
        → (tuple : List ℕ) → IsProvable x (roots_of x tuple) 0
        → IsIndependentTuple notion model roles circuit tuple }
{
    terms_give_netlist();
    provable_is_simulatable();
}

/// The roots of a tuple take each list of values as often as its probes observe it in the netlist.
pub fn terms_give_netlist()
    ensures { (notion : Notion) (model : Model) (roles : Roles) (circuit : Circuit) (x : Instance)
        → HasInstance notion roles circuit (probe_list model roles circuit) x → (tuple : List ℕ) (inputs o : List Bool)
        → count_of_rows x.table (roots_of x tuple) inputs o ≡ count_of_tuple notion model roles circuit tuple inputs o }
{
    term_build::roots_have_values();
}

/// The bound of a tuple in an instance is that in the netlist.
pub fn tuples_have_bounds()
    ensures { (notion : Notion) (model : Model) (roles : Roles) (circuit : Circuit) (x : Instance)
        → HasInstance notion roles circuit (probe_list model roles circuit) x
        → (tuple : List ℕ) → bound_of x tuple ≡ tuple_bound notion (probe_list model roles circuit) tuple }
{}

/// An instance of a circuit fits where there are not too many probes and each secret bit has each of its shares.
pub fn instances_fit()
    ensures { (notion : Notion) (roles : Roles) (circuit : Circuit) (probes : List Probe) (x : Instance)
        → HasInstance notion roles circuit probes x → IsTiming circuit.timing → HasEachShare roles
        → length probes ≤ most_probes → IsFitting x }
{}

/// Each world gives one observation: the counts of all observations of a tuple sum to 2^n, n being the number of random
/// leaves.
pub fn tuple_counts_add_up()
    ensures { (notion : Notion) (model : Model) (roles : Roles) (circuit : Circuit) (tuple : List ℕ)
        (inputs : List Bool) → sum_by (count_of_tuple notion model roles circuit tuple inputs)
        (assignments (bits_observed model roles circuit tuple)) ≡ 2 ^ random_count notion roles circuit }
{
    counts_add_up();
}

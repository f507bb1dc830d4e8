//! Provable rows are simulatable.
ghost use Rattle.std.specs.Prelude.{◌≡◌, ◌↔◌, ◌+◌, ◌∷◌, [], ℕ, Bool, List, Option, IsSome, IsTrue};
ghost use Rattle.expr_table.specs.declared.instance.Instance.{Instance};
ghost use Rattle.expr_table.specs.Instance.{IsFitting};
ghost use Rattle.expr_table.specs.Table.{IsTable};
ghost use Rattle.once_random.specs.Live.{AreAmong, AreRows};
ghost use Rattle.once_random.specs.Provable.{IsProvable, leaves_left};
ghost use Rattle.count_law.specs.Instances.{AreIndependentRows, AreSimulatableRows};
ghost use Rattle.count_law.specs.Simulation.{DependsOn, known_inputs};
ghost use Rattle.once_random.specs.Groups.{group_at};

use crate::cuts::chain_keeps_counts;

/// Where roots are provable within a bound, their values are simulatable within it, from the leaves that the least chain
/// leaves live. So are those of each subset of the roots.
pub fn provable_is_simulatable()
    ensures roots { (x : Instance) (roots : List ℕ) (m : ℕ) → IsTable x.table → IsFitting x
        → AreRows x.table.nodes roots → IsProvable x roots m → AreSimulatableRows x roots (leaves_left x roots) m }
    ensures subset { (x : Instance) (roots some : List ℕ) (m : ℕ) → IsTable x.table → IsFitting x
        → AreRows x.table.nodes roots → AreAmong some roots
        → IsProvable x roots m → AreSimulatableRows x some (leaves_left x some) m }
{
    chain_keeps_counts();
    once_random::subset_keeps_chain();
}

/// The values of roots that are provable within bound 0 do not depend on the secrets: any two inputs that agree on the
/// publics give each observation equally often.
pub fn provable_is_independent()
    ensures { (x : Instance) (roots : List ℕ) → IsTable x.table → IsFitting x → AreRows x.table.nodes roots
        → IsProvable x roots 0 → AreIndependentRows x roots }
{
    provable_is_simulatable();
}

/// To depend on a set alone is to have a simulator who knows the set and the publics: the counts are those of the inputs
/// that have 0 for each other leaf.
pub fn simulator_knows_the_set()
    ensures { (groups : List (Option ℕ)) (count : List Bool → List Bool → ℕ) (set : ℕ → Bool)
        → ((i : ℕ) → IsTrue (set i) → IsSome (group_at groups i))
        → DependsOn groups count set
        ↔ ((inputs o : List Bool) → count inputs o ≡ count (known_inputs groups set inputs) o) }
{}

/// The value of an input leaf with a group is simulatable from no set that lacks the leaf.
pub fn seen_leaf_is_needed()
    ensures { (x : Instance) (i bound : ℕ) (set : ℕ → Bool) → IsTable x.table → IsFitting x
        → IsSome (group_at x.groups i) → AreSimulatableRows x ((2 + i) ∷ []) set bound → IsTrue (set i) }
{}

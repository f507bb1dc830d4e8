//! What a verdict means for the netlist. The contract is over all circuits; the body only names the laws that it rests on.
ghost use Rattle.std.specs.Prelude.{◌≡◌, ℕ, List, None, length};
ghost use Rattle.circuit_types.specs.declared.circuit.Circuit.{Circuit};
ghost use Rattle.circuit_types.specs.declared.probes.Model.{Model};
ghost use Rattle.circuit_types.specs.declared.roles.Roles.{Roles};
ghost use Rattle.circuit_types.specs.Probes.{probe_list};
ghost use Rattle.expr_table.specs.declared.instance.Instance.{Instance};
ghost use Rattle.expr_table.specs.declared.instance.Notion.{Notion};
ghost use Rattle.expr_table.specs.declared.instance.Notion.TheVariants.{Probing};
ghost use Rattle.expr_table.specs.Instance.{IsFitting};
ghost use Rattle.once_random.specs.Provable.{leaves_left};
ghost use Rattle.once_random.specs.Tuples.{roots_of};
ghost use Rattle.term_build.specs.TermInstance.{HasInstance};
ghost use Rattle.tuple_rank.specs.Tuples.{IsTuple};
ghost use Rattle.count_law.specs.Netlists.{IsIndependentTuple, IsSimulatableTuple, tuple_bound};
ghost use Rattle.frontier_core.specs.Tree.{first_of};

/// Where no tuple of at most `t` probes is the first that is not proved, as of a verdict `Secure`, what each of them observes
/// in the netlist is simulatable within its bound, from the leaves that the least chain leaves live. For probing security it
/// does not depend on the secrets. The instance is one of the circuit, with the circuit's probes in the model.
pub fn secure_is_simulatable()
    ensures simulatable { (notion : Notion) (model : Model) (roles : Roles) (circuit : Circuit) (x : Instance) (t : ℕ)
        → HasInstance notion roles circuit (probe_list model roles circuit) x → IsFitting x → first_of x t ≡ None
        → (tuple : List ℕ) → IsTuple (length x.probes) t tuple
        → IsSimulatableTuple notion model roles circuit tuple (leaves_left x (roots_of x tuple))
        (tuple_bound notion (probe_list model roles circuit) tuple) }
    ensures independent { (model : Model) (roles : Roles) (circuit : Circuit) (x : Instance) (t : ℕ)
        → HasInstance Probing roles circuit (probe_list model roles circuit) x → IsFitting x → first_of x t ≡ None
        → (tuple : List ℕ) → IsTuple (length x.probes) t tuple → IsIndependentTuple Probing model roles circuit tuple }
{
    frontier_core::first_is_the_first_unproved();
    count_law::soundness();
}

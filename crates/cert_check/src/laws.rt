//! What a reader may want to know of the definitions. Each law is a contract over all instances and bytes; its body only
//! names the laws that it rests on.
ghost use Rattle.std.specs.Prelude.{◌≡◌, ◌≤◌, ℕ, List, length, [], All};
ghost use Rattle.circuit_types.specs.declared.probes.Model.{Model};
ghost use Rattle.expr_table.specs.declared.instance.Instance.{Instance};
ghost use Rattle.expr_table.specs.Instance.{IsFitting};
ghost use Rattle.expr_table.specs.Table.{IsTable};
ghost use Rattle.once_random.specs.Provable.{IsProvable, leaves_left};
ghost use Rattle.once_random.specs.Tuples.{bound_of, roots_of};
ghost use Rattle.tuple_rank.specs.Tuples.{IsTuple};
ghost use Rattle.certificate.specs.declared.entries.Entry.{Entry};
ghost use Rattle.count_law.specs.Instances.{AreSimulatableRows};
ghost use Rattle.probe_family.specs.declared.ending.Closed.{Closed};
ghost use Rattle.probe_family.specs.declared.family.Family.{Family};
ghost use Rattle.probe_family.specs.Families.{IsFamily};
ghost use Rattle.cert_check.specs.declared.checked.Checked.{Checked};
ghost use Rattle.cert_check.specs.Closing.{Closes, IsCertified};
ghost use Rattle.cert_check.specs.Entries.{IsPreorder, entries_of};
ghost use Rattle.cert_check.specs.Outcome.{IsAccepted, IsDue};

/// At most one answer is due.
pub fn one_outcome()
    ensures { (x : Instance) (model : Model) (order : ℕ) (bytes : List ℕ) (checked other : Checked)
        → IsDue x model order bytes checked → IsDue x model order bytes other → checked ≡ other }
{
    certificate::one_line();
}

/// Where bytes are certified, each tuple of at most `order` probes is provable within its bound.
pub fn certified_is_proved()
    ensures { (x : Instance) (model : Model) (order : ℕ) (bytes : List ℕ) (entries : List Entry) (tuple : List ℕ)
        → order ≤ 8 → IsCertified x model order bytes entries → IsTuple (length x.probes) order tuple
        → IsProvable x (roots_of x tuple) (bound_of x tuple) }
{
    probe_family::each_tuple_in_one_root();
    probe_family::roots_are_families();
    family_split::each_tuple_in_hull_or_one_child();
    family_split::children_are_families();
    once_random::subset_keeps_chain();
    once_random::tuples_have_roots();
}

/// And what such a tuple sees is simulatable within its bound.
pub fn certified_is_simulatable()
    ensures { (x : Instance) (model : Model) (order : ℕ) (bytes : List ℕ) (entries : List Entry) (tuple : List ℕ)
        → IsTable x.table → IsFitting x → order ≤ 8 → IsCertified x model order bytes entries
        → IsTuple (length x.probes) order tuple
        → AreSimulatableRows x (roots_of x tuple) (leaves_left x (roots_of x tuple)) (bound_of x tuple) }
{
    certified_is_proved();
    count_law::provable_is_simulatable();
    once_random::tuples_have_roots();
}

/// Accepted bytes are certified, by as many entries as families were closed.
pub fn accepted_is_certified()
    ensures { (x : Instance) (model : Model) (order : ℕ) (bytes : List ℕ) (families : ℕ)
        → IsAccepted x model order bytes families
        → (entries : List Entry) × IsCertified x model order bytes entries × (families ≡ length entries) }
{}

/// Certified bytes are accepted, with as many families as they have entries.
pub fn certified_is_accepted()
    ensures { (x : Instance) (model : Model) (order : ℕ) (bytes : List ℕ) (entries : List Entry)
        → IsCertified x model order bytes entries → IsAccepted x model order bytes (length entries) }
{}

/// The entries of the families that a search closed, each before its children, close the families that it began with.
pub fn preorder_closes()
    ensures { (x : Instance) (waiting : List Family) (closed : List Closed) → All (IsFamily (length x.probes)) waiting
        → IsPreorder x waiting closed → Closes x waiting (entries_of x closed) [] }
{
    once_random::least_chain_is_full();
    family_split::children_are_families();
}

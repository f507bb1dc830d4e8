//! What a reader and the crates above may want to know of hulls. Each law is a contract over all instances and
//! families; its body is empty.
ghost use Rattle.std.specs.Prelude.{◌≡◌, ◌↔◌, ℕ, Bool, true, List, IsTrue, IsFalse, length, slice_set, Some, None};
ghost use Rattle.std.specs.List.{list_all};
ghost use Rattle.expr_table.specs.declared.instance.Instance.{Instance};
ghost use Rattle.expr_table.specs.Instance.{IsFitting};
ghost use Rattle.expr_table.specs.Table.{IsTable};
ghost use Rattle.once_random.specs.Cuts.{IsChain};
ghost use Rattle.once_random.specs.Groups.{is_within};
ghost use Rattle.once_random.specs.Provable.{IsProvable};
ghost use Rattle.once_random.specs.Tuples.{roots_of};
ghost use Rattle.bit_rows.specs.Sets.{is_in, members};
ghost use Rattle.probe_family.specs.declared.family.Family.{Family};
ghost use Rattle.probe_family.specs.Families.{IsFamily, is_in_part};
ghost use Rattle.probe_family.specs.Least.{least_of};
ghost use Rattle.family_split.specs.Children.{HasInside};
ghost use Rattle.extend_set.specs.Hull.{IsMonotone, LiesBetween, hull_by, hull_of, is_met_by};
ghost use Rattle.extend_set.specs.Hull.{is_provable_set, is_provable_within};

/// There is no hull exactly where the least tuple is not provable.
pub fn hull_is_there()
    ensures { (x : Instance) (family : Family)
        → (hull_of x family ≡ None) ↔ IsFalse (is_provable_within x family.bound (least_of family)) }
{}

/// The hull has one flag for each probe. The least tuple lies inside it, and it lies inside the family's parts. So it
/// has at least as many probes of each part as the part takes.
pub fn hull_lies_between()
    ensures length { (x : Instance) (family : Family) (hull : List Bool) → hull_of x family ≡ Some hull
        → length hull ≡ length x.probes }
    ensures least { (x : Instance) (family : Family) (hull : List Bool) → IsFamily (length x.probes) family
        → hull_of x family ≡ Some hull → IsTrue (list_all (is_in hull) (least_of family)) }
    ensures parts { (x : Instance) (family : Family) (hull : List Bool) → IsFamily (length x.probes) family
        → hull_of x family ≡ Some hull → (p : ℕ) → IsTrue (is_in hull p) → IsTrue (is_in_part family.parts p) }
    ensures enough { (x : Instance) (family : Family) (hull : List Bool) → IsFamily (length x.probes) family
        → hull_of x family ≡ Some hull → HasInside hull family }
{}

/// The probes of the hull are provable within the family's bound, all together. So each tuple inside the hull is.
pub fn hull_is_provable()
    ensures whole { (x : Instance) (family : Family) (hull : List Bool) → IsFamily (length x.probes) family
        → hull_of x family ≡ Some hull → IsTrue (is_provable_set x family.bound hull) }
    ensures whole_chain { (x : Instance) (family : Family) (hull : List Bool)
        → IsTable x.table → IsFitting x → IsFamily (length x.probes) family → hull_of x family ≡ Some hull
        → IsProvable x (roots_of x (members hull)) family.bound }
    ensures tuples { (x : Instance) (family : Family) (hull : List Bool) (tuple : List ℕ)
        → IsTable x.table → IsFitting x → IsFamily (length x.probes) family → hull_of x family ≡ Some hull
        → IsTrue (list_all (is_in hull) tuple) → IsTrue (is_provable_within x family.bound tuple) }
    ensures tuples_chain { (x : Instance) (family : Family) (hull : List Bool) (tuple : List ℕ)
        → IsTable x.table → IsFitting x → IsFamily (length x.probes) family → hull_of x family ≡ Some hull
        → IsTrue (list_all (is_in hull) tuple) → IsProvable x (roots_of x tuple) family.bound }
{}

/// Cuts that are a chain for a set of probes are one for each tuple inside the set, and leave the tuple within each
/// bound within which they leave the set. So one chain serves every tuple inside a hull.
pub fn chain_serves_tuples()
    ensures chain { (x : Instance) (set : List Bool) (tuple cuts : List ℕ) → IsTrue (list_all (is_in set) tuple)
        → IsChain x.table.nodes (roots_of x (members set)) cuts → IsChain x.table.nodes (roots_of x tuple) cuts }
    ensures within { (x : Instance) (set : List Bool) (tuple cuts : List ℕ) (m : ℕ)
        → IsTrue (list_all (is_in set) tuple)
        → IsTrue (is_within x (roots_of x (members set)) cuts m) → IsTrue (is_within x (roots_of x tuple) cuts m) }
{}

/// No probe of the family's parts can be added to the hull.
pub fn hull_is_maximal()
    ensures { (x : Instance) (family : Family) (hull : List Bool) (p : ℕ)
        → IsTable x.table → IsFitting x → IsFamily (length x.probes) family → hull_of x family ≡ Some hull
        → IsTrue (is_in_part family.parts p) → IsFalse (is_in hull p)
        → IsFalse (is_provable_set x family.bound (slice_set hull p true)) }
{}

/// All this holds of the hulls by any criterion that is monotone; and the hull of a family of probes is the one by what is
/// provable within the family's bound, which is monotone.
pub fn hulls_by_any_criterion()
    ensures monotone { (x : Instance) (m : ℕ) → IsTable x.table → IsFitting x → IsMonotone (is_provable_within x m) }
    ensures instance { (x : Instance) (family : Family)
        → hull_of x family ≡ hull_by (is_provable_within x family.bound) (length x.probes) family }
    ensures there { (meets : List ℕ → Bool) (n : ℕ) (family : Family)
        → (hull_by meets n family ≡ None) ↔ IsFalse (meets (least_of family)) }
    ensures between { (meets : List ℕ → Bool) (n : ℕ) (family : Family) (hull : List Bool) → IsFamily n family
        → hull_by meets n family ≡ Some hull → LiesBetween n family hull }
    ensures inside { (meets : List ℕ → Bool) (n : ℕ) (family : Family) (hull : List Bool) (tuple : List ℕ)
        → IsMonotone meets → IsFamily n family → hull_by meets n family ≡ Some hull
        → IsTrue (list_all (is_in hull) tuple) → IsTrue (meets tuple) }
    ensures maximal { (meets : List ℕ → Bool) (n : ℕ) (family : Family) (hull : List Bool) (p : ℕ)
        → IsMonotone meets → IsFamily n family → hull_by meets n family ≡ Some hull
        → IsTrue (is_in_part family.parts p) → IsFalse (is_in hull p) → IsFalse (is_met_by meets (slice_set hull p true)) }
{}

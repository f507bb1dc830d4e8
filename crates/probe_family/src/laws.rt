//! What a reader and the crates above may want to know of the definitions. Each law is a contract over all
//! instances or families; its body is empty.
ghost use Rattle.std.specs.Prelude.{◌≡◌, ◌≤◌, ℕ, List, IsTrue, Some, All, count_by, find, length};
ghost use Rattle.expr_table.specs.declared.instance.Instance.{Instance};
ghost use Rattle.once_random.specs.Tuples.{bound_of};
ghost use Rattle.tuple_rank.specs.Tuples.{IsTuple, rank_of, tuples};
ghost use Rattle.probe_family.specs.declared.family.Family.{Family};
ghost use Rattle.probe_family.specs.Families.{IsFamily, is_tuple_of, weight_of};
ghost use Rattle.probe_family.specs.Least.{least_of};
ghost use Rattle.probe_family.specs.Roots.{roots_of};

/// Each tuple of at most `t` probes is in exactly one root, and that root's bound is the tuple's. The roots have no
/// other tuples.
pub fn each_tuple_in_one_root()
    ensures one { (x : Instance) (t : ℕ) (tuple : List ℕ) → IsTuple (length x.probes) t tuple
        → count_by (λ root. is_tuple_of root tuple) (roots_of x t) ≡ 1 }
    ensures bound { (x : Instance) (t : ℕ) (tuple : List ℕ)
        → All (λ (root : Family). IsTrue (is_tuple_of root tuple) → root.bound ≡ bound_of x tuple) (roots_of x t) }
    ensures no_other { (x : Instance) (t : ℕ) (tuple : List ℕ) → t ≤ 8
        → All (λ root. IsTrue (is_tuple_of root tuple) → IsTuple (length x.probes) t tuple) (roots_of x t) }
{}

/// The roots are families of sets of probes.
pub fn roots_are_families()
    ensures { (x : Instance) (t : ℕ) → t ≤ 8 → All (IsFamily (length x.probes)) (roots_of x t) }
{}

/// The tuples of a root have at most `t` probes.
pub fn roots_are_small()
    ensures { (x : Instance) (t : ℕ) → All (λ (root : Family). root.size ≤ t) (roots_of x t) }
{}

/// A family's tuples have its size and are ascending lists of numbers below n.
pub fn family_has_tuples()
    ensures tuple { (n t : ℕ) (family : Family) (tuple : List ℕ) → IsFamily n family → family.size ≤ t
        → IsTrue (is_tuple_of family tuple) → IsTuple n t tuple }
    ensures size { (n : ℕ) (family : Family) (tuple : List ℕ) → IsFamily n family
        → IsTrue (is_tuple_of family tuple) → length tuple ≡ family.size }
{}

/// The least tuple of a family is one of its tuples, and the first of them in the order of tuples.
pub fn least_is_first()
    ensures tuple { (n : ℕ) (family : Family) → IsFamily n family → IsTrue (is_tuple_of family (least_of family)) }
    ensures first { (n t : ℕ) (family : Family) → IsFamily n family → family.size ≤ t
        → find (is_tuple_of family) (tuples n t) ≡ Some (least_of family) }
    ensures rank { (n t : ℕ) (family : Family) (tuple : List ℕ) → IsFamily n family → family.size ≤ t
        → IsTrue (is_tuple_of family tuple) → rank_of n t (least_of family) ≤ rank_of n t tuple }
{}

/// The weight of a family is how many of the tuples of at most `t` numbers it has.
pub fn weight_counts_tuples()
    ensures { (n t : ℕ) (family : Family) → IsFamily n family → family.size ≤ t
        → weight_of n family ≡ count_by (is_tuple_of family) (tuples n t) }
{}

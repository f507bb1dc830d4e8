//! What a reader and the crates above may want to know of the children. Each law is a contract over all families
//! and hulls; its body is empty.
ghost use Rattle.std.specs.Prelude.{◌≡◌, ◌<◌, ◌^◌, ℕ, Bool, List, length, IsTrue, IsFalse, All, count_by};
ghost use Rattle.std.specs.List.{list_all};
ghost use Rattle.bit_rows.specs.Sets.{is_in};
ghost use Rattle.probe_family.specs.declared.family.Family.{Family};
ghost use Rattle.probe_family.specs.Families.{IsFamily, is_tuple_of, weight_of};
ghost use Rattle.family_split.specs.Children.{HasInside, children_of};

/// Each tuple of a family lies wholly inside the hull, and then in no child, or in exactly one child. The children
/// have no other tuples.
pub fn each_tuple_in_hull_or_one_child()
    ensures inside { (n : ℕ) (family : Family) (hull : List Bool) (tuple : List ℕ) → IsFamily n family
        → IsTrue (list_all (is_in hull) tuple)
        → count_by (λ child. is_tuple_of child tuple) (children_of family hull) ≡ 0 }
    ensures outside { (n : ℕ) (family : Family) (hull : List Bool) (tuple : List ℕ) → IsFamily n family
        → IsTrue (is_tuple_of family tuple) → IsFalse (list_all (is_in hull) tuple)
        → count_by (λ child. is_tuple_of child tuple) (children_of family hull) ≡ 1 }
    ensures no_other { (n : ℕ) (family : Family) (hull : List Bool) (tuple : List ℕ) → IsFamily n family
        → All (λ child. IsTrue (is_tuple_of child tuple) → IsTrue (is_tuple_of family tuple)) (children_of family hull) }
{}

/// The children are families, of the family's size and bound.
pub fn children_are_families()
    ensures families { (n : ℕ) (family : Family) (hull : List Bool) → IsFamily n family
        → All (IsFamily n) (children_of family hull) }
    ensures size { (family : Family) (hull : List Bool)
        → All (λ (child : Family). child.size ≡ family.size) (children_of family hull) }
    ensures bound { (family : Family) (hull : List Bool)
        → All (λ (child : Family). child.bound ≡ family.bound) (children_of family hull) }
{}

/// Where the hull has as many members of each part as the part takes, each child has fewer tuples than the family.
pub fn children_have_fewer_tuples()
    ensures { (n : ℕ) (family : Family) (hull : List Bool) → IsFamily n family → HasInside hull family
        → All (λ child. weight_of n child < weight_of n family) (children_of family hull) }
{}

/// A family has fewer children than there are sets of as many numbers as its tuples have: at most 255, since they have at
/// most 8.
pub fn children_are_few()
    ensures { (n : ℕ) (family : Family) (hull : List Bool) → IsFamily n family
        → length (children_of family hull) < 2 ^ family.size }
{}

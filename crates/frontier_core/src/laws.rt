//! What a reader and the crates above may want to know of the definitions. Each law is a contract over all
//! instances and families; its body is empty.
ghost use Rattle.std.specs.Prelude.{◌≡◌, ◌≤◌, ◌↔◌, [], ◌∷◌, ℕ, Bool, List, None, Some, length};
ghost use Rattle.std.specs.List.{flat_map};
ghost use Rattle.expr_table.specs.declared.instance.Instance.{Instance};
ghost use Rattle.expr_table.specs.Instance.{IsFitting};
ghost use Rattle.expr_table.specs.Table.{IsTable};
ghost use Rattle.once_random.specs.Provable.{IsProvable};
ghost use Rattle.once_random.specs.Tuples.{bound_of, roots_of};
ghost use Rattle.tuple_rank.specs.Tuples.{IsTuple};
ghost use Rattle.probe_family.specs.declared.family.Family.{Family};
ghost use Rattle.probe_family.specs.Families.{IsFamily};
ghost use Rattle.family_split.specs.Children.{children_of};
ghost use Rattle.probe_family.specs.Roots.{roots_of as root_families};
ghost use Rattle.extend_set.specs.Hull.{hull_by, hull_of, is_provable_within};
ghost use Rattle.frontier_core.specs.declared.event.Event.{Event};
ghost use Rattle.frontier_core.specs.declared.verdict.Verdict.{Verdict};
ghost use Rattle.frontier_core.specs.Answer.{IsFailedTuple, IsLeast, IsSameVerdict, IsSearchOf};
ghost use Rattle.probe_family.specs.Often.{AsOften};
ghost use Rattle.frontier_core.specs.Balance.{failed_ranks};
ghost use Rattle.frontier_core.specs.Closings.{closings_of};
ghost use Rattle.frontier_core.specs.Core.{CoreState, IsCoreOf, IsIdle, core_after_all, first_core};
ghost use Rattle.frontier_core.specs.First.{AreAllProved, IsFirstUnproved};
ghost use Rattle.frontier_core.specs.Tree.{closed_under, first_of, tree_by, tree_of, under, under_by};
ghost use Rattle.frontier_core.specs.Verdict.{IsVerdict};

/// No tuple of at most `t` probes is first exactly where each is proved, and a tuple is first exactly where it is not proved
/// and each one before it is. So a verdict says of the tuples what is provable.
pub fn first_is_the_first_unproved()
    ensures none { (x : Instance) (t : ℕ) → (first_of x t ≡ None) ↔ AreAllProved x t }
    ensures some { (x : Instance) (t : ℕ) (tuple : List ℕ) → (first_of x t ≡ Some tuple) ↔ IsFirstUnproved x t tuple }
    ensures secure { (x : Instance) (t : ℕ) → IsTable x.table → IsFitting x → first_of x t ≡ None
        → (tuple : List ℕ) → IsTuple (length x.probes) t tuple → IsProvable x (roots_of x tuple) (bound_of x tuple) }
    ensures unproved { (x : Instance) (t : ℕ) (tuple : List ℕ) → IsTable x.table → IsFitting x → first_of x t ≡ Some tuple
        → IsProvable x (roots_of x tuple) (bound_of x tuple) → ⊥ }
{
    once_random::proved_is_provable();
}

/// A family that has a hull gives itself, closed under the hull, and then what its children give, in order.
pub fn family_gives_itself_and_its_children()
    ensures { (x : Instance) (family : Family) (hull : List Bool) → IsFamily (length x.probes) family
        → hull_of x family ≡ Some hull
        → under x family ≡ closed_under family hull ∷ flat_map (under x) (children_of family hull) }
{}

/// A criterion says of a tuple, under each bound, whether the tuple meets it. A family that has a hull by a criterion gives itself,
/// closed under the hull, and then what its children give; one without a hull gives nothing. The proof tree is the tree by what
/// is provable.
pub fn trees_by_any_criterion()
    ensures hull { (meets : ℕ → List ℕ → Bool) (n : ℕ) (family : Family) (hull : List Bool) → IsFamily n family
        → hull_by (meets family.bound) n family ≡ Some hull
        → under_by meets n family ≡ closed_under family hull ∷ flat_map (under_by meets n) (children_of family hull) }
    ensures none { (meets : ℕ → List ℕ → Bool) (n : ℕ) (family : Family) → IsFamily n family
        → hull_by (meets family.bound) n family ≡ None → under_by meets n family ≡ [] }
    ensures provable { (x : Instance) (t : ℕ)
        → tree_of x t ≡ tree_by (is_provable_within x) (length x.probes) (root_families x t) }
{}

/// Whatever events happen to a core, in whatever order, it stays the core of its search.
pub fn events_keep_the_search()
    ensures begins { (x : Instance) (t workers : ℕ) → t ≤ 8 → IsCoreOf x t (first_core x t workers) }
    ensures stays { (x : Instance) (t : ℕ) (core : CoreState) (events : List Event) → IsCoreOf x t core
        → IsCoreOf x t (core_after_all x t core events) }
{}

/// Whatever list of events leads a search from its first core, or from one that was resumed, to one that is idle: where no
/// family failed, no tuple is first, and the closed families are, as often, those of the proof tree; else the least tuple of
/// the family that failed with the least rank is the first tuple that is not proved.
pub fn every_list_of_events_tells_the_verdict()
    ensures begins { (x : Instance) (t workers : ℕ) → IsTable x.table → IsFitting x → t ≤ 8
        → IsSearchOf x t (first_core x t workers) }
    ensures secure { (x : Instance) (t : ℕ) (core : CoreState) (events : List Event) → IsSearchOf x t core
        → let last = core_after_all x t core events in IsIdle last → failed_ranks last.ended ≡ []
        → (first_of x t ≡ None) × AsOften (closings_of last.ended) (tree_of x t) }
    ensures unproved { (x : Instance) (t : ℕ) (core : CoreState) (events : List Event) → IsSearchOf x t core
        → let last = core_after_all x t core events in IsIdle last
        → (rank : ℕ) (tuple : List ℕ) → IsLeast (failed_ranks last.ended) rank → IsFailedTuple last.ended rank tuple
        → first_of x t ≡ Some tuple }
{}

/// An instance and an order have one verdict. So [`Core::verdict`](crate::Core::verdict) answers the same whatever list of
/// events led from the first core of a search to one that is idle.
pub fn verdict_is_one()
    ensures { (x : Instance) (t : ℕ) (a b : Verdict) → IsVerdict x t a → IsVerdict x t b → IsSameVerdict a b }
{}

//! What a reader and the crates above may want to know of the definitions. Each law is a contract over all
//! tables or instances; its body is empty.
ghost use Rattle.std.specs.Prelude.{◌≡◌, ◌+◌, ◌<◌, ◌≤◌, ◌↔◌, ◌&&◌, ℕ, List, Option, All, IfSome, IsTrue, length};
ghost use Rattle.expr_table.specs.declared.instance.Instance.{Instance};
ghost use Rattle.expr_table.specs.declared.node.Node.{Node};
ghost use Rattle.expr_table.specs.Instance.{IsFitting};
ghost use Rattle.expr_table.specs.Table.{Table, IsTable};
ghost use Rattle.once_random.specs.Cuts.{IsChain, IsSaturated, least_chain, may_be_cut};
ghost use Rattle.once_random.specs.Groups.{are_within, is_in_group, is_within, live_leaves, live_leaves_of};
ghost use Rattle.once_random.specs.Live.{AreAmong, AreLower, AreRows, AreSameRows, IsLeastClosed, is_live};
ghost use Rattle.once_random.specs.Numbers.{count_below};
ghost use Rattle.once_random.specs.Provable.{IsProvable, IsProvableOver, is_provable};
ghost use Rattle.once_random.specs.Tuples.{bound_of, is_proved, roots_of};

/// The live rows are the least set that holds the roots and both sides of each And or Xor that it holds
/// and that is not cut.
pub fn live_is_least()
    ensures { (table : Table) (roots cuts : List ℕ) → IsTable table → AreRows table.nodes roots
        → IsLeastClosed table.nodes roots cuts (is_live table.nodes roots cuts) }
{}

/// The least chain is a chain, and no live row may be cut after it.
pub fn least_chain_is_full()
    ensures chain { (nodes : List Node) (roots : List ℕ) → IsChain nodes roots (least_chain nodes roots) }
    ensures full { (nodes : List Node) (roots : List ℕ) → IsSaturated nodes roots (least_chain nodes roots) }
{}

/// Cuts after which no live row may be cut leave live only what every chain leaves live.
pub fn saturated_leaves_least()
    ensures { (table : Table) (roots full cuts : List ℕ) → IsTable table → AreRows table.nodes roots
        → IsSaturated table.nodes roots full → IsChain table.nodes roots cuts
        → (row : ℕ) → IsTrue (is_live table.nodes roots full row) → IsTrue (is_live table.nodes roots cuts row) }
{}

/// Over any nodes whose sides are lower rows, a chain after which no live row may be cut leaves live exactly what
/// the least chain leaves live, whatever the order of its cuts. So it decides what is provable.
pub fn saturated_chain_decides()
    ensures live { (nodes : List Node) (roots cuts : List ℕ) → AreLower nodes → AreRows nodes roots
        → IsChain nodes roots cuts → IsSaturated nodes roots cuts
        → (row : ℕ) → is_live nodes roots cuts row ≡ is_live nodes roots (least_chain nodes roots) row }
    ensures within { (nodes : List Node) (groups : List (Option ℕ)) (roots cuts : List ℕ) (m : ℕ)
        → AreLower nodes → AreRows nodes roots → IsChain nodes roots cuts → IsSaturated nodes roots cuts
        → are_within nodes groups roots cuts m ≡ are_within nodes groups roots (least_chain nodes roots) m }
    ensures provable { (nodes : List Node) (groups : List (Option ℕ)) (roots cuts : List ℕ) (m : ℕ)
        → AreLower nodes → AreRows nodes roots → IsChain nodes roots cuts → IsSaturated nodes roots cuts
        → IsTrue (are_within nodes groups roots cuts m) ↔ IsProvableOver nodes groups roots m }
{}

/// The least chain leaves the live leaves within a bound exactly where some chain does.
pub fn least_chain_decides()
    ensures { (x : Instance) (roots : List ℕ) (m : ℕ) → IsTable x.table → AreRows x.table.nodes roots
        → IsTrue (is_provable x roots m) ↔ IsProvable x roots m }
{}

/// A chain for roots is a chain for each subset of them, and leaves the subset within each bound within which
/// it leaves the roots. So what is provable is provable for each subset.
pub fn subset_keeps_chain()
    ensures chain { (nodes : List Node) (roots some cuts : List ℕ) → AreAmong some roots
        → IsChain nodes roots cuts → IsChain nodes some cuts }
    ensures within { (x : Instance) (roots some cuts : List ℕ) (m : ℕ) → AreAmong some roots
        → IsTrue (is_within x roots cuts m) → IsTrue (is_within x some cuts m) }
    ensures provable { (x : Instance) (roots some : List ℕ) (m : ℕ) → AreAmong some roots
        → IsProvable x roots m → IsProvable x some m }
{}

/// What is live and what may be cut depend on the roots and the cuts as sets alone; the least chain and what is
/// provable depend on the roots as a set alone.
pub fn roots_are_a_set()
    ensures live { (nodes : List Node) (roots others cuts more : List ℕ)
        → AreSameRows roots others → AreSameRows cuts more
        → (row : ℕ) → is_live nodes roots cuts row ≡ is_live nodes others more row }
    ensures cut { (nodes : List Node) (roots others cuts more : List ℕ)
        → AreSameRows roots others → AreSameRows cuts more
        → (row : ℕ) → may_be_cut nodes roots cuts row ≡ may_be_cut nodes others more row }
    ensures least { (nodes : List Node) (roots others : List ℕ) → AreSameRows roots others
        → least_chain nodes roots ≡ least_chain nodes others }
    ensures provable { (x : Instance) (roots others : List ℕ) (m : ℕ) → AreSameRows roots others
        → is_provable x roots m ≡ is_provable x others m }
{}

/// Where entries are numbers of groups, live leaves are within a bound exactly where every group has at most
/// so many; in a fitting instance they are.
pub fn within_is_each_group()
    ensures over { (nodes : List Node) (groups : List (Option ℕ)) (roots cuts : List ℕ) (m : ℕ)
        → All (λ entry. IfSome entry (λ g. g < length groups)) groups
        → IsTrue (are_within nodes groups roots cuts m)
        ↔ ((group : ℕ) → live_leaves_of nodes groups roots cuts group ≤ m) }
    ensures instance { (x : Instance) (roots cuts : List ℕ) (m : ℕ) → IsFitting x
        → IsTrue (is_within x roots cuts m) ↔ ((group : ℕ) → live_leaves x roots cuts group ≤ m) }
{}

/// In a fitting instance of a table, the live leaves of a group are counted by the numbers of its input leaves:
/// input leaf i has row 2 + i.
pub fn leaves_by_number()
    ensures { (x : Instance) (roots cuts : List ℕ) (group : ℕ) → IsTable x.table → IsFitting x
        → live_leaves x roots cuts group ≡ count_below x.table.inputs
        (λ i. is_in_group x.groups group i && is_live x.table.nodes roots cuts (2 + i)) }
{}

/// The roots of a tuple are rows of the table, and those of some of its probes are among them.
pub fn tuples_have_roots()
    ensures rows { (x : Instance) (tuple : List ℕ) → IsFitting x → AreRows x.table.nodes (roots_of x tuple) }
    ensures among { (x : Instance) (tuple some : List ℕ) → AreAmong some tuple
        → AreAmong (roots_of x some) (roots_of x tuple) }
{}

/// A tuple is proved exactly where some chain for its roots leaves the live leaves within its bound.
pub fn proved_is_provable()
    ensures { (x : Instance) (tuple : List ℕ) → IsTable x.table → IsFitting x
        → IsTrue (is_proved x tuple) ↔ IsProvable x (roots_of x tuple) (bound_of x tuple) }
{}

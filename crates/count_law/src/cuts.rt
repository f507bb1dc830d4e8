//! Cuts keep counts.
ghost use Rattle.std.specs.Prelude.{◌≡◌, ◌+◌, ◌<◌, ℕ, Bool, List, ◌∷◌, IsTrue, IsFalse};
ghost use Rattle.expr_table.specs.Table.{Table, IsTable, has, node_at};
ghost use Rattle.expr_table.specs.Values.{bit};
ghost use Rattle.once_random.specs.Cuts.{IsChain, is_allowed, is_random};
ghost use Rattle.once_random.specs.Live.{AreRows, is_live};
ghost use Rattle.count_law.specs.CutRows.{cut_nodes, cut_table};
ghost use Rattle.count_law.specs.RowCounts.{count_of_rows};

/// After a chain each row that is cut is a random leaf, and each other row is as it was.
pub fn cuts_make_randoms()
    ensures cut { (t : Table) (roots cuts : List ℕ) (row : ℕ) → IsTable t → IsChain t.nodes roots cuts
        → IsTrue (has cuts row) → IsTrue (is_random (node_at (cut_nodes t.nodes roots cuts) row)) }
    ensures uncut { (t : Table) (roots cuts : List ℕ) (row : ℕ) → IsTable t → IsChain t.nodes roots cuts
        → IsFalse (has cuts row) → node_at (cut_nodes t.nodes roots cuts) row ≡ node_at t.nodes row }
{}

/// One more cut keeps each count, where it is allowed after a chain.
pub fn cut_keeps_counts()
    ensures { (t : Table) (roots cuts : List ℕ) (e : ℕ) (inputs o : List Bool) → IsTable t → AreRows t.nodes roots
        → IsChain t.nodes roots cuts → IsTrue (is_allowed t.nodes roots cuts e)
        → count_of_rows (cut_table t roots cuts) roots inputs o
        ≡ count_of_rows (cut_table t roots (e ∷ cuts)) roots inputs o }
{}

/// A chain keeps each count, and after it the live input leaves alone are read. Input leaf i has row 2 + i.
pub fn chain_keeps_counts()
    ensures same { (t : Table) (roots cuts : List ℕ) (inputs o : List Bool) → IsTable t → AreRows t.nodes roots
        → IsChain t.nodes roots cuts
        → count_of_rows t roots inputs o ≡ count_of_rows (cut_table t roots cuts) roots inputs o }
    ensures live { (t : Table) (roots cuts : List ℕ) (inputs others o : List Bool) → IsTable t → AreRows t.nodes roots
        → IsChain t.nodes roots cuts
        → ((i : ℕ) → i < t.inputs → IsTrue (is_live t.nodes roots cuts (2 + i)) → bit inputs i ≡ bit others i)
        → count_of_rows (cut_table t roots cuts) roots inputs o
        ≡ count_of_rows (cut_table t roots cuts) roots others o }
{
    cut_keeps_counts();
}

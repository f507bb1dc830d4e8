//! Cutting until no live row may be cut.
ghost use Rattle.std.specs.Prelude.{◌≡◌, ◌+◌, ◌*◌, ◌<◌, ◌≤◌, ◌∷◌, [], ℕ, List, All, IsTrue, length};
ghost use Rattle.expr_table.specs.Instance.{rows_of};
ghost use Rattle.bit_rows.specs.Sets.{members};
ghost use Rattle.once_random.specs.Live.{AreLower};
ghost use Rattle.once_random.specs.Tuples.{roots_over};
ghost use Rattle.live_rows.specs.Marks.{is_spare, mark_at, queued_count};
ghost use Rattle.live_rows.specs.Shown.{live_count};
ghost use Rattle.live_rows.specs.State.{IsClear};
ghost use Rattle.sim_rules.specs.Cutting.{IsCutDown, IsServing};

use bit_rows::BitRow;
use live_rows::{LiveRows, Looks, Node, ProbeRoots, Row, Steps};
use std::sync::ledger::Ledger;

/// A row's turn to serve: the row that alone reads it is cut, where there is one and it is an Xor.
fn serve<S: Looks, L: Ledger>(live: &mut LiveRows, source: &S, row: Row, steps: &mut Steps<L>)
    requires lower { AreLower (S.nodes source.now) }
    requires cutting { (roots : List ℕ) × (limit : ℕ)
        × IsServing (S.nodes source.now) roots limit live.old (row.0 ∷ live.old.alone) steps.old }
    requires within { row.0 < length live.old.marks }
    requires spare { IsTrue (is_spare (mark_at live.old.marks row.0)) }
    ensures cutting { (roots : List ℕ) (limit : ℕ)
        → IsServing (S.nodes source.now) roots limit live.old (row.0 ∷ live.old.alone) steps.old
        → IsServing (S.nodes source.now) roots limit live.new live.new.alone steps.new }
    ensures found { live.new.found ≡ live.old.found }
    ensures queued { queued_count live.new.marks + length live.old.alone
        ≡ queued_count live.old.marks + length live.new.alone }
{
    let Some(parent) = live.only_parent(row) else {
        return;
    };
    if let Node::Xor(a, b) = source.look(parent, steps) {
        live.cut(source, parent, a, b, steps);
    }
}

/// Marks what the chosen probes read, and cuts until no live row may be cut. Beginning takes a step for
/// each live row, and so do the turns, and so do the rows that are live no more.
pub fn cut_down<S: Looks, L: Ledger>(
    live: &mut LiveRows,
    source: &S,
    probes: &[ProbeRoots],
    chosen: &BitRow,
    steps: &mut Steps<L>,
)
    requires clear { IsClear live.old }
    requires rows { length live.old.marks ≡ length (S.nodes source.now) }
    requires lower { AreLower (S.nodes source.now) }
    requires one_flag_each { length chosen.now ≡ length probes.now }
    requires roots { All (λ probe. All (λ row. row < length (S.nodes source.now)) (rows_of probe)) probes.now }
    ensures cut { IsCutDown (S.nodes source.now) (roots_over probes.now (members chosen.now)) live.new }
    ensures found { length live.new.found
        ≡ live_count (S.nodes source.now) (roots_over probes.now (members chosen.now)) [] }
    ensures cost { steps.new ≤ steps.old
        + 3 * live_count (S.nodes source.now) (roots_over probes.now (members chosen.now)) [] }
{
    live.begin(source, probes, chosen, steps);
    while let Some(row) = live.take_alone() {
        serve(live, source, row, steps);
    }
}

//! Cuts that are allowed.
ghost use Rattle.std.specs.Prelude.{◌≡◌, ◌<◌, ◌∷◌, ℕ, List, IsTrue, IsFalse, length};
ghost use Rattle.expr_table.specs.declared.node.Node.TheVariants as node;
ghost use Rattle.expr_table.specs.Table.{IsTable, has, node_at, sides};
ghost use Rattle.once_random.specs.Cuts as cuts;
ghost use Rattle.live_rows.specs.Shown.{IsShown, Shows};

use expr_table::{ExprTable, Node, Row};
use live_rows::{LiveRows, Steps};
use std::sync::ledger::Ledger;

fn is_random(node: Node) -> bool
    ensures { result ≡ cuts.is_random node }
{
    match node {
        Node::Random(_) => true,
        _ => false,
    }
}

/// Whether a side of a row that is not cut masks it. The row is itself a live parent of its side where it
/// is live, so the side must have no other one.
fn masks(table: &ExprTable, live: &LiveRows, row: Row, side: Row) -> bool
    requires rows { length live.now.marks ≡ length table.now.nodes }
    requires within { row.0 < length table.now.nodes }
    requires side_within { side.0 < length table.now.nodes }
    ensures { (roots done : List ℕ) → Shows table.now.nodes roots done live.now.marks → IsFalse (has done row.0)
        → IsTrue (has (sides (node_at table.now.nodes row.0)) side.0)
        → result ≡ cuts.masks table.now.nodes roots done row.0 side.0 }
{
    let fresh = live.is_cut(side) || is_random(table.node(side));
    let itself = u32::from(live.is_live(row));
    fresh & !live.is_root(side) & (live.parents(side) == itself)
}

/// Whether a cut of a row, whose node is the Xor of these sides, is allowed after the cuts made.
fn is_allowed(table: &ExprTable, live: &LiveRows, row: Row, a: Row, b: Row) -> bool
    requires table { IsTable table.now }
    requires rows { length live.now.marks ≡ length table.now.nodes }
    requires within { row.0 < length table.now.nodes }
    requires xor { node_at table.now.nodes row.0 ≡ node.Xor a b }
    ensures { (roots done : List ℕ) → Shows table.now.nodes roots done live.now.marks
        → result ≡ cuts.is_allowed table.now.nodes roots done row.0 }
{
    if live.is_cut(row) {
        return false;
    }
    masks(table, live, row, a) || masks(table, live, row, b)
}

/// Cuts a row, where that is allowed after the cuts made; whether it is.
pub fn cut_allowed<L: Ledger>(
    table: &ExprTable,
    live: &mut LiveRows,
    row: Row,
    steps: &mut Steps<L>,
) -> bool
    requires table { IsTable table.now }
    requires shown { IsShown table.now.nodes live.old.marks }
    requires within { row.0 < length table.now.nodes }
    ensures rows { length live.new.marks ≡ length live.old.marks }
    ensures allowed { (roots done : List ℕ) → Shows table.now.nodes roots done live.old.marks
        → result ≡ cuts.is_allowed table.now.nodes roots done row.0 }
    ensures cut { (roots done : List ℕ) → Shows table.now.nodes roots done live.old.marks
        → IsTrue result → Shows table.now.nodes roots (row.0 ∷ done) live.new.marks }
{
    let Node::Xor(a, b) = table.node(row) else {
        return false;
    };
    if !is_allowed(table, live, row, a, b) {
        return false;
    }
    live.cut(table, row, a, b, steps);
    true
}

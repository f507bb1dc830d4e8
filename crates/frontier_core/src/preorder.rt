//! The closed families of a search in the order of the proof tree.
ghost use Rattle.std.specs.Prelude.{◌≡◌, ℕ, IfOk};
ghost use Rattle.expr_table.specs.declared.instance.Instance.{Instance};
ghost use Rattle.frontier_core.specs.Preorder.{IsWhole};
ghost use Rattle.frontier_core.specs.Tree.{tree_of};

use crate::closings::Closings;
use crate::stack::stack_up;
use family_split::children;
use probe_family::{Closed, Ended, Family, NoMemory};
use std::alloc::Global;

/// The families of a search in which none has failed: the roots in order, each followed by what its children in order
/// give.
pub fn in_preorder(
    alloc: Global,
    roots: Vec<Family>,
    ended: Vec<Ended>,
) -> Result<Vec<Closed>, NoMemory>
    requires { (x : Instance) × (t : ℕ) × IsWhole x t roots.items ended.items }
    ensures { IfOk result (λ closed. (x : Instance) (t : ℕ) → IsWhole x t roots.items ended.items → closed.items ≡ tree_of x t) }
{
    let mut stack = Vec::new(alloc);
    stack_up(&mut stack, roots)?;
    let mut closings = Closings::make(alloc, ended)?;
    let mut preorder = Vec::new(alloc);
    while let Some(family) = stack.pop() {
        let closed = closings.take(&family)?;
        stack_up(&mut stack, children(alloc, &closed.family, &closed.hull)?)?;
        preorder.push(closed)?;
    }
    Ok(preorder)
}

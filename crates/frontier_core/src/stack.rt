//! Families that wait in a stack.
ghost use Rattle.std.specs.Prelude.{◌≡◌, ◌++◌, OnOk, reverse};

use probe_family::{Family, NoMemory};

/// Puts families on a stack, the first one on top.
pub fn stack_up(stack: &mut Vec<Family>, mut families: Vec<Family>) -> Result<(), NoMemory>
    ensures { OnOk result (reverse stack.new.items ≡ families.items ++ reverse stack.old.items) }
{
    families.reverse();
    stack.append(&mut families)
}

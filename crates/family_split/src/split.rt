//! The children of a family.
ghost use Rattle.std.specs.Prelude.{◌≡◌, IfOk, All, length};
ghost use Rattle.probe_family.specs.Families.{IsFamily};
ghost use Rattle.family_split.specs.Children.{children_of};

use crate::numbers::{step_down, takes_of};
use crate::sides::{all_sides, choose};
use bit_rows::BitRow;
use probe_family::{Family, NoMemory, add_family_over};
use std::alloc::Global;

/// The families of those tuples of a family that do not lie wholly inside the hull: one for each list of numbers
/// that says how many members of each part lie inside, in descending lexicographic order. A part's members inside
/// the hull stand before those outside, and a set from which nothing is taken is dropped. A child is left out where a
/// set has too few members.
pub fn children(alloc: Global, family: &Family, hull: &BitRow) -> Result<Vec<Family>, NoMemory>
    requires { IsFamily (length hull.now) family.now }
    ensures children { IfOk result (λ children. children.items ≡ children_of family.now hull.now) }
    ensures families { IfOk result (λ children. All (IsFamily (length hull.now)) children.items) }
{
    let parts = family.parts.as_slice();
    let sides = all_sides(alloc, parts, hull)?;
    let mut takes = takes_of(alloc, parts)?;
    let numbers = takes.as_mut_slice();
    let mut children = Vec::new(alloc);
    while step_down(parts, numbers) {
        let choices = choose(alloc, &sides, numbers)?;
        add_family_over(alloc, &mut children, family.size, family.bound, &choices)?;
    }
    Ok(children)
}

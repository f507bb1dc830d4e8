//! Parts whose sets are lent, and the families over them.
ghost use Rattle.std.specs.Prelude.{◌≡◌, ◌++◌, IfOk, OnOk, OnErr, filter};
ghost use Rattle.std.specs.List.{list_all};
ghost use Rattle.std.specs.Option.{option_to_list};
ghost use Rattle.probe_family.specs.Choices.{parts_of};
ghost use Rattle.probe_family.specs.Families.{family_over, has_enough, takes_some};

use crate::NoMemory;
use crate::family::Family;
use crate::part::{Part, Parts};
use bit_rows::BitRow;
use std::alloc::Global;

/// So many members of a set that is lent.
#[derive(Clone, Copy)]
pub struct Choice<'a> {
    pub take: u32,
    pub set: &'a BitRow,
}

/// Whether each set has as many members as are taken.
fn have_enough(choices: &[Choice]) -> bool
    ensures { result ≡ list_all has_enough (parts_of choices.now) }
{
    for choice in choices {
        if choice.take > choice.set.count() {
            return false;
        }
    }
    true
}

/// The parts that take something, with sets of their own.
fn copy_taking(alloc: Global, choices: &[Choice]) -> Result<Vec<Part>, NoMemory>
    ensures { IfOk result (λ parts. parts.items ≡ filter takes_some (parts_of choices.now)) }
{
    let mut parts = Vec::new(alloc);
    for choice in choices {
        if choice.take > 0 {
            parts.push(Part {
                take: choice.take,
                set: choice.set.copy()?,
            })?;
        }
    }
    Ok(parts)
}

/// The family that takes so many members of each set. A set of which none are taken makes no part. None exactly
/// where a set has fewer members than are taken.
fn family_over(
    alloc: Global,
    size: u32,
    bound: u32,
    choices: &[Choice],
) -> Result<Option<Family>, NoMemory>
    ensures { IfOk result (λ family. option_to_list family ≡ family_over size bound (parts_of choices.now)) }
{
    if !have_enough(choices) {
        return Ok(None);
    }
    let parts = Parts::from_vec(copy_taking(alloc, choices)?);
    Ok(Some(Family { size, bound, parts }))
}

/// Adds the family that takes so many members of each set, unless a set has fewer members. A set of which none are
/// taken makes no part.
pub fn add_family_over(
    alloc: Global,
    families: &mut Vec<Family>,
    size: u32,
    bound: u32,
    choices: &[Choice],
) -> Result<(), NoMemory>
    ensures added { OnOk result (families.new.items ≡ families.old.items ++ family_over size bound (parts_of choices.now)) }
    ensures err { OnErr result (families.new.items ≡ families.old.items) }
{
    if let Some(family) = family_over(alloc, size, bound, choices)? {
        families.push(family)?;
    }
    Ok(())
}

//! The families that a search begins with.
ghost use Rattle.std.specs.Prelude.{◌≡◌, ◌≤◌, ◌<◌, ◌-◌, ◌^◌, ◌++◌, IfOk, OnOk, All, length};
ghost use Rattle.probe_family.specs.Families.{IsFamily};
ghost use Rattle.probe_family.specs.Roots.{roots_of, roots_of_size};

use crate::NoMemory;
use crate::choice::{Choice, add_family_over};
use crate::family::Family;
use crate::probe_sets::{ProbeSets, probe_sets};
use expr_table::{Instance, Notion};
use std::alloc::Global;

/// Adds the roots of the tuples of `size` probes for strong non-interference: one for each number of internal
/// probes.
fn add_mixed_roots(
    alloc: Global,
    sets: &ProbeSets,
    size: u32,
    roots: &mut Vec<Family>,
) -> Result<(), NoMemory>
    requires { size < 2 ^ 32 - 1 }
    ensures { OnOk result (roots.new.items ≡ roots.old.items ++ roots_of_size Notion.Sni sets.now size) }
{
    for internal in 0..size + 1 {
        let choices = [
            Choice {
                take: internal,
                set: &sets.internal,
            },
            Choice {
                take: size - internal,
                set: &sets.output,
            },
        ];
        add_family_over(alloc, roots, size, internal, &choices)?;
    }
    Ok(())
}

/// Adds the roots of the tuples of `size` probes.
fn add_roots_of_size(
    alloc: Global,
    notion: Notion,
    sets: &ProbeSets,
    size: u32,
    roots: &mut Vec<Family>,
) -> Result<(), NoMemory>
    requires { size < 2 ^ 32 - 1 }
    ensures { OnOk result (roots.new.items ≡ roots.old.items ++ roots_of_size notion sets.now size) }
{
    let whole = [Choice {
        take: size,
        set: &sets.all,
    }];
    match notion {
        Notion::Probing => add_family_over(alloc, roots, size, 0, &whole),
        Notion::Ni => add_family_over(alloc, roots, size, size, &whole),
        Notion::Sni => add_mixed_roots(alloc, sets, size, roots),
    }
}

/// The families that a search begins with, for the tuples of at most `order` probes: by size, and then by bound.
pub fn roots(alloc: Global, instance: &Instance, order: u32) -> Result<Vec<Family>, NoMemory>
    requires few_probes { length instance.now.probes ≤ 65535 }
    requires order { order ≤ 8 }
    ensures roots { IfOk result (λ roots. roots.items ≡ roots_of instance.now order) }
    ensures families { IfOk result (λ roots. All (IsFamily (length instance.now.probes)) roots.items) }
{
    let sets = probe_sets(alloc, instance)?;
    let most = order.min(instance.probes.as_slice().len() as u32);
    let mut roots = Vec::new(alloc);
    for size in 1..most + 1 {
        add_roots_of_size(alloc, instance.notion, &sets, size, &mut roots)?;
    }
    Ok(roots)
}

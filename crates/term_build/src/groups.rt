//! The groups of the input leaves.
ghost use Rattle.std.specs.Prelude.{◌≡◌, ◌≢◌, ◌<◌, ◌^◌, length, map, IfOk};
ghost use Rattle.std.specs.List.{AllPairs, range_with_len};
ghost use Rattle.circuit_types.specs.declared.roles.InputRole.{InputRole as AnyInput};
ghost use Rattle.circuit_types.specs.Worlds.{group_of, input_leaves};
ghost use Rattle.term_build.specs.declared.leaves.Sort.TheVariants.{Input as InputSort};
ghost use Rattle.term_build.specs.Building.{secret_of};
ghost use Rattle.term_build.specs.Leaves.{inputs_of};
ghost use Rattle.term_build.specs.Numbering.{leaves_of_secrets};

use crate::leaves::{Sort, is_leaf};
use circuit_types::{NoMemory, Role, Roles, Timing};
use expr_table::Notion;
use std::alloc::Global;

/// The secret bit of a share.
fn secret_of(role: Role) -> Option<u32>
    ensures { result ≡ secret_of role }
{
    match role {
        Role::Share { secret, .. } => Some(secret),
        Role::Random | Role::Public | Role::Clock | Role::Held(_) => None,
    }
}

/// A group for each of so many secret bits.
fn own_groups(alloc: Global, count: u32) -> Result<Vec<Option<u32>>, NoMemory>
    ensures { IfOk result (λ groups. groups.items ≡ map (λ s. Some s) (range_with_len 0 count)) }
{
    let mut groups = Vec::new(alloc);
    for secret in 0..count {
        groups.push(Some(secret))?;
    }
    Ok(groups)
}

/// The groups of the leaves that are secret bits: where the secrets are given, each is its own.
fn secret_groups(alloc: Global, notion: Notion, roles: &Roles) -> Result<Vec<Option<u32>>, NoMemory>
    requires { length (leaves_of_secrets InputSort notion roles.now) < 2 ^ 32 }
    ensures { IfOk result (λ groups. groups.items ≡ map (group_of roles.now) (leaves_of_secrets InputSort notion roles.now)) }
{
    match notion {
        Notion::Probing => own_groups(alloc, roles.secrets.as_slice().len() as u32),
        Notion::Ni | Notion::Sni => Ok(Vec::new(alloc)),
    }
}

/// The groups of all input leaves, in order.
pub fn groups(
    alloc: Global,
    notion: Notion,
    roles: &Roles,
    timing: Timing,
) -> Result<Vec<Option<u32>>, NoMemory>
    requires roles { AllPairs (λ (x y : AnyInput). x.bit ≢ y.bit) roles.now.inputs }
    requires few { length (leaves_of_secrets InputSort notion roles.now) < 2 ^ 32 }
    ensures { IfOk result (λ groups. groups.items ≡ map (group_of roles.now) (input_leaves (inputs_of notion) roles.now timing)) }
{
    let mut groups = secret_groups(alloc, notion, roles)?;
    for cycle in 0..timing.cycles() {
        for input in roles.inputs.as_slice() {
            if is_leaf(Sort::Input, notion, roles, cycle, input.role) {
                groups.push(secret_of(input.role))?;
            }
        }
    }
    Ok(groups)
}

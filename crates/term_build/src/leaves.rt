//! Which input bits are leaves, and how many leaves there are.
ghost use Rattle.std.specs.Prelude.{◌≡◌, ◌≤◌, ◌<◌, ◌^◌, length, MatchOption};
ghost use Rattle.circuit_types.specs.Worlds.{is_drawn, is_input_leaf, is_random_leaf, leaves_in};
ghost use Rattle.expr_table.specs.Table.{most_rows};
ghost use Rattle.term_build.specs.Leaves.{inputs_of};
ghost use Rattle.term_build.specs.Numbering.{is_leaf, all_leaves, leaves_of_secrets};

use circuit_types::{Role, Roles, Timing};
use expr_table::{MOST_ROWS, Notion};

/// The two sorts of leaves.
#[derive(Clone, Copy, Debug, PartialEq, Eq)]
pub enum Sort {
    Input,
    Random,
}

/// A share that is drawn at random where the secrets are given: each but the last.
pub fn is_drawn(roles: &Roles, share: u32) -> bool
    ensures { result ≡ is_drawn roles.now share }
{
    u64::from(share) + 1 < u64::from(roles.shares)
}

/// Whether an input bit with this role is a leaf of the sort, in this cycle.
pub fn is_leaf(sort: Sort, notion: Notion, roles: &Roles, cycle: u32, role: Role) -> bool
    ensures { result ≡ is_leaf sort notion roles.now cycle role }
{
    match sort {
        Sort::Input => is_input_leaf(notion, cycle, role),
        Sort::Random => is_random_leaf(notion, roles, cycle, role),
    }
}

fn is_input_leaf(notion: Notion, cycle: u32, role: Role) -> bool
    ensures { result ≡ is_input_leaf (inputs_of notion) cycle role }
{
    match role {
        Role::Public => true,
        Role::Share { .. } => match notion {
            Notion::Probing => false,
            Notion::Ni | Notion::Sni => cycle == 0,
        },
        Role::Random | Role::Clock | Role::Held(_) => false,
    }
}

fn is_random_leaf(notion: Notion, roles: &Roles, cycle: u32, role: Role) -> bool
    ensures { result ≡ is_random_leaf (inputs_of notion) roles.now cycle role }
{
    match role {
        Role::Random => true,
        Role::Share { share, .. } => match notion {
            Notion::Probing => cycle == 0 && is_drawn(roles, share),
            Notion::Ni | Notion::Sni => false,
        },
        Role::Public | Role::Clock | Role::Held(_) => false,
    }
}

/// How many leaves are no input bits: the secret bits, where these are given.
pub fn secret_count(sort: Sort, notion: Notion, roles: &Roles) -> usize
    ensures { result ≡ length (leaves_of_secrets sort notion roles.now) }
{
    match sort {
        Sort::Random => 0,
        Sort::Input => match notion {
            Notion::Probing => roles.secrets.as_slice().len(),
            Notion::Ni | Notion::Sni => 0,
        },
    }
}

/// How many leaves of the sort a cycle has.
fn count_in_cycle(sort: Sort, notion: Notion, roles: &Roles, cycle: u32) -> usize
    ensures count { result ≡ length (leaves_in (is_leaf sort notion roles.now cycle) roles.now cycle) }
    ensures few { result < 2 ^ 63 }
{
    let mut count = 0;
    for input in roles.inputs.as_slice() {
        if is_leaf(sort, notion, roles, cycle, input.role) {
            count += 1;
        }
    }
    count
}

/// How many leaves of the sort there are; `None` where a table has no room for them.
pub fn leaf_count(sort: Sort, notion: Notion, roles: &Roles, timing: Timing) -> Option<u32>
    ensures { MatchOption result
        (most_rows < length (all_leaves sort notion roles.now timing))
        (λ count. (count ≡ length (all_leaves sort notion roles.now timing)) × (count ≤ most_rows)) }
{
    let mut count = secret_count(sort, notion, roles);
    for cycle in 0..timing.cycles() {
        if count > MOST_ROWS {
            return None;
        }
        count += count_in_cycle(sort, notion, roles, cycle);
    }
    if count > MOST_ROWS {
        return None;
    }
    Some(count as u32)
}

//! The rows of the input bits in a cycle.
ghost use Rattle.std.specs.Prelude.{◌≡◌, ◌≤◌, ◌<◌, ◌+◌, ℕ, length, IfOk};
ghost use Rattle.std.specs.Option.{option_map_or};
ghost use Rattle.circuit_types.specs.InputBits.{role_of};
ghost use Rattle.circuit_types.specs.Worlds.{input};
ghost use Rattle.expr_table.specs.Table.{IsRowOf, most_rows};
ghost use Rattle.term_build.specs.Building.{ShowBits, IsForInputs, row_at, role_row};
ghost use Rattle.term_build.specs.Leaves.{leaf_term};
ghost use Rattle.term_build.specs.Numbering.{leaf_count, leaves_before, numbered_term};

use crate::cycle_rows::constant_row;
use crate::joining::row_or_zero;
use crate::leaves::{Sort, is_leaf};
use circuit_types::{NoMemory, Role, Roles};
use expr_table::{ExprTable, Notion, Row};
use std::alloc::Global;

/// The row of a leaf by its number.
fn leaf_row(table: &ExprTable, sort: Sort, number: u32) -> Row
    requires { number < leaf_count sort table.now }
    ensures { IsRowOf table.now.nodes result.0 (numbered_term sort number) }
{
    match sort {
        Sort::Input => table.input(number),
        Sort::Random => table.random(number),
    }
}

/// The rows of leaves by bit, and the number of the next leaf.
#[derive(Drop)]
pub struct LeafRows {
    pub rows: Vec<Row>,
    pub next: u32,
}

/// The rows of the leaves of a sort in a cycle, by bit; Zero's for other bits. `first` is how many leaves stand before
/// those of the cycle.
pub fn leaf_rows(
    alloc: Global,
    table: &ExprTable,
    sort: Sort,
    notion: Notion,
    roles: &Roles,
    cycle: u32,
    first: u32,
    count: usize,
) -> Result<LeafRows, NoMemory>
    requires roles { IsForInputs count roles.now }
    requires first { first ≡ length (leaves_before sort notion roles.now cycle) }
    requires few { leaf_count sort table.now ≤ most_rows }
    requires known { length (leaves_before sort notion roles.now (cycle + 1)) ≤ leaf_count sort table.now }
    ensures next { IfOk result (λ leaves. leaves.next ≡ length (leaves_before sort notion roles.now (cycle + 1))) }
    ensures rows { IfOk result (λ leaves. ShowBits table.now.nodes leaves.rows.items
        (λ bit. leaf_term (numbered_term sort) (leaves_before sort notion roles.now (cycle + 1)) (input bit cycle))) }
{
    let mut rows = vec![in alloc; table.zero(); count]?;
    let mut next = first;
    for input in roles.inputs.as_slice() {
        if is_leaf(sort, notion, roles, cycle, input.role) {
            rows[input.bit as usize] = leaf_row(table, sort, next);
            next += 1;
        }
    }
    Ok(LeafRows { rows, next })
}

/// The row of an input bit by its role.
fn role_row(given: &[Row], drawn: &[Row], shares: &[Row], bit: u32, role: Role) -> Row
    ensures { result.0 ≡ role_row given.now drawn.now shares.now bit role }
{
    match role {
        Role::Share { .. } => row_or_zero(shares, bit as usize),
        Role::Random => row_or_zero(drawn, bit as usize),
        Role::Public => row_or_zero(given, bit as usize),
        Role::Clock => Row(0),
        Role::Held(value) => constant_row(value),
    }
}

/// The rows of the input bits by number, from those of the leaves of the cycle and those of the shares.
pub fn bit_rows(
    alloc: Global,
    roles: &Roles,
    given: &[Row],
    drawn: &[Row],
    shares: &[Row],
    count: usize,
) -> Result<Vec<Row>, NoMemory>
    requires { IsForInputs count roles.now }
    ensures { IfOk result (λ rows. (bit : ℕ)
        → row_at rows.items bit ≡ option_map_or (role_row given.now drawn.now shares.now bit) (role_of roles.now bit) 0) }
{
    let mut rows = vec![in alloc; Row(0); count]?;
    for input in roles.inputs.as_slice() {
        rows[input.bit as usize] = role_row(given, drawn, shares, input.bit, input.role);
    }
    Ok(rows)
}

//! The rows of the shares, which are the same in each cycle.
ghost use Rattle.std.specs.Prelude.{◌≡◌, ◌<◌, ◌≤◌, length, IfOk};
ghost use Rattle.circuit_types.specs.declared.roles.Role.TheVariants.{Share};
ghost use Rattle.circuit_types.specs.Worlds.{input, input_leaves, secrets};
ghost use Rattle.circuit_types.specs.Worlds as leaf;
ghost use Rattle.expr_table.specs.Table.{most_rows};
ghost use Rattle.term_build.specs.Building.{AreShareBits, IsForInputs, Makes, MakesShares, ShowBits};
ghost use Rattle.term_build.specs.InputTerms.{drawn_shares, joins, last_share, role_joins, share_term};
ghost use Rattle.term_build.specs.Leaves.{drawn_term, given_term};
ghost use Rattle.term_build.specs.TermInstance.{HasEachShare};

use crate::joining::{differ, row_or_zero};
use crate::leaves::is_drawn;
use circuit_types::{NoMemory, Role, Roles, Stop, Timing};
use expr_table::{ExprTable, Row};
use std::alloc::Global;

/// The input bit of each share, at the place that is the secret's number times the number of shares, plus the share.
fn share_bits(alloc: Global, roles: &Roles) -> Result<Vec<u32>, NoMemory>
    requires shares { HasEachShare roles.now }
    requires few { length roles.now.secrets ≤ most_rows }
    ensures { IfOk result (λ bits. AreShareBits roles.now bits.items) }
{
    let shares = roles.shares as usize;
    let mut bits = vec![in alloc; 0u32; roles.secrets.as_slice().len() * shares]?;
    for input in roles.inputs.as_slice() {
        if let Role::Share { secret, share } = input.role {
            bits[secret as usize * shares + share as usize] = input.bit;
        }
    }
    Ok(bits)
}

/// Makes the row of the last share of a secret: its leaf, joined with share 0, share 1 and so on up to the last but one.
fn last_share_row(
    table: &mut ExprTable,
    roles: &Roles,
    timing: Timing,
    bits: &[u32],
    drawn: &[Row],
    secret: u32,
) -> Result<Row, Stop>
    requires shares { HasEachShare roles.now }
    requires secret { secret < length roles.now.secrets }
    requires inputs { table.old.inputs ≡ length (input_leaves secrets roles.now timing) }
    requires bits { AreShareBits roles.now bits.now }
    requires drawn { ShowBits table.old.nodes drawn.now (λ b. drawn_term secrets roles.now timing (input b 0)) }
    ensures { Makes table.old table.new
        (joins (given_term secrets roles.now timing (leaf.secret secret))
        (drawn_shares roles.now (drawn_term secrets roles.now timing) secret))
        (last_share roles.now (given_term secrets roles.now timing) (drawn_term secrets roles.now timing) secret) result }
{
    let shares = roles.shares as usize;
    let mut row = table.input(secret);
    for share in 0..shares - 1 {
        let bit = bits[secret as usize * shares + share];
        row = differ(table, row, row_or_zero(drawn, bit as usize))?;
    }
    Ok(row)
}

/// Makes the row of a share, where the secrets are given.
fn share_row(
    table: &mut ExprTable,
    roles: &Roles,
    timing: Timing,
    bits: &[u32],
    drawn: &[Row],
    bit: u32,
    secret: u32,
    share: u32,
) -> Result<Row, Stop>
    requires shares { HasEachShare roles.now }
    requires secret { secret < length roles.now.secrets }
    requires inputs { table.old.inputs ≡ length (input_leaves secrets roles.now timing) }
    requires bits { AreShareBits roles.now bits.now }
    requires drawn { ShowBits table.old.nodes drawn.now (λ b. drawn_term secrets roles.now timing (input b 0)) }
    ensures { Makes table.old table.new
        (role_joins roles.now (given_term secrets roles.now timing) (drawn_term secrets roles.now timing) (Share secret share))
        (share_term secrets roles.now (given_term secrets roles.now timing) (drawn_term secrets roles.now timing)
        bit secret share) result }
{
    if is_drawn(roles, share) {
        return Ok(row_or_zero(drawn, bit as usize));
    }
    last_share_row(table, roles, timing, bits, drawn, secret)
}

/// Makes the rows of all shares by bit, where the secrets are given.
pub fn share_rows(
    alloc: Global,
    table: &mut ExprTable,
    roles: &Roles,
    timing: Timing,
    drawn: &[Row],
    count: usize,
) -> Result<Vec<Row>, Stop>
    requires roles { IsForInputs count roles.now }
    requires shares { HasEachShare roles.now }
    requires few { length roles.now.secrets ≤ most_rows }
    requires inputs { table.old.inputs ≡ length (input_leaves secrets roles.now timing) }
    requires drawn { ShowBits table.old.nodes drawn.now (λ b. drawn_term secrets roles.now timing (input b 0)) }
    ensures { MakesShares secrets roles.now timing table.old table.new result }
{
    let bits = share_bits(alloc, roles)?;
    let mut rows = vec![in alloc; Row(0); count]?;
    for input in roles.inputs.as_slice() {
        if let Role::Share { secret, share } = input.role {
            let row = share_row(table, roles, timing, &bits, drawn, input.bit, secret, share)?;
            rows[input.bit as usize] = row;
        }
    }
    Ok(rows)
}

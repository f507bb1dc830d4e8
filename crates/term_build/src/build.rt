//! The instance of a circuit.
ghost use Rattle.std.specs.Prelude.{◌≡◌, IfOk, IfErr, MatchResult};
ghost use Rattle.circuit_types.specs.Causes.{IsRefusal};
ghost use Rattle.circuit_types.specs.DataSources.{IsWired};
ghost use Rattle.circuit_types.specs.Due.{IsClear, IsDue};
ghost use Rattle.circuit_types.specs.InputBits.{FitsNets};
ghost use Rattle.circuit_types.specs.Order.{IsLevelled};
ghost use Rattle.expr_table.specs.Instance.{IsFitting};
ghost use Rattle.expr_table.specs.Table.{new_table};
ghost use Rattle.term_build.specs.Building.{HasLeaves, MakesCycles, MakesShares};
ghost use Rattle.term_build.specs.Leaves.{inputs_of};
ghost use Rattle.term_build.specs.TermInstance.{AreProbesOf, HasEachShare, HasInstance, input_count, random_count, term_causes};

use crate::bit_rows::{bit_rows, leaf_rows};
use crate::cycle_rows::{CycleRows, cell_rows};
use crate::groups::groups;
use crate::joining::too_many_terms;
use crate::leaves::{Sort, leaf_count, secret_count};
use crate::roots::probe_roots;
use crate::share_rows::share_rows;
use circuit_types::{Circuit, Probes, Roles, Stop};
use expr_table::{ExprTable, Instance, Notion, Row, TermStop};
use sequences::Sequence;
use std::alloc::Global;

/// The table of the leaves alone.
fn leaf_table(
    alloc: Global,
    circuit: &Circuit,
    roles: &Roles,
    notion: Notion,
) -> Result<ExprTable, Stop>
    ensures table { IfOk result (λ table. table
        ≡ new_table (input_count notion roles.now circuit.now) (random_count notion roles.now circuit.now)) }
    ensures leaves { IfOk result (HasLeaves notion roles.now circuit.now) }
    ensures cause { IfErr result (IsRefusal (IsDue (term_causes notion roles.now circuit.now))) }
{
    let Some(inputs) = leaf_count(Sort::Input, notion, roles, circuit.timing) else {
        return Err(too_many_terms());
    };
    let Some(randoms) = leaf_count(Sort::Random, notion, roles, circuit.timing) else {
        return Err(too_many_terms());
    };
    match ExprTable::make(alloc, inputs, randoms) {
        Ok(table) => Ok(table),
        Err(TermStop::TooManyTerms) => Err(too_many_terms()),
        Err(TermStop::NoMemory) => Err(Stop::NoMemory),
    }
}

/// Makes the rows of the shares by bit.
fn shares_by_bit(
    alloc: Global,
    table: &mut ExprTable,
    circuit: &Circuit,
    roles: &Roles,
    notion: Notion,
) -> Result<Vec<Row>, Stop>
    requires levelled { IsLevelled circuit.now }
    requires roles { FitsNets roles.now circuit.now.nets }
    requires shares { HasEachShare roles.now }
    requires leaves { HasLeaves notion roles.now circuit.now table.old }
    ensures { MakesShares (inputs_of notion) roles.now circuit.now.timing table.old table.new result }
{
    let count = circuit.nets.sources.as_slice().len();
    match notion {
        Notion::Probing => {
            let drawn = leaf_rows(alloc, table, Sort::Random, notion, roles, 0, 0, count)?;
            share_rows(alloc, table, roles, circuit.timing, &drawn.rows, count)
        }
        Notion::Ni | Notion::Sni => {
            let given = leaf_rows(alloc, table, Sort::Input, notion, roles, 0, 0, count)?;
            Ok(given.rows)
        }
    }
}

/// Makes the rows of every cycle, in order.
fn rows_of_cycles(
    alloc: Global,
    table: &mut ExprTable,
    circuit: &Circuit,
    roles: &Roles,
    notion: Notion,
) -> Result<Vec<CycleRows>, Stop>
    requires levelled { IsLevelled circuit.now }
    requires wired { IsWired circuit.now.nets }
    requires roles { FitsNets roles.now circuit.now.nets }
    requires shares { HasEachShare roles.now }
    requires leaves { HasLeaves notion roles.now circuit.now table.old }
    ensures { MakesCycles notion roles.now circuit.now table.old table.new result }
{
    let count = circuit.nets.sources.as_slice().len();
    let shares = shares_by_bit(alloc, table, circuit, roles, notion)?;
    let mut inputs = secret_count(Sort::Input, notion, roles) as u32;
    let mut randoms = 0;
    let mut done = Vec::new(alloc);
    for cycle in 0..circuit.timing.cycles() {
        let given = leaf_rows(
            alloc,
            table,
            Sort::Input,
            notion,
            roles,
            cycle,
            inputs,
            count,
        )?;
        let drawn = leaf_rows(
            alloc,
            table,
            Sort::Random,
            notion,
            roles,
            cycle,
            randoms,
            count,
        )?;
        inputs = given.next;
        randoms = drawn.next;
        let bits = bit_rows(alloc, roles, &given.rows, &drawn.rows, &shares, count)?;
        let rows = cell_rows(alloc, table, circuit, bits, &done)?;
        done.push(rows)?;
    }
    Ok(done)
}

/// The instance of a circuit with these roles and probes, under a notion. Rows are numbered as the terms are made: the leaves,
/// the last shares of the secrets, and the cells, cycle by cycle. Refused where the terms need more rows than a table has.
pub fn instance(
    alloc: Global,
    circuit: &Circuit,
    roles: &Roles,
    probes: &Probes,
    notion: Notion,
) -> Result<Instance, Stop>
    requires levelled { IsLevelled circuit.now }
    requires wired { IsWired circuit.now.nets }
    requires roles { FitsNets roles.now circuit.now.nets }
    requires shares { HasEachShare roles.now }
    requires probes { AreProbesOf circuit.now probes.now.list }
    ensures instance { IfOk result (HasInstance notion roles.now circuit.now probes.now.list) }
    ensures fitting { IfOk result IsFitting }
    ensures cause { MatchResult result
        (λ x. IsClear (term_causes notion roles.now circuit.now))
        (IsRefusal (IsDue (term_causes notion roles.now circuit.now))) }
{
    let mut table = leaf_table(alloc, circuit, roles, notion)?;
    let rows = rows_of_cycles(alloc, &mut table, circuit, roles, notion)?;
    let roots = probe_roots(alloc, &rows, probes.list.as_slice())?;
    let groups = groups(alloc, notion, roles, circuit.timing)?;
    Ok(Instance {
        notion,
        table,
        probes: Sequence::from_vec(roots),
        groups: Sequence::from_vec(groups),
    })
}

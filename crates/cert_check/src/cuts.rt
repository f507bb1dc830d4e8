//! Cuts for a hull.
ghost use Rattle.std.specs.Prelude.{◌≡◌, nat_lt, true, length, IfOk};
ghost use Rattle.std.specs.List.{list_all};
ghost use Rattle.expr_table.specs.Instance.{IsFitting};
ghost use Rattle.expr_table.specs.Table.{numbers};
ghost use Rattle.live_rows.specs.State.{IsClear};
ghost use Rattle.cert_check.specs.Stages.{cuts_fault};
ghost use Rattle.cert_check.specs.Chains.{why_of};

use bit_rows::BitRow;
use certificate::Why;
use chain_check::{ChainAnswer, is_chain, one_answer};
use expr_table::{Instance, Row};
use live_rows::LiveRows;
use sequences::NoMemory;
use std::alloc::Global;

/// Whether these are numbers of rows.
fn are_rows(rows: &[u32], count: u32) -> bool
    ensures { result ≡ list_all (λ row. nat_lt row count) rows.now }
{
    rows.iter().all(|row| *row < count)
}

fn rows_of(alloc: Global, cuts: &[u32]) -> Result<Vec<Row>, NoMemory>
    ensures { IfOk result (λ rows. numbers rows.items ≡ cuts.now) }
{
    let mut rows = Vec::new(alloc);
    for cut in cuts {
        rows.push(Row(*cut))?;
    }
    Ok(rows)
}

fn why_of(answer: ChainAnswer) -> Option<Why>
    ensures { result ≡ why_of answer }
{
    match answer {
        ChainAnswer::Holds => None,
        ChainAnswer::BadCut(_) => Some(Why::Cuts),
        ChainAnswer::OverBound => Some(Why::Bound),
    }
}

/// What is wrong with these rows as cuts.
fn rows_fault(
    instance: &Instance,
    live: &mut LiveRows,
    hull: &BitRow,
    bound: u32,
    cuts: &[u32],
    rows: &[Row],
) -> Option<Why>
    requires fitting { IsFitting instance.now }
    requires clear { IsClear live.old }
    requires made_for { length live.old.marks ≡ length instance.now.table.nodes }
    requires one_flag_each { length hull.now ≡ length instance.now.probes }
    requires same { numbers rows.now ≡ cuts.now }
    requires there { list_all (λ row. nat_lt row (length instance.now.table.nodes)) cuts.now ≡ true }
    ensures clear { IsClear live.new }
    ensures rows { length live.new.marks ≡ length live.old.marks }
    ensures fault { result ≡ cuts_fault instance.now hull.now bound cuts.now }
{
    one_answer();
    why_of(is_chain(instance, live, hull, bound, rows))
}

/// What is wrong with these cuts for the probes of a hull, within a bound; if anything is.
pub fn cuts_fault(
    alloc: Global,
    instance: &Instance,
    live: &mut LiveRows,
    hull: &BitRow,
    bound: u32,
    cuts: &[u32],
) -> Result<Option<Why>, NoMemory>
    requires fitting { IsFitting instance.now }
    requires clear { IsClear live.old }
    requires made_for { length live.old.marks ≡ length instance.now.table.nodes }
    requires one_flag_each { length hull.now ≡ length instance.now.probes }
    ensures clear { IsClear live.new }
    ensures rows { length live.new.marks ≡ length live.old.marks }
    ensures fault { IfOk result (λ why. why ≡ cuts_fault instance.now hull.now bound cuts.now) }
{
    if !are_rows(cuts, instance.table.rows()) {
        return Ok(Some(Why::Cuts));
    }
    let rows = rows_of(alloc, cuts)?;
    Ok(rows_fault(instance, live, hull, bound, cuts, rows.as_slice()))
}

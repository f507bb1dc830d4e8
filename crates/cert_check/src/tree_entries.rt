//! The entries of a search.
ghost use Rattle.std.specs.Prelude.{◌≡◌, IfOk, All, length};
ghost use Rattle.bit_rows.specs.Sets.{members};
ghost use Rattle.expr_table.specs.Instance.{IsFitting};
ghost use Rattle.expr_table.specs.Table.{numbers};
ghost use Rattle.live_rows.specs.State.{IsClear};
ghost use Rattle.probe_family.specs.declared.ending.Closed.{Closed as AnyClosed};
ghost use Rattle.cert_check.specs.Entries.{entries_of, entry_of};

use bit_rows::BitRow;
use certificate::Entry;
use expr_table::{Instance, Row};
use least_chain::least_chain;
use live_rows::LiveRows;
use probe_family::Closed;
use sequences::{NoMemory, Sequence};
use std::alloc::Global;

fn members_of(alloc: Global, set: &BitRow) -> Result<Vec<u32>, NoMemory>
    ensures { IfOk result (λ list. list.items ≡ members set.now) }
{
    let mut list = Vec::new(alloc);
    for p in 0..set.len() {
        if set.get(p) {
            list.push(p)?;
        }
    }
    Ok(list)
}

fn numbers_of(alloc: Global, rows: &[Row]) -> Result<Vec<u32>, NoMemory>
    ensures { IfOk result (λ list. list.items ≡ numbers rows.now) }
{
    let mut list = Vec::new(alloc);
    for row in rows {
        list.push(row.0)?;
    }
    Ok(list)
}

/// The members of the hull, with its least chain.
fn entry_of(
    alloc: Global,
    instance: &Instance,
    live: &mut LiveRows,
    closed: &Closed,
) -> Result<Entry, NoMemory>
    requires fitting { IsFitting instance.now }
    requires clear { IsClear live.old }
    requires made_for { length live.old.marks ≡ length instance.now.table.nodes }
    requires one_flag_each { length closed.now.hull ≡ length instance.now.probes }
    ensures clear { IsClear live.new }
    ensures rows { length live.new.marks ≡ length live.old.marks }
    ensures entry { IfOk result (λ entry. entry ≡ entry_of instance.now closed.now) }
{
    let hull = members_of(alloc, &closed.hull)?;
    let chain = least_chain(alloc, instance, live, &closed.hull)?;
    let cuts = numbers_of(alloc, chain.as_slice())?;
    Ok(Entry {
        hull: Sequence::from_vec(hull),
        cuts: Sequence::from_vec(cuts),
    })
}

/// Each hull with its least chain, in order. For want of memory too, nothing is live afterwards.
pub fn entries(
    alloc: Global,
    instance: &Instance,
    live: &mut LiveRows,
    closed: &[Closed],
) -> Result<Vec<Entry>, NoMemory>
    requires fitting { IsFitting instance.now }
    requires clear { IsClear live.old }
    requires made_for { length live.old.marks ≡ length instance.now.table.nodes }
    requires hulls { All (λ (c : AnyClosed). length c.hull ≡ length instance.now.probes) closed.now }
    ensures clear { IsClear live.new }
    ensures rows { length live.new.marks ≡ length live.old.marks }
    ensures entries { IfOk result (λ entries. entries.items ≡ entries_of instance.now closed.now) }
{
    let mut entries = Vec::new(alloc);
    for each in closed {
        let entry = entry_of(alloc, instance, live, each)?;
        entries.push(entry)?;
    }
    Ok(entries)
}

//! Sets of probes, and the refresh that many tests look at.
ghost use Rattle.std.specs.Prelude.{◌≡◌, ◌≤◌, ◌<◌, ℕ, All, IfOk, length};
ghost use Rattle.expr_table.specs.declared.node.Row.{Row};
ghost use Rattle.expr_table.specs.Instance.{IsFitting, rows_of};

use bit_rows::BitRow;
use expr_table::{ExprTable, Instance, NoMemory, Notion, ProbeRoots, Row};
use sequences::Sequence;
use std::alloc::Global;
use std::process::Abort;
use std::test::Fail;

/// The set of the numbers below `len` whose bits are set.
pub fn set_of(alloc: Global, len: u32, bits: u32) -> Result<BitRow, NoMemory>
    requires { len ≤ 32 }
    ensures { IfOk result (λ set. length set ≡ len) }
{
    let mut set = BitRow::make(alloc, len)?;
    for i in 0..len {
        if bits >> i & 1 == 1 {
            set.set(i);
        }
    }
    Ok(set)
}

/// A probe for each row.
pub fn probes_of(alloc: Global, rows: &[Row]) -> Result<Vec<ProbeRoots>, NoMemory>
    ensures long { IfOk result (λ probes. length probes.items ≡ length rows.now) }
    ensures within { IfOk result (λ probes. (n : ℕ) → All (λ (row : Row). row.0 < n) rows.now
        → All (λ probe. All (λ row. row < n) (rows_of probe)) probes.items) }
{
    let mut probes = Vec::new(alloc);
    for row in rows {
        let rows = Sequence::from_vec(vec![in alloc; *row]?);
        probes.push(ProbeRoots {
            rows,
            output: false,
        })?;
    }
    Ok(probes)
}

/// The two-share refresh of a secret x, as (x0 + r, x + x0 + r), with a probe for x0, for x + x0, for r
/// and for each output.
pub fn refresh(rt: &impl Abort, alloc: Global) -> Result<Instance, Fail>
    ensures fitting { IfOk result (λ instance. IsFitting instance) }
    ensures five { IfOk result (λ instance. length instance.probes ≡ 5) }
{
    let mut table = ExprTable::make(alloc, 1, 2)?;
    for (a, b, row) in [(2, 3, 5), (3, 4, 6), (5, 4, 7)] {
        assert!(rt; a < table.rows() && b < table.rows());
        assert_eq!(rt; table.xor(Row(a), Row(b))?, Row(row));
    }
    assert_eq!(rt; table.rows(), 8);
    let probes = probes_of(alloc, [Row(3), Row(5), Row(4), Row(6), Row(7)].as_slice())?;
    Ok(Instance {
        notion: Notion::Probing,
        table,
        probes: Sequence::from_vec(probes),
        groups: Sequence::from_vec(vec![in alloc; Some(0)]?),
    })
}

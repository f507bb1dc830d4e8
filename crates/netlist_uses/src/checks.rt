//! Certificates of a refresh: the right ones, and each reason at each kind of line.
ghost use Rattle.std.specs.Prelude.{◌≡◌, ◌≤◌, ◌<◌, ℕ, All, IfOk, length};
ghost use Rattle.expr_table.specs.declared.node.Row.{Row};
ghost use Rattle.expr_table.specs.Instance.{IsFitting, rows_of};

use bit_rows::BitRow;
use cert_check::{Checked, NoMemory, Why, check, entries};
use circuit_types::Model;
use expr_table::{ExprTable, Instance, Notion, ProbeRoots, Row};
use live_rows::LiveRows;
use probe_family::{Closed, Family, Parts};
use sequences::Sequence;
use std::alloc::Global;
use std::process::Abort;
use std::test::Fail;
use tuple_rank::Binomials;

/// A probe for each row.
fn probes_of(alloc: Global, rows: &[Row]) -> Result<Vec<ProbeRoots>, NoMemory>
    ensures long { IfOk result (λ probes. length probes.items ≡ length rows.now) }
    ensures within { IfOk result (λ probes. (n : ℕ) → All (λ (row : Row). row.0 < n) rows.now
        → All (λ probe. All (λ row. row < n) (rows_of probe)) probes.items) }
{
    let mut probes = Vec::new(alloc);
    for row in rows {
        let rows = Sequence::from_vec(vec![in alloc; *row]?);
        probes.push(ProbeRoots {
            rows,
            output: false,
        })?;
    }
    Ok(probes)
}

/// The two-share refresh of a secret x, as (x0 + r, x + x0 + r), with a probe for x0, for x + x0, for r and for each
/// output.
fn refresh(rt: &impl Abort, alloc: Global) -> Result<Instance, Fail>
    ensures fitting { IfOk result (λ instance. IsFitting instance) }
    ensures five { IfOk result (λ instance. length instance.probes ≡ 5) }
{
    let mut table = ExprTable::make(alloc, 1, 2)?;
    for (a, b, row) in [(2, 3, 5), (3, 4, 6), (5, 4, 7)] {
        assert!(rt; a < table.rows() && b < table.rows());
        assert_eq!(rt; table.xor(Row(a), Row(b))?, Row(row));
    }
    assert_eq!(rt; table.rows(), 8);
    let probes = probes_of(alloc, [Row(3), Row(5), Row(4), Row(6), Row(7)].as_slice())?;
    Ok(Instance {
        notion: Notion::Probing,
        table,
        probes: Sequence::from_vec(probes),
        groups: Sequence::from_vec(vec![in alloc; Some(0)]?),
    })
}

/// The certificate of the refresh.
const LINES: [&[u8]; 8] = [
    b"maskverif certificate 1\n",
    b"notion probing order 1 model value\n",
    b"probes 5 rows 8 tuples 5\n",
    b"hull 0 2 3\n",
    b"cuts\n",
    b"hull 1 4\n",
    b"cuts 5 7\n",
    b"end 2\n",
];

/// The certificate with this in place of the lines of these numbers.
fn text(alloc: Global, from: usize, upto: usize, new: &[u8]) -> Result<Vec<u8>, NoMemory> {
    let mut text = Vec::new(alloc);
    let mut number = 0usize;
    for line in LINES {
        number = number.wrapping_add(1);
        if number == from {
            text.extend_from_slice(new)?;
        }
        if number < from || number > upto {
            text.extend_from_slice(line)?;
        }
    }
    Ok(text)
}

/// What a check of the refresh finds.
fn found(rt: &impl Abort, alloc: Global, order: u32, text: &[u8]) -> Result<Checked, Fail>
    requires { (1 ≤ order) × (order ≤ 8) }
{
    let instance = refresh(rt, alloc)?;
    let counts = Binomials::make(alloc, 5, order)?;
    assert!(rt; text.len() <= 1000);
    Ok(check(alloc, &instance, &counts, Model::Value, order, text)?)
}

const fn wrong(line: u32, why: Why) -> Checked {
    Checked::Rejected { line, why }
}

const TWO: Checked = Checked::Accepted { families: 2 };

#[test]
fn checks_each_line(rt: HostRuntime) -> Result<(), Fail> {
    let alloc = rt.alloc();
    for (from, upto, new, want) in [
        (9, 9, b"".as_slice(), TWO),
        (1, 1, b"maskverif certificate 2\n", wrong(1, Why::Header)),
        (
            1,
            1,
            b"maskverif certificate 4294967295\n",
            wrong(1, Why::Header),
        ),
        (1, 1, b"maskverif certificate 01\n", wrong(1, Why::Form)),
        (1, 1, b"", wrong(1, Why::Form)),
        (
            2,
            2,
            b"notion probing order 2 model value\n",
            wrong(2, Why::Header),
        ),
        (
            2,
            2,
            b"notion probing order 9 model value\n",
            wrong(2, Why::Header),
        ),
        (
            2,
            2,
            b"notion ni order 1 model value\n",
            wrong(2, Why::Header),
        ),
        (
            2,
            2,
            b"notion probing order 1 model glitch\n",
            wrong(2, Why::Header),
        ),
        (
            2,
            2,
            b"notion probing order 4294967296 model value\n",
            wrong(2, Why::Form),
        ),
        (2, 2, b"", wrong(2, Why::Form)),
        (3, 3, b"probes 4 rows 8 tuples 5\n", wrong(3, Why::Header)),
        (3, 3, b"probes 5 rows 9 tuples 5\n", wrong(3, Why::Header)),
        (
            3,
            3,
            b"probes 5 rows 8 tuples 18446744073709551615\n",
            wrong(3, Why::Header),
        ),
        (
            3,
            3,
            b"probes 5 rows 8 tuples 18446744073709551616\n",
            wrong(3, Why::Form),
        ),
        (3, 3, b"hull 0\n", wrong(3, Why::Form)),
        (4, 4, b"hull 0 2 5\n", wrong(4, Why::Hull)),
        (4, 4, b"hull 0 2 4294967295\n", wrong(4, Why::Hull)),
        (4, 4, b"hull 0 2 4294967296\n", wrong(4, Why::Form)),
        (4, 4, b"hull\n", wrong(4, Why::Form)),
        (4, 4, b"hull 2 0\n", wrong(4, Why::Form)),
        (4, 4, b"cuts\n", wrong(4, Why::Form)),
        (4, 4, b"end 2\n", wrong(4, Why::Open)),
        (5, 5, b"cuts 8\n", wrong(5, Why::Cuts)),
        (5, 5, b"cuts 5\n", wrong(5, Why::Cuts)),
        (5, 5, b"cuts 4294967296\n", wrong(5, Why::Form)),
        (5, 5, b"hull 1\n", wrong(5, Why::Form)),
        (5, 5, b"end 1\n", wrong(5, Why::Form)),
        (6, 6, b"hull 2\n", wrong(6, Why::Hull)),
        (6, 7, b"", wrong(6, Why::Open)),
        (6, 8, b"end 1\n", wrong(6, Why::Open)),
        (7, 7, b"cuts 7 7\n", wrong(7, Why::Cuts)),
        (7, 7, b"cuts 7\n", wrong(7, Why::Bound)),
        (7, 7, b"cuts\n", wrong(7, Why::Bound)),
        (7, 7, b"cuts 7 5\n", TWO),
        (8, 8, b"end 1\n", wrong(8, Why::Count)),
        (8, 8, b"end 18446744073709551615\n", wrong(8, Why::Count)),
        (8, 8, b"end 18446744073709551616\n", wrong(8, Why::Form)),
        (8, 8, b"hull 0\n", wrong(8, Why::Extra)),
        (8, 8, b"hull\n", wrong(8, Why::Form)),
        (8, 8, b"cuts\n", wrong(8, Why::Form)),
        (8, 8, b"end 2\nend 2\n", wrong(9, Why::Extra)),
        (8, 8, b"end 2\n\n", wrong(9, Why::Extra)),
    ] {
        let text = text(alloc, from, upto, new)?;
        assert_eq!(rt; found(&rt, alloc, 1, &text)?, want, "{from} {upto}");
    }
    Ok(())
}

/// A tuple of two probes needs two of the hull.
#[test]
fn wants_the_take(rt: HostRuntime) -> Result<(), Fail> {
    let alloc = rt.alloc();
    let new = b"notion probing order 2 model value\nprobes 5 rows 8 tuples 15\n";
    for (hull, want) in [
        (b"hull 0\n".as_slice(), wrong(8, Why::Hull)),
        (b"hull 0 2\n", wrong(9, Why::Form)),
    ] {
        let mut text = text(alloc, 2, 3, new)?;
        text.truncate(text.len().saturating_sub(6));
        text.extend_from_slice(hull)?;
        assert_eq!(rt; found(&rt, alloc, 2, &text)?, want);
    }
    Ok(())
}

#[test]
fn rejects_each_prefix(rt: HostRuntime) -> Result<(), Fail> {
    let alloc = rt.alloc();
    let whole = text(alloc, 9, 9, b"")?;
    let mut line = 1u32;
    let mut prefix = Vec::new(alloc);
    for byte in whole.as_slice() {
        assert_eq!(rt; found(&rt, alloc, 1, &prefix)?, wrong(line, Why::Form));
        prefix.push(*byte)?;
        if *byte == b'\n' {
            line = line.wrapping_add(1);
        }
    }
    Ok(())
}

/// A family without parts under the hull of these probes; only the hull tells an entry.
fn closed_under(alloc: Global, members: &[u32]) -> Result<Closed, NoMemory>
    ensures { IfOk result (λ closed. length closed.hull ≡ 5) }
{
    let family = Family {
        size: 1,
        bound: 0,
        parts: Parts::from_vec(Vec::new(alloc)),
    };
    let mut hull = BitRow::make(alloc, 5)?;
    for probe in 0..5 {
        if members.contains(&probe) {
            hull.set(probe);
        }
    }
    Ok(Closed { family, hull })
}

#[test]
fn lists_the_hulls_with_their_least_chains(rt: HostRuntime) -> Result<(), Fail> {
    let alloc = rt.alloc();
    let instance = refresh(&rt, alloc)?;
    let mut live = LiveRows::make(alloc, instance.table.rows())?;
    let closed = [
        closed_under(alloc, [0, 2, 3].as_slice())?,
        closed_under(alloc, [1, 4].as_slice())?,
    ];
    let entries = entries(alloc, &instance, &mut live, closed.as_slice())?;
    assert_eq!(rt; entries.len(), 2);
    assert_eq!(rt; entries[0].hull.as_slice(), [0, 2, 3].as_slice());
    assert_eq!(rt; entries[0].cuts.as_slice(), [].as_slice());
    assert_eq!(rt; entries[1].hull.as_slice(), [1, 4].as_slice());
    assert_eq!(rt; entries[1].cuts.as_slice(), [5, 7].as_slice());
    Ok(())
}

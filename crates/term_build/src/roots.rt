//! The roots of probes.
ghost use Rattle.std.specs.Prelude.{◌≡◌, ◌<◌, All, IfOk, length};
ghost use Rattle.std.specs.List.{AllZip};
ghost use Rattle.circuit_types.specs.declared.probes.Probe.{Probe as AnyProbe};
ghost use Rattle.term_build.specs.Building.{AreRootsIn};

use crate::cycle_rows::CycleRows;
use circuit_types::{NoMemory, Probe};
use expr_table::{ProbeRoots, Row};
use sequences::Sequence;
use std::alloc::Global;

/// The rows of what a probe sees, in its cycle.
fn roots_of(alloc: Global, rows: &[CycleRows], probe: &Probe) -> Result<ProbeRoots, NoMemory>
    requires { probe.now.cycle < length rows.now }
    ensures { IfOk result (λ roots. AreRootsIn rows.now roots probe.now) }
{
    let cycle = &rows[probe.cycle as usize];
    let mut roots = Vec::new(alloc);
    for source in probe.seen.as_slice() {
        roots.push(cycle.row(*source))?;
    }
    Ok(ProbeRoots {
        rows: Sequence::from_vec(roots),
        output: probe.output,
    })
}

/// The roots of all probes, in order.
pub fn probe_roots(
    alloc: Global,
    rows: &[CycleRows],
    probes: &[Probe],
) -> Result<Vec<ProbeRoots>, NoMemory>
    requires { All (λ (p : AnyProbe). p.cycle < length rows.now) probes.now }
    ensures { IfOk result (λ roots. AllZip (AreRootsIn rows.now) roots.items probes.now) }
{
    let mut roots = Vec::new(alloc);
    for probe in probes {
        roots.push(roots_of(alloc, rows, probe)?)?;
    }
    Ok(roots)
}

//! The sets of probes that the roots take from.
ghost use Rattle.std.specs.Prelude.{◌≡◌, ◌≤◌, IfOk, length, map, replicate, true};
ghost use Rattle.expr_table.specs.declared.instance.ProbeRoots.{ProbeRoots};
ghost use Rattle.probe_family.specs.Roots.{sets_of};

use crate::NoMemory;
use bit_rows::BitRow;
use expr_table::{Instance, ProbeRoots};
use std::alloc::Global;

/// The sets of probes that roots are made of: all probes, those of output shares, and the others.
#[derive(Drop)]
pub struct ProbeSets {
    pub all: BitRow,
    pub internal: BitRow,
    pub output: BitRow,
}

/// The set of all numbers below `n`.
fn full_set(alloc: Global, n: u32) -> Result<BitRow, NoMemory>
    ensures { IfOk result (λ set. set ≡ replicate n true) }
{
    let mut set = BitRow::make(alloc, n)?;
    for p in 0..n {
        set.set(p);
    }
    Ok(set)
}

/// The set of the probes of output shares.
fn output_probes(alloc: Global, probes: &[ProbeRoots]) -> Result<BitRow, NoMemory>
    requires { length probes.now ≤ 65535 }
    ensures { IfOk result (λ set. set ≡ map (λ (probe : ProbeRoots). probe.output) probes.now) }
{
    let mut set = BitRow::make(alloc, probes.len() as u32)?;
    for (p, probe) in probes.iter().enumerate() {
        if probe.output {
            set.set(p as u32);
        }
    }
    Ok(set)
}

/// The sets of an instance's probes.
pub fn probe_sets(alloc: Global, instance: &Instance) -> Result<ProbeSets, NoMemory>
    requires { length instance.now.probes ≤ 65535 }
    ensures { IfOk result (λ sets. sets ≡ sets_of instance.now) }
{
    let probes = instance.probes.as_slice();
    let all = full_set(alloc, probes.len() as u32)?;
    let output = output_probes(alloc, probes)?;
    let mut internal = all.copy()?;
    internal.minus_from(&output);
    Ok(ProbeSets {
        all,
        internal,
        output,
    })
}

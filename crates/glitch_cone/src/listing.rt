//! The list of all probes.
ghost use Rattle.std.specs.Prelude.{◌≡◌, ◌≤◌, ◌<◌, ◌+◌, ◌==◌, ◌++◌, All, IfOk, OnOk, length, map};
ghost use Rattle.std.specs.List.{flat_map, range_with_len};
ghost use Rattle.circuit_types.specs.DataSources.{IsWithin};
ghost use Rattle.circuit_types.specs.Probes.{name_bit};
ghost use Rattle.glitch_cone.specs.Numbers.{source_at};
ghost use Rattle.glitch_cone.specs.Wires.{probe_of, cycle_probes, AreWires};

use circuit_types::{Nets, NoMemory, Probe, Source};
use sequences::Sequence;
use std::alloc::Global;

/// What is probed in each cycle, by the numbers of the sources.
#[derive(Drop)]
pub struct Wires {
    pub sources: Vec<Source>,
    /// Whether a share of an output ends at the source.
    pub outputs: Vec<bool>,
    /// The numbers of the sources that a probe on it sees.
    pub cones: Vec<Sequence<u32>>,
}

impl Wires {
    /// The probes of so many cycles, cycle by cycle.
    pub fn probes(&self, alloc: Global, nets: &Nets, cycles: u32) -> Result<Vec<Probe>, NoMemory>
        requires { AreWires nets.now self.now }
        ensures { IfOk result (λ list. list.items
            ≡ flat_map (λ c. cycle_probes self.now nets.now c (c + 1 == cycles)) (range_with_len 0 cycles)) }
    {
        let mut list = Vec::new(alloc);
        for cycle in 0..cycles {
            self.list_cycle(alloc, nets, cycle, cycle + 1 == cycles, &mut list)?;
        }
        Ok(list)
    }

    fn list_cycle(
        &self,
        alloc: Global,
        nets: &Nets,
        cycle: u32,
        is_last: bool,
        list: &mut Vec<Probe>,
    ) -> Result<(), NoMemory>
        requires { AreWires nets.now self.now }
        ensures { OnOk result (list.new.items ≡ list.old.items ++ cycle_probes self.now nets.now cycle is_last) }
    {
        for number in 0..self.sources.len() {
            list.push(self.probe(alloc, nets, cycle, is_last, number)?)?;
        }
        Ok(())
    }

    fn probe(
        &self,
        alloc: Global,
        nets: &Nets,
        cycle: u32,
        is_last: bool,
        number: usize,
    ) -> Result<Probe, NoMemory>
        requires wires { AreWires nets.now self.now }
        requires within { number < length self.now.sources.items }
        ensures { IfOk result (λ probe. probe ≡ probe_of self.now nets.now cycle is_last number) }
    {
        let source = self.sources[number];
        Ok(Probe {
            source,
            cycle,
            name_bit: name_bit(nets, source),
            output: is_last && self.outputs[number],
            seen: sources_at(alloc, &self.sources, self.cones[number].as_slice())?,
        })
    }
}

/// The sources of these numbers.
fn sources_at(
    alloc: Global,
    sources: &[Source],
    numbers: &[u32],
) -> Result<Sequence<Source>, NoMemory>
    requires { All (λ n. n < length sources.now) numbers.now }
    ensures { IfOk result (λ list. list ≡ map (source_at sources.now) numbers.now) }
{
    let mut list = Vec::new(alloc);
    for number in numbers {
        list.push(sources[*number as usize])?;
    }
    Ok(Sequence::from_vec(list))
}

/// The bit that names the source.
fn name_bit(nets: &Nets, source: Source) -> u32
    requires { IsWithin nets.now source }
    ensures { result ≡ name_bit nets.now source }
{
    match source {
        Source::Input(bit) => bit,
        Source::Cell(cell) => nets.cells.as_slice()[cell as usize].output,
        Source::Zero | Source::One | Source::Unknown | Source::Missing => 0,
    }
}

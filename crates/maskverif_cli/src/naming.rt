//! The names of probes, as reports have them.

ghost use Rattle.std.specs.Prelude.{◌≡◌, ◌<◌, ◌++◌, All, IfOk, codes, length, map};
ghost use Rattle.net_build.specs.Names.{printed_name};
ghost use Rattle.accepted_netlist.specs.Known.{HasBitsWithin};
ghost use Rattle.maskverif_cli.specs.Report.{line, probe_lines};
ghost use Rattle.maskverif_cli.specs.Kept.{name_of_probe};

use accepted_netlist::Accepted;
use circuit_types::Nets;
use net_build::name_of;
use sequences::NoMemory;
use std::alloc::Global;
use tuple_rank::Tuple;

/// The printed name of a bit; a bit that the netlist lacks has none.
fn printed_name(alloc: Global, nets: &Nets, bit: u32) -> Result<Vec<u8>, NoMemory>
    requires { HasBitsWithin nets.now }
    ensures { IfOk result (λ name. name.items ≡ printed_name nets.now.wires bit) }
{
    if bit as usize >= nets.sources.as_slice().len() {
        return Ok(Vec::new(alloc));
    }
    name_of(alloc, nets, bit)
}

/// Adds the line of a probe that the bit names.
fn add_line(alloc: Global, lines: &mut Vec<u8>, nets: &Nets, bit: u32) -> Result<(), NoMemory>
    requires { HasBitsWithin nets.now }
    ensures { let added = line (codes "probe " ++ printed_name nets.now.wires bit) in
        IfOk result (λ _. lines.new.items ≡ lines.old.items ++ added) }
{
    let name = printed_name(alloc, nets, bit)?;
    lines.extend_from_slice(b"probe ")?;
    lines.extend_from_slice(name.as_slice())?;
    lines.push(b'\n')?;
    Ok(())
}

/// A line for each probe of a tuple, with its name.
pub fn probe_lines(alloc: Global, netlist: &Accepted, tuple: &Tuple) -> Result<Vec<u8>, NoMemory>
    requires named { HasBitsWithin netlist.now.circuit.nets }
    requires within { All (λ probe. probe < length netlist.now.probes.list) tuple.now.items }
    ensures { IfOk result (λ lines. lines.items ≡ probe_lines (map (name_of_probe netlist.now) tuple.now.items)) }
{
    let probes = netlist.probes.list.as_slice();
    let numbers = tuple.as_slice();
    let mut lines = Vec::new(alloc);
    for probe in numbers {
        let bit = probes[*probe as usize].name_bit;
        add_line(alloc, &mut lines, &netlist.circuit.nets, bit)?;
    }
    Ok(lines)
}

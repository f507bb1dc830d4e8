//! Where the bits of a module's wires end.

ghost use Rattle.std.specs.Prelude.{◌≡◌, ◌≤◌, [], All, length, IfOk, IfErr, Contains};
ghost use Rattle.circuit_types.specs.Due.{Never};
ghost use Rattle.circuit_types.specs.Items.{cells, kept_cells, bit_count};
ghost use Rattle.circuit_types.specs.Drives.{drives, redriven};
ghost use Rattle.circuit_types.specs.Nets.{most_bits, most_cells};
ghost use Rattle.net_build.specs.Drives.{IsTwice};
ghost use Rattle.net_build.specs.Good.{AreWithin, IsGoodItem};
ghost use Rattle.net_build.specs.Ports.{KnowsPorts};
ghost use Rattle.net_build.specs.Sources.{AreSources};
ghost use Rattle.net_build.specs.Stops.{IfRefused};

use crate::drives::drivers_of;
use crate::ports::Ports;
use crate::resolve::sources_of;
use crate::wires::Wires;
use circuit_types::{Item, Source, Stop};
use std::alloc::Global;

/// Where each bit ends, or the refusal where a bit is driven that may not be.
pub fn net_sources(
    alloc: Global,
    wires: &Wires<'_>,
    items: &[Item<'_>],
    ports: &Ports,
) -> Result<Vec<Source>, Stop>
    requires ports { KnowsPorts wires.now.list.now (kept_cells items.now) ports.now }
    requires good { All (IsGoodItem wires.now.list.now) items.now }
    requires within { AreWithin wires.now.list.now }
    requires few_bits { bit_count wires.now.list.now ≤ most_bits }
    requires few_cells { length (cells items.now) ≤ most_cells }
    ensures sources { IfOk result (λ v. AreSources wires.now.list.now (drives wires.now.list.now items.now) v.items) }
    ensures once { IfOk result (λ v. Never (Contains (redriven wires.now.list.now [] (drives wires.now.list.now items.now)))) }
    ensures twice { IfErr result (λ stop. IfRefused stop (IsTwice wires.now.list.now (drives wires.now.list.now items.now))) }
{
    let drivers = drivers_of(alloc, wires, items, ports)?;
    Ok(sources_of(alloc, drivers.as_slice())?)
}

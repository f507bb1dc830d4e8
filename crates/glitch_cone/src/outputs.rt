//! Which probed sources are shares of outputs.
ghost use Rattle.std.specs.Prelude.{◌≡◌, ◌<◌, ℕ, All, IfOk, List, false, length, slice_index};
ghost use Rattle.circuit_types.specs.DataSources.{IsWired};
ghost use Rattle.circuit_types.specs.InputBits.{FitsNets};
ghost use Rattle.circuit_types.specs.Probes.{is_output_share};
ghost use Rattle.std.specs.Prelude.{slice_index_or};
ghost use Rattle.glitch_cone.specs.Numbers.{source_at};
ghost use Rattle.glitch_cone.specs.Places.{ShowsPlaces};

use crate::places::Places;
use circuit_types::{Nets, NoMemory, Roles, Source, source_of};
use std::alloc::Global;

/// By the number of a probed source, whether a share of an output ends there.
pub fn output_flags(
    alloc: Global,
    nets: &Nets,
    roles: &Roles,
    sources: &[Source],
    places: &Places,
) -> Result<Vec<bool>, NoMemory>
    requires wired { IsWired nets.now }
    requires roles { FitsNets roles.now nets.now }
    requires places { ShowsPlaces nets.now sources.now (length sources.now) places.now }
    ensures len { IfOk result (λ flags. length flags.items ≡ length sources.now) }
    ensures each { IfOk result (λ flags. (n : ℕ) → n < length sources.now
        → slice_index_or flags.items n false ≡ is_output_share roles.now nets.now (source_at sources.now n)) }
{
    let mut flags = vec![in alloc; false; sources.len()]?;
    for output in roles.outputs.as_slice() {
        if let Some(number) = places.of(source_of(nets, output.bit)) {
            flags[number as usize] = true;
        }
    }
    Ok(flags)
}

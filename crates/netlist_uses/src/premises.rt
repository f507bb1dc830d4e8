//! What the calls require, tested: a `true` shows it to the prover.
ghost use Rattle.std.specs.Prelude.{◌≢◌, ◌<◌, ◌≤◌, All, IsTrue, length};
ghost use Rattle.std.specs.List.{AllPairs};
ghost use Rattle.circuit_types.specs.DataSources.{pin_sources, IsWithin, IsWired};
ghost use Rattle.circuit_types.specs.InputBits.{FitsNets};
ghost use Rattle.circuit_types.specs.Order.{IsTiming};
ghost use Rattle.circuit_types.specs.declared.roles.InputRole.{InputRole as AnyInput};
ghost use Rattle.circuit_types.specs.declared.roles.OutputShare.{OutputShare as AnyOutput};

use circuit_types::{InputRole, NetCell, Nets, OutputShare, Roles, Source, Timing};

/// Each source that is named is one of the netlist's, and there are not too many.
pub fn is_wired(nets: &Nets) -> bool
    ensures { IsTrue result → IsWired nets.now }
{
    if nets.sources.as_slice().len() > 1_048_576 {
        return false;
    }
    if nets.cells.as_slice().len() > 1_048_576 {
        return false;
    }
    if !ends_within(nets) {
        return false;
    }
    all_pins_within(nets)
}

fn is_within(nets: &Nets, source: Source) -> bool
    ensures { IsTrue result → IsWithin nets.now source }
{
    match source {
        Source::Input(bit) => (bit as usize) < nets.sources.as_slice().len(),
        Source::Cell(cell) => (cell as usize) < nets.cells.as_slice().len(),
        Source::Zero | Source::One | Source::Unknown | Source::Missing => true,
    }
}

fn ends_within(nets: &Nets) -> bool
    ensures { IsTrue result → All (IsWithin nets.now) nets.now.sources }
{
    for source in nets.sources.as_slice() {
        if !is_within(nets, *source) {
            return false;
        }
    }
    true
}

fn all_pins_within(nets: &Nets) -> bool
    ensures { IsTrue result → All (λ cell. All (IsWithin nets.now) (pin_sources cell)) nets.now.cells }
{
    for cell in nets.cells.as_slice() {
        if !pins_within(nets, cell) {
            return false;
        }
    }
    true
}

fn pins_within(nets: &Nets, cell: &NetCell) -> bool
    ensures { IsTrue result → All (IsWithin nets.now) (pin_sources cell.now) }
{
    for pin in cell.pins.as_slice() {
        if !is_within(nets, pin.source) {
            return false;
        }
    }
    true
}

/// Each bit that has a role is one of the netlist's, and the bits of the inputs ascend.
pub fn fits(roles: &Roles, nets: &Nets) -> bool
    ensures { IsTrue result → FitsNets roles.now nets.now }
{
    let count = nets.sources.as_slice().len();
    if !inputs_fit(roles.inputs.as_slice(), count) {
        return false;
    }
    outputs_fit(roles.outputs.as_slice(), count)
}

fn inputs_fit(inputs: &[InputRole], count: usize) -> bool
    ensures within { IsTrue result → All (λ (i : AnyInput). i.bit < count) inputs.now }
    ensures one_role { IsTrue result → AllPairs (λ (i j : AnyInput). i.bit ≢ j.bit) inputs.now }
{
    let mut next = 0usize;
    for input in inputs {
        let bit = input.bit as usize;
        if bit < next {
            return false;
        }
        if bit >= count {
            return false;
        }
        next = bit + 1;
    }
    true
}

fn outputs_fit(outputs: &[OutputShare], count: usize) -> bool
    ensures { IsTrue result → All (λ (o : AnyOutput). o.bit < count) outputs.now }
{
    for output in outputs {
        if output.bit as usize >= count {
            return false;
        }
    }
    true
}

/// The circuit settles, or runs 1 to 16 cycles.
pub fn is_timing(timing: Timing) -> bool
    ensures { IsTrue result → IsTiming timing }
{
    match timing {
        Timing::Settled => true,
        Timing::Cycles(cycles) => 1 <= cycles && cycles <= 16,
    }
}

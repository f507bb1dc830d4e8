//! What is probed in each cycle.
ghost use Rattle.std.specs.Prelude.{◌≡◌, ◌≤◌, IfOk, length};
ghost use Rattle.circuit_types.specs.InputBits.{is_probed};
ghost use Rattle.circuit_types.specs.Probes.{probed_inputs, probed_sources};

use circuit_types::{InputRole, Nets, NoMemory, Role, Roles, Source};
use std::alloc::Global;

/// The input bits other than the clock and held ones in port order, then the cells in file order.
pub fn probed_sources(alloc: Global, nets: &Nets, roles: &Roles) -> Result<Vec<Source>, NoMemory>
    requires { length nets.now.cells ≤ 1048576 }
    ensures { IfOk result (λ sources. sources.items ≡ probed_sources roles.now nets.now) }
{
    let mut sources = probed_inputs(alloc, roles.inputs.as_slice())?;
    for cell in 0..nets.cells.as_slice().len() {
        sources.push(Source::Cell(cell as u32))?;
    }
    Ok(sources)
}

fn probed_inputs(alloc: Global, inputs: &[InputRole]) -> Result<Vec<Source>, NoMemory>
    ensures { IfOk result (λ sources. sources.items ≡ probed_inputs inputs.now) }
{
    let mut sources = Vec::new(alloc);
    for input in inputs {
        if is_probed(input.role) {
            sources.push(Source::Input(input.bit))?;
        }
    }
    Ok(sources)
}

fn is_probed(role: Role) -> bool
    ensures { result ≡ is_probed role }
{
    !matches!(role, Role::Clock | Role::Held(_))
}

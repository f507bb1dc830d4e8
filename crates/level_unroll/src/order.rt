//! The order in which cells are evaluated.
ghost use Rattle.std.specs.Prelude.{◌≡◌, IfOk};
ghost use Rattle.circuit_types.specs.DataSources.{IsWired};
ghost use Rattle.circuit_types.specs.Order.{order};

use crate::queue::Queue;
use circuit_types::{Nets, NoMemory, Timing};
use std::alloc::Global;

/// The list of cells in which each next one is the one with the least number among those that are not yet listed
/// and whose data sources are listed, constants or inputs.
pub fn order(alloc: Global, nets: &Nets, timing: Timing) -> Result<Vec<u32>, NoMemory>
    requires { IsWired nets.now }
    ensures { IfOk result (λ cells. cells.items ≡ order timing nets.now) }
{
    let mut queue = Queue::new(alloc, nets, timing)?;
    let mut order = Vec::new(alloc);
    for _turn in 0..nets.cells.as_slice().len() {
        let Some(cell) = queue.next(nets, timing)? else {
            return Ok(order);
        };
        order.push(cell)?;
    }
    Ok(order)
}

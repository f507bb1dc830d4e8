//! A netlist becomes a circuit, or is refused.
ghost use Rattle.std.specs.Prelude.{◌≡◌, IfOk, MatchResult};
ghost use Rattle.circuit_types.specs.Causes.{level_causes, IsRefusal};
ghost use Rattle.circuit_types.specs.DataSources.{IsWired};
ghost use Rattle.circuit_types.specs.Due.{IsClear, IsDue};
ghost use Rattle.circuit_types.specs.InputBits.{FitsNets};
ghost use Rattle.circuit_types.specs.Order.{order as order_of, IsTiming, IsLevelled};

use crate::causes::{enable_line, reset_line, unlisted_line};
use crate::held::Held;
use crate::order::order;
use circuit_types::{Circuit, Nets, Refusal, Roles, Stop, Timing};
use sequences::Sequence;
use std::alloc::Global;

/// Puts the cells of a netlist in the order in which they are evaluated: each next cell is the one with the least number among
/// those that are not yet listed and whose data sources are listed, constants or inputs.
///
/// Refused, in this order and with the least line: gates that drive one another in a circle; registers whose values depend on
/// themselves, where all is to settle; a reset that is not held inactive; an enable that is not held active. A refusal
/// drops the nets.
pub fn levels(alloc: Global, nets: Nets, roles: &Roles, timing: Timing) -> Result<Circuit, Stop>
    requires wired { IsWired nets }
    requires roles { FitsNets roles.now nets }
    requires timing { IsTiming timing }
    ensures circuit { IfOk result (λ c. c ≡ record { nets = nets; order = order_of timing nets; timing = timing }) }
    ensures levelled { IfOk result IsLevelled }
    ensures cause { MatchResult result
        (λ c. IsClear (level_causes roles.now timing nets))
        (IsRefusal (IsDue (level_causes roles.now timing nets))) }
{
    let levelled = order(alloc, &nets, Timing::Cycles(1))?;
    if let Some(line) = unlisted_line(alloc, &nets, &levelled)? {
        return Err(Stop::Refused(Refusal::GateLoop { line }));
    }
    let settled = order(alloc, &nets, timing)?;
    if let Some(line) = unlisted_line(alloc, &nets, &settled)? {
        return Err(Stop::Refused(Refusal::RegisterLoop { line }));
    }
    let held = Held::new(alloc, &nets, roles, &levelled)?;
    if let Some(line) = reset_line(&nets, &held) {
        return Err(Stop::Refused(Refusal::ResetNotHeld { line }));
    }
    if let Some(line) = enable_line(&nets, &held) {
        return Err(Stop::Refused(Refusal::EnableNotHeld { line }));
    }
    Ok(Circuit {
        nets,
        order: Sequence::from_vec(settled),
        timing,
    })
}

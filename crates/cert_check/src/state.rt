//! The state of a check.
ghost use Rattle.std.specs.Prelude.{◌≡◌, ◌≤◌, ◌++◌, IfOk, OnOk, reverse};
ghost use Rattle.expr_table.specs.Instance.{IsFitting};
ghost use Rattle.cert_check.specs.Sound.{IsSound, stage_of};
ghost use Rattle.cert_check.specs.Stages.{first_stage};

use crate::due::Due;
use expr_table::Instance;
use live_rows::LiveRows;
use probe_family::{Family, roots};
use sequences::NoMemory;
use std::alloc::Global;

/// How far a certificate is checked.
#[derive(Drop)]
pub struct State {
    pub due: Due,
    /// The families that wait, the next one on top.
    pub waiting: Vec<Family>,
    /// How many families were closed.
    pub closed: u64,
    /// No row is live between two calls.
    pub live: LiveRows,
}

/// Puts families on a stack, the first one on top.
pub fn stack_up(stack: &mut Vec<Family>, mut families: Vec<Family>) -> Result<(), NoMemory>
    ensures { OnOk result (reverse stack.new.items ≡ families.items ++ reverse stack.old.items) }
{
    families.reverse();
    stack.append(&mut families)
}

impl State {
    /// No line is read, and the families of all tuples of at most `order` probes wait.
    pub fn begin(alloc: Global, instance: &Instance, order: u32) -> Result<State, NoMemory>
        requires fitting { IsFitting instance.now }
        requires few { order ≤ 8 }
        ensures stage { IfOk result (λ state. stage_of state ≡ first_stage instance.now order) }
        ensures sound { IfOk result (λ state. IsSound instance.now state) }
        ensures none { IfOk result (λ state. state.closed ≡ 0) }
    {
        let live = LiveRows::make(alloc, instance.table.rows())?;
        let roots = roots(alloc, instance, order)?;
        let mut waiting = Vec::new(alloc);
        stack_up(&mut waiting, roots)?;
        Ok(State {
            due: Due::Title,
            waiting,
            closed: 0,
            live,
        })
    }
}

//! The least line of each cause of a refusal.
ghost use Rattle.std.specs.Prelude.{◌≡◌, ◌<◌, ℕ, not, All, IfOk, length};
ghost use Rattle.circuit_types.specs.Causes.{AtCell};
ghost use Rattle.circuit_types.specs.DataSources.{cell_at, pin_sources, IsWired};
ghost use Rattle.circuit_types.specs.Held.{is_at, has_open_reset, has_open_enable};
ghost use Rattle.circuit_types.specs.Order.{has};
ghost use Rattle.level_unroll.specs.Lines.{IsLeastLine, lesser_line};
ghost use Rattle.level_unroll.specs.Queue.{is_in};
ghost use Rattle.level_unroll.specs.Shown.{kept_value, IsKept};

use crate::held::Held;
use cell_kinds::CellKind;
use circuit_types::{NetCell, Nets, NoMemory};
use std::alloc::Global;

/// The least line of a cell that the order does not list.
pub fn unlisted_line(alloc: Global, nets: &Nets, order: &[u32]) -> Result<Option<u32>, NoMemory>
    requires { All (λ k. k < length nets.now.cells) order.now }
    ensures { IfOk result (IsLeastLine (AtCell nets.now (λ k. not (has order.now k)))) }
{
    let listed = marks(alloc, nets.cells.as_slice().len(), order)?;
    Ok(unmarked_line(nets, &listed))
}

/// Flags of the numbers in the list.
fn marks(alloc: Global, count: usize, numbers: &[u32]) -> Result<Vec<bool>, NoMemory>
    requires { All (λ k. k < count) numbers.now }
    ensures len { IfOk result (λ flags. length flags.items ≡ count) }
    ensures marks { IfOk result (λ flags. (k : ℕ) → is_in flags.items k ≡ has numbers.now k) }
{
    let mut flags = vec![in alloc; false; count]?;
    for number in numbers {
        flags[*number as usize] = true;
    }
    Ok(flags)
}

fn unmarked_line(nets: &Nets, listed: &[bool]) -> Option<u32>
    requires { length listed.now ≡ length nets.now.cells }
    ensures { IsLeastLine (AtCell nets.now (λ k. not (is_in listed.now k))) result }
{
    let mut least = None;
    for (i, cell) in nets.cells.as_slice().iter().enumerate() {
        if !listed[i] {
            least = Some(lesser(least, cell.line));
        }
    }
    least
}

/// The least line of a flip-flop whose reset is not held inactive.
pub fn reset_line(nets: &Nets, held: &Held) -> Option<u32>
    requires { All (λ cell. All (IsKept held.now) (pin_sources cell)) nets.now.cells }
    ensures { IsLeastLine (AtCell nets.now (λ k.
        has_open_reset (kept_value held.now) (cell_at nets.now k) (cell_at nets.now k).kind)) result }
{
    let mut least = None;
    for cell in nets.cells.as_slice() {
        if has_open_reset(cell, held) {
            least = Some(lesser(least, cell.line));
        }
    }
    least
}

/// The least line of a flip-flop whose enable is not held active.
pub fn enable_line(nets: &Nets, held: &Held) -> Option<u32>
    requires { All (λ cell. All (IsKept held.now) (pin_sources cell)) nets.now.cells }
    ensures { IsLeastLine (AtCell nets.now (λ k.
        has_open_enable (kept_value held.now) (cell_at nets.now k) (cell_at nets.now k).kind)) result }
{
    let mut least = None;
    for cell in nets.cells.as_slice() {
        if has_open_enable(cell, held) {
            least = Some(lesser(least, cell.line));
        }
    }
    least
}

fn lesser(least: Option<u32>, line: u32) -> u32
    ensures { result ≡ lesser_line least line }
{
    match least {
        Some(other) => line.min(other),
        None => line,
    }
}

fn has_open_reset(cell: &NetCell, held: &Held) -> bool
    requires { All (IsKept held.now) (pin_sources cell.now) }
    ensures { result ≡ has_open_reset (kept_value held.now) cell.now cell.now.kind }
{
    match cell.kind {
        CellKind::Gate(_) => false,
        CellKind::Flop(flop) => match flop.reset {
            Some(reset) => !is_at(!reset.high, held.of(cell.port_source(b'R'))),
            None => false,
        },
    }
}

fn has_open_enable(cell: &NetCell, held: &Held) -> bool
    requires { All (IsKept held.now) (pin_sources cell.now) }
    ensures { result ≡ has_open_enable (kept_value held.now) cell.now cell.now.kind }
{
    match cell.kind {
        CellKind::Gate(_) => false,
        CellKind::Flop(flop) => match flop.enable {
            Some(high) => !is_at(high, held.of(cell.port_source(b'E'))),
            None => false,
        },
    }
}

/// Whether the value is there, and is this one.
fn is_at(level: bool, value: Option<bool>) -> bool
    ensures { result ≡ is_at level value }
{
    match value {
        Some(value) => value == level,
        None => false,
    }
}

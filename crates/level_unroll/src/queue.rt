//! The cells that may come next, least number first.
ghost use Rattle.std.specs.Prelude.{◌≡◌, ◌+◌, ◌<◌, ℕ, ◌==◌, ◌&&◌, not, Bool, List, [], ◌∷◌, ◌++◌, true, false, All, IfOk, IfSome, OnOk, MatchOption, IsFalse, length, map, slice_index, slice_set, replicate};
ghost use Rattle.circuit_types.specs.DataSources.{data_sources, pin_sources, IsWired};
ghost use Rattle.circuit_types.specs.Order.{has, next_cell};
ghost use Rattle.circuit_types.specs.declared.nets.Pin.{Pin as AnyPin};
ghost use Rattle.level_unroll.specs.Queue.{is_in, is_listed, HasWaits, Awaits, IsBelow, IsQueue, AreWoken};

use cell_kinds::CellKind;
use circuit_types::{NetCell, Nets, NoMemory, Pin, Source, Timing};
use std::alloc::Global;
use std::collections::BTreeSet;

/// The cells of a netlist while they are put in order.
#[derive(Drop)]
pub struct Queue {
    /// By number, whether the cell is in the order.
    listed: Vec<bool>,
    /// The cells that may be next.
    ready: BTreeSet<u32>,
    /// By number, the number of the latest wait for this cell, or 0.
    latest: Vec<usize>,
    /// The waits in the order in which they began, over and done with or not. A cell waits for one cell at a time, which is
    /// not listed.
    waits: Vec<Wait>,
}

/// A cell that waits for another one.
#[derive(Clone, Copy)]
struct Wait {
    cell: u32,
    /// The number of the wait for the same cell that began before this one, counted from 1 over all waits, or 0.
    earlier: usize,
}

impl Queue {
    /// No cell is in the order yet.
    pub fn new(alloc: Global, nets: &Nets, timing: Timing) -> Result<Queue, NoMemory>
        requires { IsWired nets.now }
        ensures none_listed { IfOk result (λ q. q.listed.items ≡ replicate (length nets.now.cells) false) }
        ensures queue { IfOk result (IsQueue (data_sources timing) nets.now (λ k. false)) }
    {
        let count = nets.cells.as_slice().len();
        let mut queue = Queue::empty(alloc, count)?;
        for cell in 0..count {
            queue.place(nets, timing, cell as u32)?;
        }
        Ok(queue)
    }

    /// Of so many cells none is in the order, may be next or waits.
    fn empty(alloc: Global, count: usize) -> Result<Queue, NoMemory>
        ensures listed { IfOk result (λ q. q.listed.items ≡ replicate count false) }
        ensures ready { IfOk result (λ q. q.ready.keys ≡ []) }
        ensures latest { IfOk result (λ q. q.latest.items ≡ replicate count 0) }
        ensures waits { IfOk result (λ q. q.waits.items ≡ []) }
    {
        let listed = vec![in alloc; false; count]?;
        let latest = vec![in alloc; 0; count]?;
        Ok(Queue {
            listed,
            ready: BTreeSet::new(alloc),
            latest,
            waits: Vec::new(alloc),
        })
    }

    /// The cell may be next, or it waits for one that is not listed.
    fn place(&mut self, nets: &Nets, timing: Timing, cell: u32) -> Result<(), NoMemory>
        requires wired { IsWired nets.now }
        requires flags { length self.old.listed.items ≡ length nets.now.cells }
        requires numbers { length self.old.latest.items ≡ length nets.now.cells }
        requires within { cell < length nets.now.cells }
        requires unlisted { IsFalse (is_listed self.old cell) }
        ensures flags { self.new.listed ≡ self.old.listed }
        ensures numbers { length self.new.latest.items ≡ length nets.now.cells }
        ensures waits { OnOk result (HasWaits self.old self.new) }
        ensures placed { OnOk result ((late : ℕ → Bool) → IsQueue (data_sources timing) nets.now late self.old
            → IsQueue (data_sources timing) nets.now (λ k. late k && not (k == cell)) self.new) }
    {
        match awaited(&nets.cells.as_slice()[cell as usize], timing, &self.listed) {
            Some(other) => self.put_off(cell, other)?,
            None => {
                let _ = self.ready.insert(cell)?;
            }
        }
        Ok(())
    }

    /// From now on the cell waits for the other one.
    fn put_off(&mut self, cell: u32, other: u32) -> Result<(), NoMemory>
        requires { other < length self.old.latest.items }
        ensures flags { self.new.listed ≡ self.old.listed }
        ensures ready { self.new.ready ≡ self.old.ready }
        ensures numbers { length self.new.latest.items ≡ length self.old.latest.items }
        ensures latest { OnOk result (self.new.latest.items
            ≡ slice_set self.old.latest.items other (length self.old.waits.items + 1)) }
        ensures waits { OnOk result (self.new.waits.items
            ≡ self.old.waits.items ++ record { cell = cell; earlier = slice_index self.old.latest.items other } ∷ []) }
    {
        let earlier = self.latest[other as usize];
        self.waits.push(Wait { cell, earlier })?;
        self.latest[other as usize] = self.waits.len();
        Ok(())
    }

    /// Takes the next cell into the order, or tells that there is none.
    pub fn next(&mut self, nets: &Nets, timing: Timing) -> Result<Option<u32>, NoMemory>
        requires wired { IsWired nets.now }
        requires queue { IsQueue (data_sources timing) nets.now (λ k. false) self.old }
        ensures next { IfOk result (λ next. (listed : List ℕ) → ((k : ℕ) → is_listed self.old k ≡ has listed k)
            → next ≡ next_cell (data_sources timing) nets.now listed) }
        ensures listed { IfOk result (λ next. MatchOption next (self.new.listed ≡ self.old.listed)
            (λ k. (k < length nets.now.cells) × (self.new.listed.items ≡ slice_set self.old.listed.items k true))) }
        ensures queue { OnOk result (IsQueue (data_sources timing) nets.now (λ k. false) self.new) }
    {
        let Some(cell) = self.ready.pop_first() else {
            return Ok(None);
        };
        self.listed[cell as usize] = true;
        let latest = self.latest[cell as usize];
        self.place_all(nets, timing, latest)?;
        Ok(Some(cell))
    }

    /// Places the cells whose waits are over: that of the wait with this number, and those of the waits that it is linked to.
    fn place_all(&mut self, nets: &Nets, timing: Timing, latest: usize) -> Result<(), NoMemory>
        requires wired { IsWired nets.now }
        requires woken { AreWoken (data_sources timing) nets.now self.old latest }
        ensures flags { self.new.listed ≡ self.old.listed }
        ensures queue { OnOk result (IsQueue (data_sources timing) nets.now (λ k. false) self.new) }
    {
        let mut number = latest;
        while number != 0 {
            let wait = self.waits[number - 1];
            self.place(nets, timing, wait.cell)?;
            number = wait.earlier;
        }
        Ok(())
    }
}

/// A data source of the cell that is a cell and is not listed, if there is one.
fn awaited(cell: &NetCell, timing: Timing, listed: &[bool]) -> Option<u32>
    requires { All (IsBelow (length listed.now)) (pin_sources cell.now) }
    ensures awaits { Awaits (is_in listed.now) (data_sources timing cell.now) result }
    ensures within { IfSome result (λ c. c < length listed.now) }
{
    match cell.kind {
        CellKind::Gate(_) => awaited_pin(cell.pins.as_slice(), listed),
        CellKind::Flop(_) => match timing {
            Timing::Settled => unlisted(cell.data_source(), listed),
            Timing::Cycles(_) => None,
        },
    }
}

fn awaited_pin(pins: &[Pin], listed: &[bool]) -> Option<u32>
    requires { All (IsBelow (length listed.now)) (map (λ (pin : AnyPin). pin.source) pins.now) }
    ensures awaits { Awaits (is_in listed.now) (map (λ (pin : AnyPin). pin.source) pins.now) result }
    ensures within { IfSome result (λ c. c < length listed.now) }
{
    for pin in pins {
        if let Some(other) = unlisted(pin.source, listed) {
            return Some(other);
        }
    }
    None
}

/// The cell, if the source is one that is not listed.
fn unlisted(source: Source, listed: &[bool]) -> Option<u32>
    requires { IsBelow (length listed.now) source }
    ensures awaits { Awaits (is_in listed.now) (source ∷ []) result }
    ensures within { IfSome result (λ c. c < length listed.now) }
{
    match source {
        Source::Cell(cell) if !listed[cell as usize] => Some(cell),
        _ => None,
    }
}

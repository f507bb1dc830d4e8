//! What the probes see, as lists of numbers.
ghost use Rattle.std.specs.Prelude.{◌≡◌, ◌≤◌, ◌<◌, ◌+◌, ◌^◌, ℕ, All, IfOk, OnOk, Some, [], length, map, vec_len};
ghost use Rattle.std.specs.Option.{option_map_or, ForSome};
ghost use Rattle.circuit_types.specs.DataSources.{cell_at, pin_sources, IsWithin, IsWired};
ghost use Rattle.circuit_types.specs.Order.{IsLevelled};
ghost use Rattle.circuit_types.specs.Probes.{most_probes, most_seen, seen_sources};
ghost use Rattle.circuit_types.specs.declared.nets.Pin.{Pin as AnyPin};
ghost use Rattle.circuit_types.specs.declared.nets.Source.{Source as AnySource};
ghost use Rattle.circuit_types.specs.declared.roles.Roles.{Roles as AnyRoles};
ghost use Rattle.glitch_cone.specs.Cones.{AreOwn, AreProbed, CountsSeen, Follows, IsBehind, Puts, is_gate, list_at, own_numbers, sees_itself};
ghost use Rattle.glitch_cone.specs.Numbers.{AscendsFrom};
ghost use Rattle.glitch_cone.specs.Places.{kept_place, HasRoom, ShowsPlaces};

use crate::merging::merge;
use crate::places::Places;
use cell_kinds::CellKind;
use circuit_types::{Circuit, Model, NetCell, Nets, NoMemory, Pin, Source};
use sequences::Sequence;
use std::alloc::Global;

/// For each probed source by its number, the numbers of the sources that a probe on it sees, ascending.
#[derive(Drop)]
pub struct Cones {
    pub lists: Vec<Sequence<u32>>,
    /// How many numbers the lists have together.
    pub entries: usize,
}

/// What the probes on the sources see. Once that is more than so many sources together, the rest is left out.
pub fn seen_cones(
    alloc: Global,
    circuit: &Circuit,
    sources: &[Source],
    places: &Places,
    model: Model,
    most: usize,
) -> Result<Cones, NoMemory>
    requires wired { IsWired circuit.now.nets }
    requires levelled { IsLevelled circuit.now }
    requires few { length sources.now ≤ most_probes }
    requires within { All (IsWithin circuit.now.nets) sources.now }
    requires places { ShowsPlaces circuit.now.nets sources.now (length sources.now) places.now }
    requires limit { most ≤ most_seen }
    ensures { IfOk result (λ cones. (roles : AnyRoles) → AreProbed roles circuit.now.nets sources.now
        → CountsSeen sources.now (seen_sources model roles circuit.now.nets) most cones) }
{
    match model {
        Model::Value => own_cones(alloc, &circuit.nets, sources, Model::Value),
        Model::Glitch => glitch_cones(alloc, circuit, sources, places, most),
    }
}

/// A source that sees itself has its own number; the lists of the others are empty.
fn own_cones(
    alloc: Global,
    nets: &Nets,
    sources: &[Source],
    model: Model,
) -> Result<Cones, NoMemory>
    requires few { length sources.now ≤ most_probes }
    requires within { All (IsWithin nets.now) sources.now }
    ensures { IfOk result (AreOwn model nets.now sources.now (length sources.now)) }
{
    let mut cones = Cones {
        lists: Vec::new(alloc),
        entries: 0,
    };
    for (number, source) in sources.iter().enumerate() {
        let own = own_numbers(alloc, nets, *source, model, number as u32)?;
        cones.entries += own.len();
        cones.lists.push(Sequence::from_vec(own))?;
    }
    Ok(cones)
}

fn own_numbers(
    alloc: Global,
    nets: &Nets,
    source: Source,
    model: Model,
    number: u32,
) -> Result<Vec<u32>, NoMemory>
    requires { IsWithin nets.now source }
    ensures { IfOk result (λ own. own.items ≡ own_numbers model nets.now source number) }
{
    let mut own = Vec::new(alloc);
    if sees_itself(nets, source, model) {
        own.push(number)?;
    }
    Ok(own)
}

/// A probe on the source sees it and nothing else.
fn sees_itself(nets: &Nets, source: Source, model: Model) -> bool
    requires { IsWithin nets.now source }
    ensures { result ≡ sees_itself model nets.now source }
{
    match model {
        Model::Value => true,
        Model::Glitch => !is_gate(nets, source),
    }
}

fn is_gate(nets: &Nets, source: Source) -> bool
    requires { IsWithin nets.now source }
    ensures { result ≡ is_gate nets.now source }
{
    match source {
        Source::Cell(cell) => match nets.cells.as_slice()[cell as usize].kind {
            CellKind::Gate(_) => true,
            CellKind::Flop(_) => false,
        },
        Source::Input(_) | Source::Zero | Source::One | Source::Unknown | Source::Missing => false,
    }
}

/// The cones of gates are made in an order in which each stands after what it reads.
fn glitch_cones(
    alloc: Global,
    circuit: &Circuit,
    sources: &[Source],
    places: &Places,
    most: usize,
) -> Result<Cones, NoMemory>
    requires wired { IsWired circuit.now.nets }
    requires levelled { IsLevelled circuit.now }
    requires few { length sources.now ≤ most_probes }
    requires within { All (IsWithin circuit.now.nets) sources.now }
    requires places { ShowsPlaces circuit.now.nets sources.now (length sources.now) places.now }
    requires limit { most ≤ most_seen }
    ensures { IfOk result (λ cones. (roles : AnyRoles) → AreProbed roles circuit.now.nets sources.now
        → CountsSeen sources.now (seen_sources Model.Glitch roles circuit.now.nets) most cones) }
{
    let mut cones = own_cones(alloc, &circuit.nets, sources, Model::Glitch)?;
    for cell in circuit.order.as_slice() {
        if cones.entries > most {
            return Ok(cones);
        }
        cones.follow(alloc, &circuit.nets, places, *cell)?;
    }
    Ok(cones)
}

impl Cones {
    /// Makes the cone of the cell, if it is a gate.
    fn follow(
        &mut self,
        alloc: Global,
        nets: &Nets,
        places: &Places,
        cell: u32,
    ) -> Result<(), NoMemory>
        requires within { cell < length nets.now.cells }
        requires wired { IsWired nets.now }
        requires bits { length places.now.bits.items ≡ length nets.now.sources }
        requires cells { length places.now.cells.items ≡ length nets.now.cells }
        requires places { (s : AnySource) → ForSome (kept_place places.now s) (λ n. n < length self.old.lists.items) }
        requires ascend { All (AscendsFrom 0) self.old.lists.items }
        requires few { self.old.entries ≤ most_seen }
        ensures { OnOk result (Follows (cell_at nets.now cell).kind nets.now places.now cell self.old self.new) }
    {
        let of = &nets.cells.as_slice()[cell as usize];
        match of.kind {
            CellKind::Flop(_) => Ok(()),
            CellKind::Gate(_) => {
                let numbers = self.behind(alloc, of, places)?;
                self.put(places.of(Source::Cell(cell)), numbers);
                Ok(())
            }
        }
    }

    /// The numbers in the lists of what the cell reads.
    fn behind(&self, alloc: Global, cell: &NetCell, places: &Places) -> Result<Vec<u32>, NoMemory>
        requires room { All (HasRoom places.now) (pin_sources cell.now) }
        requires places { (s : AnySource) → ForSome (kept_place places.now s) (λ n. n < length self.now.lists.items) }
        requires ascend { All (AscendsFrom 0) self.now.lists.items }
        ensures { IfOk result (λ numbers. IsBehind places.now self.now.lists.items (pin_sources cell.now) numbers.items) }
    {
        let mut numbers = Vec::new(alloc);
        for pin in cell.pins.as_slice() {
            numbers = merge(alloc, &numbers, self.of(places.of(pin.source)))?;
        }
        Ok(numbers)
    }

    fn of(&self, number: Option<u32>) -> &[u32]
        requires { ForSome number (λ n. n < length self.now.lists.items) }
        ensures { result.now ≡ option_map_or (list_at self.now.lists.items) number [] }
    {
        match number {
            Some(number) => self.lists[number as usize].as_slice(),
            None => &[],
        }
    }

    /// The lists alone.
    pub fn into_lists(self) -> Vec<Sequence<u32>>
        ensures { result ≡ self.lists }
    {
        self.lists
    }

    fn put(&mut self, number: Option<u32>, numbers: Vec<u32>)
        requires number { ForSome number (λ n. n < length self.old.lists.items) }
        requires few { self.old.entries ≤ most_seen }
        ensures { Puts number numbers.items self.old self.new }
    {
        if let Some(number) = number {
            self.entries += numbers.len();
            self.lists[number as usize] = Sequence::from_vec(numbers);
        }
    }
}

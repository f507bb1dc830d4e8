//! Where the bits end.

ghost use Rattle.std.specs.Prelude.{◌≡◌, ◌<◌, ◌≤◌, ℕ, [], length, slice_index_or, IfOk, OnOk};
ghost use Rattle.circuit_types.specs.Nets.{most_bits};
ghost use Rattle.net_build.specs.Ends.{step_of, step_at, IsEndOf, IsClosed, Among, IsSettled, HasFollowed, ReplacesAmong, end_at};

use crate::drivers::Driver;
use circuit_types::{NoMemory, SignalBit, Source};
use std::alloc::Global;

/// Where following a bit goes on, or where it stops.
#[derive(Clone, Copy)]
pub enum Step {
    To(usize),
    At(Source),
}

/// Where each bit ends. Each bit is followed until one is met whose end is known or that is being
/// followed already, and then all on the way have its end: a bit is gone over twice at most.
pub fn sources_of(alloc: Global, drivers: &[Driver]) -> Result<Vec<Source>, NoMemory>
    requires closed { IsClosed drivers.now }
    requires few { length drivers.now ≤ most_bits }
    ensures size { IfOk result (λ v. length v.items ≡ length drivers.now) }
    ensures ends { IfOk result (λ v. (k : ℕ) → k < length drivers.now → IsEndOf drivers.now k (end_at v.items k)) }
{
    let mut sources = vec![in alloc; Source::Missing; drivers.len()]?;
    let mut seen = vec![in alloc; false; drivers.len()]?;
    follow_all(alloc, drivers, sources.as_mut_slice(), seen.as_mut_slice())?;
    Ok(sources)
}

fn follow_all(
    alloc: Global,
    drivers: &[Driver],
    sources: &mut [Source],
    seen: &mut [bool],
) -> Result<(), NoMemory>
    requires closed { IsClosed drivers.now }
    requires few { length drivers.now ≤ most_bits }
    requires settled { IsSettled drivers.now sources.old seen.old }
    ensures { OnOk result ((k : ℕ) → k < length drivers.now → IsEndOf drivers.now k (end_at sources.new k)) }
{
    let mut way = Vec::new(alloc);
    for bit in 0..drivers.len() {
        let end = follow(drivers, bit, sources, seen, &mut way)?;
        settle(sources, way.as_slice(), end);
        way.clear();
    }
    Ok(())
}

/// Follows a bit to its end, and puts the bits that are met for the first time on the way.
fn follow(
    drivers: &[Driver],
    start: usize,
    sources: &[Source],
    seen: &mut [bool],
    way: &mut Vec<usize>,
) -> Result<Source, NoMemory>
    requires closed { IsClosed drivers.now }
    requires few { length drivers.now ≤ most_bits }
    requires inside { start < length drivers.now }
    requires settled { IsSettled drivers.now sources.now seen.old }
    requires empty { way.old.items ≡ [] }
    ensures { IfOk result (λ end. HasFollowed drivers.now start seen.old seen.new way.new.items end) }
{
    let mut bit = start;
    while !seen[bit] {
        seen[bit] = true;
        way.push(bit)?;
        match step_from(drivers, bit) {
            Step::To(next) => bit = next,
            Step::At(end) => return Ok(end),
        }
    }
    Ok(sources[bit])
}

#[tactic(auto, unfolding(crate::specs::Ends::step_at))]
fn step_from(drivers: &[Driver], bit: usize) -> Step
    requires inside { bit < length drivers.now }
    requires few { length drivers.now ≤ most_bits }
    ensures { result ≡ step_at drivers.now bit }
{
    step_by(drivers[bit], bit)
}

fn step_by(driver: Driver, bit: usize) -> Step
    requires { bit < most_bits }
    ensures { result ≡ step_of driver bit }
{
    match driver {
        Driver::Nothing => Step::At(Source::Missing),
        Driver::Input => Step::At(Source::Input(bit as u32)),
        Driver::Cell(cell) => Step::At(Source::Cell(cell)),
        Driver::Bit(SignalBit::Net(next)) => Step::To(next as usize),
        Driver::Bit(SignalBit::Zero) => Step::At(Source::Zero),
        Driver::Bit(SignalBit::One) => Step::At(Source::One),
        Driver::Bit(SignalBit::Unknown) => Step::At(Source::Unknown),
    }
}

/// Gives the bits on the way their end.
fn settle(sources: &mut [Source], way: &[usize], end: Source)
    requires within { (k : ℕ) → Among way.now k → k < length sources.old }
    requires few { length sources.old ≤ most_bits }
    ensures { ReplacesAmong way.now end sources.old sources.new }
{
    for passed in way {
        sources[*passed] = end;
    }
}

//! The drives of a module's statements, one after another.

ghost use Rattle.std.specs.Prelude.{◌≡◌, ◌+◌, ◌≤◌, [], ◌∷◌, ◌++◌, true, nat_le, List, All, None, length, map, if◌then◌else◌, IfOk, IfErr, OnOk, Contains};
ghost use Rattle.std.specs.List.{list_all, zip};
ghost use Rattle.circuit_types.specs.Due.{Never};
ghost use Rattle.circuit_types.specs.Items.{is_kept as is_kept_cell, kept_cells, cells, bit_count};
ghost use Rattle.circuit_types.specs.Drives.{Drive, drives, drives_from, redriven};
ghost use Rattle.circuit_types.specs.Nets.{most_bits, most_cells};
ghost use Rattle.net_build.specs.Drivers.{IsWithin, KnowsDrivers, is_driven, driven, tied, joined};
ghost use Rattle.net_build.specs.Drives.{HasDriven, IsTwice, joined_bits, is_from as is_from_line, NoneBefore};
ghost use Rattle.circuit_types.specs.declared.nets.NetWire.{NetWire as AnyWire};
ghost use Rattle.net_build.specs.Faults.{earlier_of, least_of};
ghost use Rattle.net_build.specs.Good.{AreWithin, IsGoodConnect, IsGoodItem};
ghost use Rattle.net_build.specs.Ports.{KnowsPorts, KnowsNext};
ghost use Rattle.net_build.specs.Stops.{IfRefused};

use crate::drivers::{Driver, drive};
use crate::expand::bits_of;
use crate::faults::{earlier, is_kept};
use crate::ports::Ports;
use crate::starts::starting_drivers;
use crate::wires::Wires;
use circuit_types::{Connect, Item, NoMemory, PortConnect, Refusal, SignalBit, Stop};
use std::alloc::Global;

/// What drives each bit so far.
#[derive(Drop)]
pub struct Drivers {
    pub list: Vec<Driver>,
    /// The least line at which a bit is driven that may not be driven.
    pub refused: Option<u32>,
}

impl Drivers {
    fn drive(&mut self, line: u32, bit: SignalBit, driver: Driver)
        requires { IsWithin (length self.old.list.items) bit }
        ensures list { self.new.list.items ≡ driven self.old.list.items bit driver }
        ensures refused { self.new.refused
            ≡ (if is_driven self.old.list.items bit then earlier_of self.old.refused (Some line) else self.old.refused) }
    {
        if drive(self.list.as_mut_slice(), bit, driver) {
            self.refused = earlier(self.refused, Some(line));
        }
    }

    /// Ties the output of a cell to these bits.
    fn tie(&mut self, line: u32, bits: &[SignalBit], number: u32)
        requires { All (IsWithin (length self.old.list.items)) bits.now }
        ensures size { length self.new.list.items ≡ length self.old.list.items }
        ensures driven { (ws : List AnyWire) (ds : List Drive) → HasDriven ws ds self.old
            → HasDriven ws (ds ++ map (tied line number) bits.now) self.new }
    {
        for bit in bits {
            self.drive(line, *bit, Driver::Cell(number));
        }
    }

    /// Drives each bit on the left by the bit on the right at the same place.
    fn join(&mut self, line: u32, left: &[SignalBit], right: &[SignalBit])
        requires within { All (IsWithin (length self.old.list.items)) left.now }
        requires fits { length left.now ≡ length right.now }
        ensures size { length self.new.list.items ≡ length self.old.list.items }
        ensures driven { (ws : List AnyWire) (ds : List Drive) → HasDriven ws ds self.old
            → HasDriven ws (ds ++ map (joined line) (zip left.now right.now)) self.new }
    {
        for (place, bit) in left.iter().enumerate() {
            self.drive(line, *bit, Driver::Bit(right[place]));
        }
    }
}

/// What drives each bit once all statements stand, or the refusal where a bit is driven that may not be.
///
/// A signal may be wide, and many statements may drive the same bits. As long as no drive is refused, each drive
/// takes a bit that no other has, so the widths gone over are at most those of all wires, and one statement more. At
/// the first refused drive the later lines are looked at: where none is less, as in a file, that line is the least and
/// nothing more is gone over. Only where statements are out of order, as in a module that others were put into, are
/// all of them gone over.
pub fn drivers_of(
    alloc: Global,
    wires: &Wires<'_>,
    items: &[Item<'_>],
    ports: &Ports,
) -> Result<Vec<Driver>, Stop>
    requires ports { KnowsPorts wires.now.list.now (kept_cells items.now) ports.now }
    requires good { All (IsGoodItem wires.now.list.now) items.now }
    requires within { AreWithin wires.now.list.now }
    requires few_bits { bit_count wires.now.list.now ≤ most_bits }
    requires few_cells { length (cells items.now) ≤ most_cells }
    ensures known { IfOk result (λ v. KnowsDrivers wires.now.list.now (drives wires.now.list.now items.now) v.items) }
    ensures once { IfOk result (λ v. Never (Contains (redriven wires.now.list.now [] (drives wires.now.list.now items.now)))) }
    ensures twice { IfErr result (λ stop. IfRefused stop (IsTwice wires.now.list.now (drives wires.now.list.now items.now))) }
{
    let mut drivers = Drivers {
        list: starting_drivers(alloc, wires.list)?,
        refused: None,
    };
    drive_all(alloc, wires, items, ports, &mut drivers)?;
    if let Some(line) = drivers.refused {
        return Err(Stop::Refused(Refusal::TwoDrivers { line }));
    }
    Ok(drivers.list)
}

/// Drives all bits that the statements drive, in order, until no later line can be the least that is refused.
fn drive_all(
    alloc: Global,
    wires: &Wires<'_>,
    items: &[Item<'_>],
    ports: &Ports,
    drivers: &mut Drivers,
) -> Result<(), NoMemory>
    requires ports { KnowsPorts wires.now.list.now (kept_cells items.now) ports.now }
    requires good { All (IsGoodItem wires.now.list.now) items.now }
    requires within { AreWithin wires.now.list.now }
    requires few_cells { length (cells items.now) ≤ most_cells }
    requires start { HasDriven wires.now.list.now [] drivers.old }
    ensures refused { OnOk result (drivers.new.refused
        ≡ least_of (redriven wires.now.list.now [] (drives wires.now.list.now items.now))) }
    ensures known { OnOk result (drivers.new.refused ≡ None
        → KnowsDrivers wires.now.list.now (drives wires.now.list.now items.now) drivers.new.list.items) }
{
    let mut number = 0;
    for (place, item) in items.iter().enumerate() {
        let before = drivers.refused;
        number = drive_item(alloc, wires, item, ports, number, drivers)?;
        if is_least(before, drivers.refused, &items[place + 1..]) {
            return Ok(());
        }
    }
    Ok(())
}

/// Whether the first line that is refused is seen to be the least one. It is looked at once, when it is new.
fn is_least(before: Option<u32>, refused: Option<u32>, later: &[Item<'_>]) -> bool
    ensures { result ≡ true → NoneBefore refused later.now }
{
    if before.is_some() {
        return false;
    }
    match refused {
        None => false,
        Some(line) => all_from(later, line),
    }
}

fn all_from(items: &[Item<'_>], line: u32) -> bool
    ensures { result ≡ list_all (is_from_line line) items.now }
{
    items.iter().all(|item| is_from(item, line))
}

/// Whether each line of the item's connects is this one or a later one.
fn is_from(item: &Item<'_>, line: u32) -> bool
    ensures { result ≡ is_from_line line item.now }
{
    match item {
        Item::Cell(cell) => ports_from(cell.connects.as_slice(), line),
        Item::Connect(connect) => line <= connect.line,
        _ => true,
    }
}

fn ports_from(connects: &[PortConnect<'_>], line: u32) -> bool
    ensures { result ≡ list_all (λ p. nat_le line p.line) connects.now }
{
    connects.iter().all(|connect| line <= connect.line)
}

/// Drives the bits that the item drives, which is the kept cell of that number if it is one; answers the next number.
fn drive_item(
    alloc: Global,
    wires: &Wires<'_>,
    item: &Item<'_>,
    ports: &Ports,
    number: u32,
    drivers: &mut Drivers,
) -> Result<u32, NoMemory>
    requires ports { KnowsNext wires.now.list.now (kept_cells (item.now ∷ [])) number ports.now }
    requires good { IsGoodItem wires.now.list.now item.now }
    requires within { AreWithin wires.now.list.now }
    requires size { length drivers.old.list.items ≡ bit_count wires.now.list.now }
    requires few { number + length (kept_cells (item.now ∷ [])) ≤ most_cells }
    ensures next { IfOk result (λ next. next ≡ number + length (kept_cells (item.now ∷ []))) }
    ensures size { OnOk result (length drivers.new.list.items ≡ bit_count wires.now.list.now) }
    ensures driven { OnOk result ((ds : List Drive) → HasDriven wires.now.list.now ds drivers.old
        → HasDriven wires.now.list.now (ds ++ drives_from wires.now.list.now number (item.now ∷ [])) drivers.new) }
{
    match item {
        Item::Cell(cell) => {
            if is_kept(cell) {
                let (line, bits) = ports.output(number);
                drivers.tie(line, bits, number);
                Ok(number + 1)
            } else {
                Ok(number)
            }
        }
        Item::Connect(connect) => {
            drive_connect(alloc, wires, connect, drivers)?;
            Ok(number)
        }
        _ => Ok(number),
    }
}

/// Drives the bits on the left of a connect by those on its right.
fn drive_connect(
    alloc: Global,
    wires: &Wires<'_>,
    connect: &Connect<'_>,
    drivers: &mut Drivers,
) -> Result<(), NoMemory>
    requires good { IsGoodConnect wires.now.list.now connect.now }
    requires within { AreWithin wires.now.list.now }
    requires size { length drivers.old.list.items ≡ bit_count wires.now.list.now }
    ensures size { OnOk result (length drivers.new.list.items ≡ bit_count wires.now.list.now) }
    ensures driven { OnOk result ((ds : List Drive) → HasDriven wires.now.list.now ds drivers.old
        → HasDriven wires.now.list.now (ds ++ joined_bits wires.now.list.now connect.now) drivers.new) }
{
    let left = bits_of(alloc, wires, &connect.left)?;
    let right = bits_of(alloc, wires, &connect.right)?;
    drivers.join(connect.line, left.as_slice(), right.as_slice());
    Ok(())
}

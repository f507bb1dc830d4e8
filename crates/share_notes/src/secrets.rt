//! The secret bits, numbered in the order in which their first shares come.
ghost use Rattle.std.specs.Prelude.{◌≡◌, ◌+◌, ◌≤◌, ◌<◌, ◌++◌, [], ◌∷◌, List, length, IfOk, OnOk, sum_by};
ghost use Rattle.std.specs.Option.{option_map};
ghost use Rattle.circuit_types.specs.Nets.{most_bits};
ghost use Rattle.circuit_types.specs.declared.roles.Secret.{Secret as AnySecret};
ghost use Rattle.share_notes.specs.declared.mark.MarkedWire.{MarkedWire as AnyMarked};
ghost use Rattle.std.specs.List.{cons_option};
ghost use Rattle.share_notes.specs.Shares.{GivenBit, given_at, given_bit, given_by, given, distinct, place_of, secrets as secrets_of};
ghost use Rattle.share_notes.specs.Known.{KnowsPlaces, seen_given};

use crate::direction::Direction;
use crate::mark::{Mark, MarkedWire};
use crate::note::Note;
use circuit_types::{NoMemory, Secret};
use sequences::Sequence;
use std::alloc::Global;
use std::collections::BTreeMap;

/// A share of a bit of a secret.
#[derive(Clone, Copy)]
pub struct Given<'a> {
    pub name: &'a [u8],
    pub bit: u32,
    pub share: u32,
}

/// What the bit of a wire at this place is a share of, where the wire has a share note.
pub fn given_at(mark: &Mark, place: u32) -> Option<Given<'_>>
    ensures { option_map seen_given result ≡ given_at mark.now place }
{
    match mark {
        Mark::Noted(Note::Share { name, index }) => Some(Given {
            name: name.as_slice(),
            bit: place,
            share: *index,
        }),
        Mark::Noted(Note::Shares { name }) => Some(Given {
            name: name.as_slice(),
            bit: 0,
            share: place,
        }),
        _ => None,
    }
}

/// The secret bits, each with its place.
#[derive(Drop)]
pub struct Secrets<'a> {
    pub list: Vec<Secret>,
    pub places: BTreeMap<(&'a [u8], u32), u32>,
}

impl<'a> Secrets<'a> {
    /// The secret bits of which the wires of this direction give shares.
    pub fn new(
        alloc: Global,
        wires: &'a [MarkedWire],
        direction: Direction,
    ) -> Result<Secrets<'a>, NoMemory>
        requires { sum_by (λ (w : AnyMarked). w.width) wires.now ≤ most_bits }
        ensures list { IfOk result (λ s. s.list.items ≡ secrets_of (given direction wires.now)) }
        ensures known { IfOk result (λ s. KnowsPlaces s.list.items s.places) }
    {
        let mut secrets = Secrets {
            list: Vec::new(alloc),
            places: BTreeMap::new(alloc),
        };
        for wire in wires {
            secrets.add_wire(alloc, wire, direction)?;
        }
        Ok(secrets)
    }

    /// Adds the secret bits of which the wire gives shares, if it has this direction.
    fn add_wire(
        &mut self,
        alloc: Global,
        wire: &'a MarkedWire,
        direction: Direction,
    ) -> Result<(), NoMemory>
        requires known { KnowsPlaces self.old.list.items self.old.places }
        requires room { length self.old.list.items + wire.now.width ≤ most_bits }
        ensures known { OnOk result (KnowsPlaces self.new.list.items self.new.places) }
        ensures few { OnOk result (length self.new.list.items ≤ length self.old.list.items + wire.now.width) }
        ensures list { OnOk result ((gs : List GivenBit) → self.old.list.items ≡ secrets_of gs
            → self.new.list.items ≡ secrets_of (gs ++ given_by direction wire.now)) }
    {
        if !direction.has(wire.port) {
            return Ok(());
        }
        for place in 0..wire.width {
            self.add_place(alloc, wire, place)?;
        }
        Ok(())
    }

    /// Adds the secret bit of which the bit at this place is a share, if it is one.
    fn add_place(&mut self, alloc: Global, wire: &'a MarkedWire, place: u32) -> Result<(), NoMemory>
        requires known { KnowsPlaces self.old.list.items self.old.places }
        requires room { length self.old.list.items < most_bits }
        ensures known { OnOk result (KnowsPlaces self.new.list.items self.new.places) }
        ensures few { OnOk result (length self.new.list.items ≤ length self.old.list.items + 1) }
        ensures list { OnOk result ((gs : List GivenBit) → self.old.list.items ≡ secrets_of gs
            → self.new.list.items ≡ secrets_of (gs ++ cons_option (given_bit wire.now place) [])) }
    {
        let Some(given) = given_at(&wire.mark, place) else {
            return Ok(());
        };
        self.add(alloc, given.name, given.bit)?;
        Ok(())
    }

    /// Adds the secret bit, unless it is there.
    fn add(&mut self, alloc: Global, name: &'a [u8], bit: u32) -> Result<(), NoMemory>
        requires known { KnowsPlaces self.old.list.items self.old.places }
        requires room { length self.old.list.items < most_bits }
        ensures known { OnOk result (KnowsPlaces self.new.list.items self.new.places) }
        ensures few { OnOk result (length self.new.list.items ≤ length self.old.list.items + 1) }
        ensures list { OnOk result ((before : List AnySecret) → self.old.list.items ≡ distinct before
            → self.new.list.items ≡ distinct (before ++ record { name = name.now; bit = bit } ∷ [])) }
    {
        if self.places.contains_key(&(name, bit)) {
            return Ok(());
        }
        let place = self.list.len() as u32;
        let secret = Secret {
            name: Sequence::from_vec(Vec::from_slice(alloc, name)?),
            bit,
        };
        self.list.push(secret)?;
        self.places.insert((name, bit), place)?;
        Ok(())
    }

    /// The place of a secret bit, or 0 where it is not there.
    pub fn place(&self, name: &'a [u8], bit: u32) -> u32
        requires { KnowsPlaces self.now.list.items self.now.places }
        ensures { result ≡ place_of self.now.list.items (record { name = name.now; bit = bit }) }
    {
        match self.places.get(&(name, bit)) {
            Some(place) => *place,
            None => 0,
        }
    }
}

//! What a cell reads at one of its ports, and how many cycles there are.

ghost use Rattle.std.specs.Prelude.{◌≡◌, ◌==◌, map, position, slice_index_or};
ghost use Rattle.cell_kinds.specs.Cells.{input_letters};
ghost use Rattle.circuit_types.specs.declared.nets.Pin.{Pin as AnyPin};
ghost use Rattle.circuit_types.specs.declared.nets.Source.TheVariants.{Missing};
ghost use Rattle.circuit_types.specs.DataSources.{port_source, data_source};
ghost use Rattle.circuit_types.specs.Probes.{cycles};

use crate::circuit::Timing;
use crate::nets::{NetCell, Pin, Source};
use cell_kinds::{CellKind, inputs};

/// The place of the input of that letter.
fn port_place(kind: CellKind, letter: u8) -> Option<usize>
    ensures { result ≡ position (λ l. l == letter) (input_letters kind) }
{
    inputs(kind).iter().position(|other| *other == letter)
}

/// What the pin at the place reads.
fn pin_source(pins: &[Pin], place: usize) -> Source
    ensures { result ≡ slice_index_or (map (λ (pin : AnyPin). pin.source) pins.now) place Missing }
{
    match pins.get(place) {
        Some(pin) => pin.source,
        None => Source::Missing,
    }
}

impl NetCell {
    /// What the input of that letter reads; `Missing` where there is no such input.
    pub fn port_source(&self, letter: u8) -> Source
        ensures { result ≡ port_source self.now letter }
    {
        match port_place(self.kind, letter) {
            Some(place) => pin_source(self.pins.as_slice(), place),
            None => Source::Missing,
        }
    }

    /// What the data input of a flip-flop reads.
    pub fn data_source(&self) -> Source
        ensures { result ≡ data_source self.now }
    {
        self.port_source(b'D')
    }
}

impl Timing {
    /// How many cycles the circuit runs; 1 where it is settled.
    pub fn cycles(self) -> u32
        ensures { result ≡ cycles self }
    {
        match self {
            Timing::Settled => 1,
            Timing::Cycles(cycles) => cycles,
        }
    }
}

//! The numbers of the probed sources: their places in the list of them.
ghost use Rattle.std.specs.Prelude.{◌≡◌, ◌≤◌, All, IfOk, Some, length, if◌then◌else◌};
ghost use Rattle.circuit_types.specs.Probes.{most_probes};
ghost use Rattle.circuit_types.specs.Stable.{is_same_source};
ghost use Rattle.circuit_types.specs.declared.nets.Source.{Source as AnySource};
ghost use Rattle.glitch_cone.specs.Places.{kept_place, AreDistinct, HasPlace, HasRoom, IsBitOrCell, ShowsPlaces};

use circuit_types::{Nets, NoMemory, Source};
use std::alloc::Global;

/// By number of an input bit and of a cell, its place in the list of probed sources, if it stands there.
#[derive(Drop)]
pub struct Places {
    bits: Vec<Option<u32>>,
    cells: Vec<Option<u32>>,
}

impl Places {
    /// The places of the sources.
    pub fn new(alloc: Global, nets: &Nets, sources: &[Source]) -> Result<Places, NoMemory>
        requires few { length sources.now ≤ most_probes }
        requires within { All (IsBitOrCell nets.now) sources.now }
        requires distinct { AreDistinct sources.now }
        ensures { IfOk result (ShowsPlaces nets.now sources.now (length sources.now)) }
    {
        let mut places = Places {
            bits: vec![in alloc; None; nets.sources.as_slice().len()]?,
            cells: vec![in alloc; None; nets.cells.as_slice().len()]?,
        };
        for (place, source) in sources.iter().enumerate() {
            places.put(*source, place as u32);
        }
        Ok(places)
    }

    fn put(&mut self, source: Source, place: u32)
        requires { HasPlace self.old source }
        ensures bits { length self.new.bits.items ≡ length self.old.bits.items }
        ensures cells { length self.new.cells.items ≡ length self.old.cells.items }
        ensures places { (s : AnySource)
            → kept_place self.new s ≡ (if is_same_source source s then Some place else kept_place self.old s) }
    {
        match source {
            Source::Input(bit) => self.bits[bit as usize] = Some(place),
            Source::Cell(cell) => self.cells[cell as usize] = Some(place),
            Source::Zero | Source::One | Source::Unknown | Source::Missing => {}
        }
    }

    /// The place of the source, if it is probed.
    pub fn of(&self, source: Source) -> Option<u32>
        requires { HasRoom self.now source }
        ensures { result ≡ kept_place self.now source }
    {
        match source {
            Source::Input(bit) => self.bits[bit as usize],
            Source::Cell(cell) => self.cells[cell as usize],
            Source::Zero | Source::One | Source::Unknown | Source::Missing => None,
        }
    }
}

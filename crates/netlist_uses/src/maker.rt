//! Netlists made by hand.
use cell_kinds::CellKind;
use circuit_types::{InputRole, NetCell, Nets, OutputShare, Pin, Role, Roles, Source};
use sequences::Sequence;
use std::alloc::{AllocError, Global};
use std::test::Fail;

/// A netlist in the making. Each input, each cell and each share of an output has a bit of its own, in that order.
#[derive(Drop)]
pub struct Maker {
    alloc: Global,
    sources: Vec<Source>,
    cells: Vec<NetCell>,
    inputs: Vec<InputRole>,
    outputs: Vec<OutputShare>,
}

impl Maker {
    pub fn new(alloc: Global) -> Maker {
        Maker {
            alloc,
            sources: Vec::new(alloc),
            cells: Vec::new(alloc),
            inputs: Vec::new(alloc),
            outputs: Vec::new(alloc),
        }
    }

    /// The number of the bit that ends there.
    fn bit(&mut self, source: Source) -> Result<u32, Fail> {
        let bit = u32::try_from(self.sources.len())?;
        self.sources.push(source).map_err(AllocError::from)?;
        Ok(bit)
    }

    pub fn input(&mut self, role: Role) -> Result<Source, Fail> {
        let source = Source::Input(u32::try_from(self.sources.len())?);
        let bit = self.bit(source)?;
        self.inputs
            .push(InputRole { bit, role })
            .map_err(AllocError::from)?;
        Ok(source)
    }

    pub fn cell(&mut self, kind: CellKind, reads: &[Source]) -> Result<Source, Fail> {
        let mut pins = Vec::new(self.alloc);
        for source in reads {
            let pin = Pin {
                line: 0,
                source: *source,
            };
            pins.push(pin).map_err(AllocError::from)?;
        }
        let source = Source::Cell(u32::try_from(self.cells.len())?);
        let output = self.bit(source)?;
        let cell = NetCell {
            line: 0,
            kind,
            pins: Sequence::from_vec(pins),
            output,
        };
        self.cells.push(cell).map_err(AllocError::from)?;
        Ok(source)
    }

    /// A share of an output ends there.
    pub fn share(&mut self, source: Source) -> Result<(), Fail> {
        let bit = self.bit(source)?;
        let share = OutputShare {
            bit,
            secret: 0,
            share: bit,
        };
        self.outputs.push(share).map_err(AllocError::from)?;
        Ok(())
    }

    pub fn done(self, alloc: Global) -> (Nets, Roles) {
        let nets = Nets {
            wires: Sequence::from_vec(Vec::new(alloc)),
            sources: Sequence::from_vec(self.sources),
            cells: Sequence::from_vec(self.cells),
        };
        let roles = Roles {
            shares: 2,
            secrets: Sequence::from_vec(Vec::new(alloc)),
            inputs: Sequence::from_vec(self.inputs),
            output_secrets: Sequence::from_vec(Vec::new(alloc)),
            outputs: Sequence::from_vec(self.outputs),
        };
        (nets, roles)
    }
}

//! Where a circuit is probed, and what a probe sees there.

use crate::nets::Source;
use sequences::Sequence;

/// What a probe on a wire sees.
#[derive(Clone, Copy, Debug, PartialEq, Eq)]
pub enum Model {
    /// The value of the wire, once it is stable.
    Value,
    /// The values of all stable signals from which a glitch may reach the wire (Faust et al., TCHES 2018).
    Glitch,
}

/// A wire that may be probed, in one cycle.
#[derive(Debug, Drop)]
pub struct Probe {
    pub source: Source,
    /// The cycle, from 0; it is 0 where the netlist is settled.
    pub cycle: u32,
    /// The number of the bit that gives the probe its name.
    pub name_bit: u32,
    /// The wire is a share of an output, in the last cycle.
    pub output: bool,
    /// Whose values the probe sees, in the cycle of the probe.
    pub seen: Sequence<Source>,
}

/// The probes of a circuit, in order.
#[derive(Debug, Drop)]
pub struct Probes {
    pub model: Model,
    pub list: Sequence<Probe>,
}

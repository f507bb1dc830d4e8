//! The probes of a circuit, and what each of them sees.
//!
//! A probe sits on each input bit other than the clock and held ones and on each cell, in each cycle: these are the
//! *probed sources*, numbered in that order. In the value model a probe sees its own source. In the glitch model one on a
//! gate sees every stable signal from which a glitch may reach the gate (Faust et al., TCHES 2018): the gate's *cone*,
//! which is kept as the ascending list of their numbers and made of the cones of the gate's inputs.
//!
//! [`probes`] lists the probes, or refuses a circuit that has too many or whose probes see too much.
#![tactic(auto)]

mod cones;
mod laws;
mod listing;
mod merging;
mod outputs;
mod places;
mod probing;
mod sources;

pub use laws::limits;
pub use probing::{MOST_PROBES, MOST_SEEN, probes};

//! The cells that a netlist may have: the gates and flip-flops of the Yosys internal cell library that
//! are understood, each with its name, its ports and what it computes.
//!
//! All of it is one table, `Cells` in `specs/`. The calls here answer by that table, and none of them
//! takes memory.
#![tactic(auto)]

mod kind;
mod laws;
mod names;
mod ports;
mod value;

pub use kind::{CellKind, Flop, GateKind, Reset};
pub use laws::names_and_cells;
pub use names::kind_of;
pub use ports::{inputs, output_port};
pub use value::output;

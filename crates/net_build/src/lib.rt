//! From the statements of a module to its nets: which bits its wires have, where each bit ends when it is followed
//! back through the connects, and what its kept cells read.
//!
//! [`build`] gives the nets of the module that is verified, or the one refusal that is due. It looks at all limits,
//! names, widths and ports before any connect is written out bit by bit; then at what drives each bit; then at where the
//! bits end, and so at what is read. [`name_of`] is the printed name of a bit.
#![tactic(auto)]

mod cells;
mod drivers;
mod drives;
mod expand;
mod faults;
mod form;
mod laws;
mod name;
mod net_sources;
mod nets;
mod ports;
mod reads;
mod resolve;
mod shape;
mod starts;
mod wires;

pub use laws::each_bit_is_of_a_wire;
pub use nets::{build, name_of};

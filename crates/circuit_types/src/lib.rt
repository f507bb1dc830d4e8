//! What a netlist text says, as plain data, and why a netlist is refused.
//!
//! A [`Tree`] is the modules of a text in order, each with its attributes, wires, cells and connects as
//! they are written, after the Yosys RTLIL text representation in this project's profile. A [`Signal`] is
//! what a connect joins: a constant, a whole wire, some places of a signal, or several signals in a row.
//! [`top`] finds the module that is verified. A [`Refusal`] is why a netlist is not accepted.
//!
//! [`Nets`] say where each bit of a module ends, followed back through its connects, and [`Roles`] what
//! the notes on its ports mean. What both are of a tree, and which refusal is due, is defined in `specs/`.
//!
//! A [`Circuit`] is nets whose cells are in an order in which they can be evaluated, once all is settled or cycle by
//! cycle, and [`Probes`] are its wires with what a probe on each of them sees. What value a wire has in a cycle, which
//! stable signals are behind it, and what a tuple of probes observes, is defined in `specs/` too; the laws here say what a
//! reader may rely on.
//!
//! Lists are sequences, and signals inside signals are seen as themselves, so contracts can compare
//! whole trees.
#![tactic(auto)]

mod circuit;
mod data_sources;
mod laws;
mod name;
mod nets;
mod probes;
mod refusal;
mod roles;
mod signal;
mod top_module;
mod tree;

pub use circuit::{Circuit, Timing};
pub use laws::{
    held_is_by_cells, one_refusal, order_stands_after, settled_is_least, settled_is_levelled,
    stable_is_by_cells, value_is_by_cells,
};
pub use name::Name;
pub use nets::{NetCell, NetWire, Nets, Pin, SignalBit, Source, source_of};
pub use probes::{Model, Probe, Probes};
pub use refusal::{Refusal, Stop, Which};
pub use roles::{InputRole, OutputShare, Role, Roles, Secret};
pub use sequences::NoMemory;
pub use signal::{BitValue, Bits, Signal, Value};
pub use top_module::top;
pub use tree::{
    Attribute, Cell, Connect, Item, Module, Parameter, ParameterForm, Port, PortConnect, Tree, Wire,
};

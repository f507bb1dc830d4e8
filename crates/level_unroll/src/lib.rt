//! The order in which the cells of a netlist are evaluated.
//!
//! [`levels`] puts each cell after its data sources. It refuses gates that drive one another in a circle, registers
//! whose values depend on themselves, and registers whose reset or enable is not held.
#![tactic(auto)]

mod causes;
mod held;
mod order;
mod queue;
mod unroll;

pub use unroll::levels;

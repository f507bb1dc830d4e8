//! The program accepts each gadget that it makes: no refusal is due for the text of a gadget.
//!
//! The laws say so group by group of causes, and then of all of them together.
#![tactic(auto)]

mod laws;

pub use laws::{gadgets_are_accepted, gadgets_build};

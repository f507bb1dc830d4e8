//! The text of a netlist's tree, after the Yosys RTLIL text representation.
//!
//! [`print_tree`] writes a tree as a text, one statement a line, in one layout. Which text that is is defined in
//! `specs/Printed.antt`. A tree is *printable* where a text can stand for it (`specs/Printable.antt`); a law says that
//! each tree that a text with a top module stands for is printable ([`what_stands_is_printable`]).
#![tactic(auto)]

mod cell;
mod laws;
mod line;
mod print;
mod signal;
mod value;
mod wire;

pub use laws::{lines_are_not_printed, reads_as_printed, what_stands_is_printable};
pub use print::print_tree;

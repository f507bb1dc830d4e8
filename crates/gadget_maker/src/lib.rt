//! Makes a masked AND of any number of shares, as the tree of a netlist.
//!
//! [`make`] gives the domain-oriented AND (Gross, Mangard and Korak, TIS 2016). Share `i` of `a` meets share `j` of `b` in
//! a *product*. Where the shares differ, the two *cross*: their product is *masked* with a random, which it has in common
//! with its mirror, and is kept in a register. Each share of `c` is the sum of one row: the product of both shares of that
//! number, and what the registers of that row keep. A seed chooses which randoms are added negated. What the tree is, is
//! defined in `specs/Gadget.antt`; its lines are those of its printed text.
#![tactic(auto)]

mod cells;
mod gadget;
mod laws;
mod listing;
mod pairs;
mod signals;
mod wires;

pub use gadget::make;
pub use laws::{gadgets_are_printable, mirrors_have_one_random, pairs_are_numbered_in_order};

//! From the bytes of a netlist to what a verdict on it is made from, or the refusal that is due.
//!
//! A netlist is *accepted* for a question where its bytes stand for a tree with a top module, this
//! module has nets, the notes on its ports fit them, its cells can be evaluated, and its probes, the tuples of at most
//! *order* probes, and its terms are within their limits. Of an accepted netlist [`accept`] answers the circuit, the
//! probes, the table that counts their tuples, and the *instance*: the rows and roots that a verdict is made from. Of any
//! other it answers the refusal of the first cause that holds.
#![tactic(auto)]

mod counting;
mod laws;
mod netlist;
mod seeing;

pub use laws::one_netlist_or_refusal;
pub use netlist::{Accepted, accept};

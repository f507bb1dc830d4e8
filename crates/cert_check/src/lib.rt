//! Checking a certificate.
//!
//! A certificate says of each family of tuples of probes under which *hull* its tuples are proved, and by which *cuts*.
//! This crate believes none of it. It keeps the families that *wait*, at first those of all tuples of the order. Each
//! hull is for the first of them: it has to lie in the family's parts and have enough members of each, and its cuts have
//! to be a chain that leaves what the whole hull sees within the family's bound. Then every tuple of the family that lies
//! inside the hull is proved, and the family's children, which have the others, wait in its place. At the last line none
//! waits, so all tuples are proved.
//!
//! [`check`] reads the text line by line, searches for nothing and keeps only the families that wait. `specs/Closing.antt`
//! says which certificates prove an instance, `specs/Stages.antt` what may be said of each line, and `specs/Outcome.antt`
//! what is answered. [`one_outcome`], [`certified_is_proved`] and the other laws do nothing: their contracts are theorems
//! about the definitions.
//!
//! [`entries`] stands on the other side. It makes the entries of a certificate from the families that a search closed
//! (`specs/Entries.antt`): each hull with its least chain. The checker calls nothing of it.
#![tactic(auto)]

mod checked;
mod checker;
mod cuts;
mod due;
mod header;
mod hull;
mod laws;
mod state;
mod taking;
mod tree_entries;

pub use certificate::Why;
pub use checked::Checked;
pub use checker::check;
pub use laws::{
    accepted_is_certified, certified_is_accepted, certified_is_proved, certified_is_simulatable,
    one_outcome, preorder_closes,
};
pub use sequences::NoMemory;
pub use tree_entries::entries;

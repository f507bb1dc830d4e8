//! Tables of names: byte strings, each with a value.
//!
//! A [`NameTable`] finds the value of a name. Names come from strangers, so no choice of names may make it slow. A name
//! stands in one of many *slots*, by a *digest* of its bytes; the names of a slot are linked one to the next, and there
//! are seldom more than two. Where names are chosen so that a slot is *full*, further names of that slot go to an ordered
//! map: so a look-up goes over the names of one full slot at most, and down the map.
#![tactic(auto)]

mod digest;
mod slots;
mod table;

pub use sequences::NoMemory;
pub use table::NameTable;

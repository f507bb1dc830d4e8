//! Plain lists, a type for the fields of public types; and the one name for want of memory.
//!
//! A `Vec` is more than its elements: it has a place in memory and room to spare, so two that hold
//! the same elements are not equal in a contract. A [`Sequence`] is made of a `Vec` and gives it
//! back, and contracts see it as the list of its elements alone. A type whose lists are sequences can
//! be compared with a definition's value.
#![tactic(auto)]

mod no_memory;
mod sequence;

pub use no_memory::NoMemory;
pub use sequence::Sequence;

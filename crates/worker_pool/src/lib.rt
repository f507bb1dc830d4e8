//! The verdict on an instance.
//!
//! [`verify_one`] searches the families of an instance on one thread and waits for nobody. [`verify_in_turns`] has several
//! workers of one thread take turns, as a number draws them. [`verify_by`] chooses between them. The answer is the one that
//! any search has to give: the proof tree, or the first tuple that is not proved.
#![tactic(auto)]

mod found;
mod in_turns;
mod laws;
mod one_thread;
mod search;
mod way;

pub use frontier_core::{NoMemory, Verdict};
pub use in_turns::verify_in_turns;
pub use laws::secure_is_simulatable;
pub use one_thread::verify_one;
pub use way::{Way, verify_by};

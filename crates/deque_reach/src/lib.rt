//! Deques of families, one for each worker. A worker pushes and pops at its own, and steals from the others.
//!
//! The [`Deques`] are shared by all threads; each worker has a [`Reach`], which may move to another thread. A reach
//! has its worker's own deque and a pass for each deque: what a pass knows is what was pushed and taken with it.
//! The *rule of a deque* says of all its passes that what was pushed is what was taken and what stands there, as
//! often, and that what stands there fits (after Chase and Lev, SPAA 2005).
//!
//! A deque that was found empty changes nothing that a proof could see. So each such answer is counted, as each
//! push that was refused is, and no other crate can raise these counts: a family is answered, or a count rose.
#![tactic(auto)]

use std::alloc::AllocError;

mod begin;
mod deques;
mod drain;
mod lane;
mod make;
mod pass_view;
mod reach;
mod rule;

pub use deques::Deques;
pub use drain::drain_deques;
pub use lane::Lane;
pub use make::make_deques;
pub use pass_view::PassView;
pub use reach::Reach;

/// Memory was refused.
pub type NoMemory = AllocError;

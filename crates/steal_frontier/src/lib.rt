//! Families that workers share: each worker has a stack of its own, a deque that others steal from, and the
//! families that it ended.
//!
//! A worker calls by its *seat*, which may move to another thread, while all threads share the [`Frontier`]. With
//! [`Seat::take`] it takes a family, from its own stack, its own deque or the deque of another worker; with
//! [`Seat::give`] it ends the family and gives the children, of which the first goes on the deque, where others find
//! it, and the others on the stack. [`gather`] brings the seats together again.
//!
//! The *balance* of a seat says what it gave from what it has: each family that it gave was pushed on its deque, is on
//! its stack, is held or is ended, unless it came from a deque. So the gathered families are the roots and all that
//! was given, each as often: no schedule loses a family or doubles one (the deques are those of Chase and Lev, SPAA
//! 2005).
#![tactic(auto)]

mod deal;
mod frontier;
mod gathered;
mod give;
mod seat;
mod steal;
mod take;

pub use frontier::Frontier;
pub use gathered::{Gathered, gather};
pub use probe_family::NoMemory;
pub use seat::Seat;
pub use take::Take;

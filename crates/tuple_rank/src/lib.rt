//! Ranks of tuples: the tuples of few numbers below a number, each with its place among them.
//!
//! The tuples of (n, t) are the sets of 1 to min(t, n) of the numbers below n, each as its ascending list.
//! They are ordered by size and then lexicographically, and the *rank* of a tuple is its place in that
//! order, counted from 0. A [`Binomials`] is made for n and t where there are at most 2^62 tuples. It
//! counts them, ranks a tuple and gives the tuple of a rank, from a table of binomial numbers.
#![tactic(auto)]

use arrayvec::ArrayVec;

mod binomials;
mod count_stop;
mod laws;
mod triangle;

pub use binomials::Binomials;
pub use count_stop::CountStop;
pub use laws::{
    choices_are_counted, rank_is_place, rank_keeps_order, tuples_are_all, tuples_ascend,
};

/// A tuple: up to eight numbers, in ascending order.
pub type Tuple = ArrayVec<u32, 8>;

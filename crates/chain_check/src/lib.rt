//! Checking a chain of cuts.
//!
//! A *chain* is a list of rows that are cut one after another, each where that is allowed after those
//! before it; it proves some roots within a bound where it leaves each group of input leaves at most so
//! many live ones. The words are those of `once_random`. [`is_chain`] says of a list of rows whether it is
//! a chain that proves a tuple of probes, and else what is wrong with it. It makes the cuts that it is
//! given and searches for none, so this crate is small: who has a chain needs nothing else to believe what
//! it proves.
#![tactic(auto)]

mod allowed;
mod answer;
mod chain;
mod laws;

pub use answer::ChainAnswer;
pub use chain::is_chain;
pub use laws::{chains_prove, one_answer};

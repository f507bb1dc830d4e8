//! What is asked of a netlist.
//!
//! A [`Question`] is one value: the notion, the order, what a probe sees, and how long the circuit runs. Commands give it, a
//! netlist is accepted for it, and reports and certificates say it: [`notion_word`] and [`model_word`] are the words for it.
#![tactic(auto)]

mod question;
mod words;

pub use question::Question;
pub use words::{model_word, notion_word};

//! The live rows of a table of terms, kept while rows are cut.
//!
//! A row is *live* where the roots of some probes read it; a *cut* row is read no further. [`LiveRows`]
//! keeps a [`Mark`] for each row: whether it is live, how many live *parents* it has, and the exclusive
//! or of their numbers, so that an only parent is known without a search. [`LiveRows::begin`] marks what
//! some probes read, [`LiveRows::cut`] makes one more cut, and what loses its last parent is no longer
//! live. A row that may be read by one parent alone, and is *fresh* (a random leaf, or cut), stands in
//! the list that [`LiveRows::take_alone`] takes from: it may serve a cut of that parent.
//!
//! Tables are read through [`Looks`], one node at a time, and each look is one of the [`Steps`]. Nothing
//! but `make` takes memory, and no call goes through a table's rows but those that are live.
#![tactic(auto)]

mod begin;
mod cut;
mod live_rows;
mod lone;
mod looks;
mod mark;
mod marking;
mod number_list;
mod steps;
mod within;

pub use expr_table::{NoMemory, Node, ProbeRoots, Row};
pub use live_rows::LiveRows;
pub use looks::Looks;
pub use mark::Mark;
pub use steps::Steps;

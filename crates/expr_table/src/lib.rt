//! Terms of masked circuits, each kept once.
//!
//! A *term* is built from the constants Zero and One, input leaves and random leaves by And and Xor.
//! An [`ExprTable`] keeps terms in *rows*: a row holds a [`Node`], whose sides are earlier rows, and no
//! two rows hold the same term. An [`Instance`] is what the engines decide on: a table, the rows that
//! each probe sees, and the groups of the input leaves.
#![tactic(auto)]

mod instance;
mod laws;
mod node;
mod table;

pub use instance::{Instance, Notion, ProbeRoots};
pub use laws::{
    conjunction, exclusive_or, gates_keep_values, limits, one_row_each, structural_order,
    terms_give_nodes,
};
pub use node::{Node, Row};
pub use sequences::NoMemory;
pub use table::{ExprTable, MOST_ROWS, TermStop};

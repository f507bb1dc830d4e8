//! The tree of a netlist text, after the Yosys RTLIL text representation.
//!
//! [`read_tree`] gives the tree that a text stands for, or says why there is none that can be verified. Which tree that is
//! is defined in `specs/Text.antt`, and which refusal a text has in `specs/Refusals.antt`. Laws say that there is at most
//! one tree ([`one_tree`]) and at most one refusal ([`one_refusal`]), and that a text with tokens has one of the two
//! ([`tree_or_refusal`]).
//!
//! The tokens of a text, cut at each end of line, are its *statements*. Which forms a statement may have depends on its
//! *place*: between modules, in a module, or in a cell. What is read so are the statements that `specs/Statements.antt`
//! defines: a law says it of tokens ([`tokens_are_read`]), of signals ([`signals_are_read`]), and of the statements of
//! each place ([`file_statements_are_read`], [`module_statements_are_read`], [`cell_statements_are_read`]).
#![tactic(auto)]

mod cell_body;
mod constant;
mod file_body;
mod keyword;
mod laws;
mod line;
mod lines;
mod misfit;
mod module_body;
mod names;
mod number;
mod options;
mod part;
mod read;
mod signals;
mod statements;
mod string;
mod word;
mod word_laws;

pub use laws::{one_refusal, one_tree, tree_or_refusal};
pub use read::read_tree;
pub use word_laws::{
    cell_statements_are_read, file_statements_are_read, inout_is_left_out,
    module_statements_are_read, signals_are_read, tokens_are_formed, tokens_are_read,
    wires_are_read,
};

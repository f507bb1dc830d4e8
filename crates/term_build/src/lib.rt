//! The terms of a circuit: what each wire computes of the secrets, the public bits and the random bits.
//!
//! A *leaf* is a secret bit or an input bit; the definitions of worlds number them. The *term* of an input bit goes by its role,
//! that of a gate by the formula of the cell table, and that of a flip-flop by what it keeps. The law [`terms_have_values`]
//! says that each term has its wire's value in each world.
//!
//! [`instance`] makes the terms in a fixed order, each in one row of a table, and gives the rows that each probe sees.
#![tactic(auto)]

mod bit_rows;
mod build;
mod cycle_rows;
mod gate_rows;
mod groups;
mod joining;
mod laws;
mod leaves;
mod parts;
mod roots;
mod share_rows;

pub use build::instance;
pub use laws::{one_instance, roots_have_values, shares_join, term_is_by_cells, terms_have_values};

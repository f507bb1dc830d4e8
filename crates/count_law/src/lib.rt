//! What a proof by cuts means: provable tuples are simulatable.
//!
//! Fix the bits of the *input leaves*: the secrets or their shares, and the public bits. The *count* of an observation is
//! how many assignments of the random bits give it. What is observed is *simulatable* from a set of input leaves where any
//! two inputs that agree on the set and on the publics have equal counts. Probing security, non-interference and strong
//! non-interference differ in how many leaves of each secret bit the set may have.
//!
//! No call of this crate runs: each public function is a *law*, whose contract is a theorem about the definitions, and does
//! nothing. [`soundness`] is what the crate is for. It rests on [`cut_keeps_counts`], [`chain_keeps_counts`] and
//! [`terms_give_netlist`].
#![tactic(auto)]

mod counts;
mod cuts;
mod netlist;
mod simulation;

pub use counts::{assignments_are_all, counts_add_up, same_bits_are_equal};
pub use cuts::{chain_keeps_counts, cut_keeps_counts, cuts_make_randoms};
pub use netlist::{
    instances_fit, provable_tuple_is_simulatable, soundness, terms_give_netlist,
    tuple_counts_add_up, tuples_have_bounds,
};
pub use simulation::{
    provable_is_independent, provable_is_simulatable, seen_leaf_is_needed, simulator_knows_the_set,
};

//! What it is that randoms which are used once decide whether probes see too much.
//!
//! A *tuple* of probes sees rows of an instance's table, its *roots*. A row is *live* where the roots
//! read it. An Xor one of whose sides is a random that nothing else reads is as good as that random,
//! whatever its other side is: a *cut* of the row stops reading there, and the row counts as a random
//! from then on (optimistic sampling; Barthe et al., EUROCRYPT 2015). A *chain* is a list of cuts, each
//! allowed after those before it, and the *least chain* always cuts the live row of least number. Where
//! it leaves few enough input leaves of each secret live, the tuple is *proved*.
//!
//! The definitions stand in `specs/`, and here are their laws. The crates above make chains, decide and
//! check by them.
#![tactic(auto)]

mod laws;

pub use laws::{
    least_chain_decides, least_chain_is_full, leaves_by_number, live_is_least, proved_is_provable,
    roots_are_a_set, saturated_chain_decides, saturated_leaves_least, subset_keeps_chain,
    tuples_have_roots, within_is_each_group,
};

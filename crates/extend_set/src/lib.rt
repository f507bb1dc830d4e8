//! Growing what is proved for one tuple into a proof for many.
//!
//! Where the least tuple of a family is provable, so may be more of the family's probes together with it. The
//! *hull* begins as the least tuple, and each probe of the family's parts, in ascending order, joins where all of them
//! together stay provable within the family's bound. What is provable is so for each subset: each tuple inside the
//! hull is proved at once.
//!
//! [`hull`] asks as seldom as it can whether a set is provable. A run of probes that is provable as a whole joins at
//! once; runs grow longer as long as they join, and of one that does not, halving finds the first probe that may
//! not join.
#![tactic(auto)]

mod criterion;
mod extend;
mod growth;
mod laws;
mod runs;

pub use extend::hull;
pub use laws::{
    chain_serves_tuples, hull_is_maximal, hull_is_provable, hull_is_there, hull_lies_between,
    hulls_by_any_criterion,
};
pub use sim_rules::Scratch;

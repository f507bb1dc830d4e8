//! Families: many tuples of probes at once.
//!
//! A [`Family`] has disjoint sets of probes and a number for each of them. It stands for the tuples that take
//! exactly so many probes from each set and no other probe, so one proof can cover many tuples: those whose probes
//! lie in one set, the *hull*. [`roots`] lists the families that a search begins with; each tuple of the order is in
//! exactly one of them.
#![tactic(auto)]

mod choice;
mod ending;
mod family;
mod laws;
mod part;
mod probe_sets;
mod root_families;
mod taken;

pub use choice::{Choice, add_family_over};
pub use ending::{Closed, Ended, Ending};
pub use family::Family;
pub use laws::{
    each_tuple_in_one_root, family_has_tuples, least_is_first, roots_are_families, roots_are_small,
    weight_counts_tuples,
};
pub use part::{Part, Parts};
pub use root_families::roots;
pub use sequences::NoMemory;

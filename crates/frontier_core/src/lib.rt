//! The search through families of tuples: what it finds, and how far it has come.
//!
//! A search begins with the root families, which have all tuples between them. A family whose least tuple is not
//! provable has failed. Else it is *closed* under its hull, and its children, which have the tuples outside the hull,
//! take its place. Where every tuple is proved, the closed families are the *proof tree*: the roots in order, each
//! followed by what its children in order give. Else the answer is the *first* tuple that is not proved.
//!
//! [`work`] does the work on one family. A [`Core`] is the state of a search by several workers: which families are
//! open, which are held, and how the others ended. It does one [`Event`] after the other, and whatever their order, the
//! verdict is the same; [`Core::finish`] does events until nothing is open or held.
#![tactic(auto)]

mod answer;
mod closings;
mod core_state;
mod event;
mod laws;
mod one_family;
mod preorder;
mod schedule;
mod stack;
mod steps;
mod verdict;

pub use core_state::Core;
pub use event::{Event, Stepped};
pub use laws::{
    events_keep_the_search, every_list_of_events_tells_the_verdict,
    family_gives_itself_and_its_children, first_is_the_first_unproved, trees_by_any_criterion,
    verdict_is_one,
};
pub use one_family::{Outcome, work};
pub use probe_family::NoMemory;
pub use stack::stack_up;
pub use verdict::Verdict;

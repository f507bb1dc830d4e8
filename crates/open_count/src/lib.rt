//! Three atomic words that running workers share: how many families are open, which rank is the least that
//! failed, and whether all are to stop.
//!
//! The *open word* counts families that are open or held: it is how the workers know that all is done. The
//! *best word* is the least failed rank, by which work that can no longer matter is left out. The *stop word*
//! tells the others that one of them gave up.
//!
//! A worker calls by its *seat*, a token of no bytes that may move to another thread, while all threads share
//! the table. The seat's *view* is what the worker has done and seen: it exists in the proofs alone. The *rule of
//! the words* ties the three words to all views, and counts the seats: those that a table begins with are all that
//! there are. Each call is one atomic step, which returns at once, takes no memory, keeps the rule and changes its
//! own seat's view alone.
#![tactic(auto)]

use std::alloc::AllocError;

mod best_word;
mod laws;
mod open_word;
mod rule;
mod stop_word;
mod table;
mod view;

pub use laws::views_give_words;
pub use table::{CountSeat, CountTable};
pub use view::CountView;

/// Memory was refused.
pub type NoMemory = AllocError;

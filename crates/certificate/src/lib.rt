//! The text of a certificate, both ways.
//!
//! A certificate says how each tuple of probes was proved, so that a small checker need not search. Its text is lines:
//! three that say what was verified, two for each step of the proof (a *hull*, which is a set of probes, and the rows
//! that are *cut* to prove what it observes), and one that says how many steps there are. `specs/Lines.antt` has the
//! text of each line, and `specs/Certificates.antt` which lines make a certificate and which *fault* comes first in a
//! text that is none.
//!
//! [`write`] gives the text, [`read`] reads one back or answers its fault, and [`read_line`] reads the line at a place,
//! for a checker that goes line by line. Each takes time in proportion to the bytes that it looks at. [`limits`],
//! [`one_line`] and [`one_outcome`] have empty bodies: their contracts are laws of the definitions.
#![tactic(auto)]

mod entries;
mod fault;
mod forms;
mod laws;
mod line;
mod number;
mod numbers;
mod place;
mod reader;
mod reading;
mod words;
mod writing;

pub use entries::{Entries, Entry, Header};
pub use fault::{ReadBad, Why};
pub use laws::{limits, one_line, one_outcome};
pub use line::Line;
pub use place::read_line;
pub use reader::MOST_BYTES;
pub use reading::read;
pub use sequences::NoMemory;
pub use words::{model_word, notion_word};
pub use writing::write;

//! What the notes on the ports of a module say.
//!
//! A note is the text of an attribute `\mask` on an input or output wire, as `share a 0`, `shares a`, `random`, `public`,
//! `clock` or `held 0`. [`roles`] gives the role of each input bit and the shares of the outputs, or refuses notes that
//! are none, inputs without a note, secrets that lack a share or have one twice, and clocks that are used as data.
#![tactic(auto)]

mod clock;
mod direction;
mod laws;
mod lines;
mod mark;
mod note;
mod order;
mod ports;
mod secrets;
mod shares;

pub use laws::{limits, notes_and_texts, one_refusal};
pub use ports::{roles, roles_of};

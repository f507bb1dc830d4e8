//! The commands of the program, over files and a sink that are handed in.
//!
//! [`run_plain`] reads the words of a command. For `verify` it reads the bytes of the netlist that they name, makes the
//! netlist's *instance* if it is accepted, and decides it: either each *tuple* of at most as many probes as the order is
//! provable, or there is a first one that is not. It may keep the proof as a *certificate* in a file, and `check` judges a
//! certificate without a search. For `generate` it makes the text of a gadget's netlist, and for `trial` it verifies that
//! text. A [`Status`] says how the command ended. An answer is *due* where the words and the files call for it: a verdict on
//! the netlist or on a certificate, a refusal, a missing file, the text of a gadget, or how the program is called. Where no
//! call failed, the answer is the one that is due, the sink has taken its *report*, and the certificate, if one is due, is in
//! its file.
#![tactic(auto)]

mod check;
mod files;
mod gadgets;
mod laws;
mod naming;
mod reply;
mod report;
mod run;
mod status;
mod verify;

pub use certificate::Why;
pub use circuit_types::{Refusal, Which};
pub use laws::{
    accepted_is_decided, gadget_is_made, one_answer_is_due, what_was_written_is_accepted,
};
pub use run::run_plain;
pub use status::Status;
pub use tuple_rank::Tuple;

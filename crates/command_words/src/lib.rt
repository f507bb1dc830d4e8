//! The words of the program's commands, read.
//!
//! The words of a command are its name and what stands behind it. The words behind `verify` are *operands*, which
//! stand by their places, and *options*, which stand anywhere among them, each with its *value*, as `--workers 2` or as
//! `--workers=2` (the terms are those of POSIX, "Utility Conventions"). The other commands have operands alone.
//! [`read_words`] gives the [`Command`] that a list of words asks of the program, and nothing for any other list. It
//! takes no memory. Words mean at most one command: [`one_command`].
#![tactic(auto)]

mod command;
mod given;
mod laws;
mod names;
mod number;
mod operands;
mod options;
mod parts;
mod read;

pub use command::{Checking, Command, Gadget, Verification};
pub use laws::one_command;
pub use names::{OptionName, option_word};
pub use read::read_words;

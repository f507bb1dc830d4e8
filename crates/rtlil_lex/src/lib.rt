//! The tokens of a netlist text, after the Yosys RTLIL text representation.
//!
//! A text is gaps and *spellings* in turn. A *gap* is white space, with or without a comment at its end.
//! A spelling has the *form* of a token: a word, an identifier, an integer, bits, a string, a mark, or a
//! line feed; at each place the longest one is taken. The end of the input gives one more end of line.
//! What begins no token is a *fault*, and the first one from the left is answered.
//!
//! [`lex`] reads a text. The other functions have empty bodies: their contracts are laws of the definitions.
#![tactic(auto)]

mod bytes;
mod cursor;
mod fault;
mod forms;
mod laws;
mod lexer;
mod spelling;
mod string;
mod token;

pub use cursor::MOST_BYTES;
pub use fault::LexFault;
pub use laws::{limits, no_token, one_form, one_list, one_outcome};
pub use lexer::lex;
pub use token::{Token, TokenKind};

//! The tokens of a text.

ghost use Rattle.std.specs.Prelude.{◌≤◌, ℕ, List, length, IfOk, IfErr};
ghost use Rattle.rtlil_lex.specs.Tokens.{AreTokens, IsBadByte, IsOpenString, HasFault, AnswersTokens, AnswersFault};
ghost use Rattle.rtlil_lex.specs.declared.token.Token.{Token};
ghost use Rattle.rtlil_lex.specs.declared.fault.LexFault.TheVariants.{BadByte, OpenString};

use crate::cursor::{Cursor, MOST_BYTES};
use crate::fault::LexFault;
use crate::token::Token;
use std::alloc::Global;

/// The tokens of a text, in order, or the first fault from the left.
pub fn lex(alloc: Global, bytes: &[u8]) -> Result<Vec<Token>, LexFault>
    requires { length bytes.now ≤ MOST_BYTES }
    // What is answered holds of the bytes.
    ensures tokens { IfOk result (λ v. AreTokens bytes.now v.items) }
    ensures fault { IfErr result (HasFault bytes.now) }

    // What holds of the bytes is answered, unless memory was refused.
    ensures all_tokens { (tokens : List Token) → AreTokens bytes.now tokens
        → AnswersTokens result tokens }
    ensures all_bad_bytes { (place : ℕ) → IsBadByte bytes.now place
        → AnswersFault result (BadByte place) }
    ensures all_open_strings { (place : ℕ) → IsOpenString bytes.now place
        → AnswersFault result (OpenString place) }
{
    let mut tokens = Vec::new(alloc);
    let mut cursor = Cursor::new(bytes);
    cursor.skip_gap();
    while !cursor.is_at_end() {
        tokens.push(cursor.take_token()?)?;
        cursor.skip_gap();
    }
    tokens.push(cursor.end())?;
    Ok(tokens)
}

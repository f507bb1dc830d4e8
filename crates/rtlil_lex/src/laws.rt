//! What a reader may want to know of the definitions. Each law is a contract over all bytes; its body does nothing.

ghost use Rattle.std.specs.Prelude.{◌≡◌, ℕ, List};
ghost use Rattle.rtlil_lex.specs.Forms.{HasForm, BeginsNoToken};
ghost use Rattle.rtlil_lex.specs.Tokens.{AreTokens, IsBadAt, IsOpen, IsBadByte, IsOpenString, most_bytes};
ghost use Rattle.rtlil_lex.specs.declared.cursor.TheConstants.{MOST_BYTES};
ghost use Rattle.rtlil_lex.specs.declared.token.Token.{Token};
ghost use Rattle.rtlil_lex.specs.declared.token.TokenKind.{TokenKind};

/// The limit of the code is that of the definitions: a text has at most 67,108,864 bytes.
pub fn limits()
    ensures { MOST_BYTES ≡ most_bytes }
{}

/// A spelling has one form.
pub fn one_form()
    ensures { (k l : TokenKind) (s : List ℕ) → HasForm k s → HasForm l s → k ≡ l }
{}

/// No token begins where a bad byte or an open string is answered for.
pub fn no_token()
    ensures bad_byte { (bytes : List ℕ) (offset : ℕ) → IsBadAt bytes offset → BeginsNoToken bytes }
    ensures open_string { (bytes : List ℕ) → IsOpen bytes → BeginsNoToken bytes }
{}

/// At most one list of tokens is that of given bytes.
pub fn one_list()
    ensures { (bytes : List ℕ) (a b : List Token) → AreTokens bytes a → AreTokens bytes b → a ≡ b }
{}

/// Bytes have at most one of tokens, a bad byte and an open string, and a fault at one place alone.
pub fn one_outcome()
    ensures bad_byte { (bytes : List ℕ) (p q : ℕ) → IsBadByte bytes p → IsBadByte bytes q → p ≡ q }
    ensures open_string { (bytes : List ℕ) (p q : ℕ) → IsOpenString bytes p → IsOpenString bytes q → p ≡ q }
    ensures tokens_or_bad { (bytes : List ℕ) (a : List Token) (p : ℕ) → AreTokens bytes a → IsBadByte bytes p → ⊥ }
    ensures tokens_or_open { (bytes : List ℕ) (a : List Token) (p : ℕ) → AreTokens bytes a → IsOpenString bytes p → ⊥ }
    ensures bad_or_open { (bytes : List ℕ) (p q : ℕ) → IsBadByte bytes p → IsOpenString bytes q → ⊥ }
{}

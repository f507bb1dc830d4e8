//! Why a text has no list of tokens.

use std::alloc::AllocFailed;
use thiserror::Error;

/// Why a text has no list of tokens.
#[derive(Clone, Copy, Debug, PartialEq, Eq, Error)]
pub enum LexFault {
    /// No token form fits the byte at this place. In a string it is the backslash of an octal escape above 255.
    #[error("byte {0} begins no token")]
    BadByte(u32),
    /// The double quote at this place is not closed on its line.
    #[error("the string at byte {0} is not closed on its line")]
    OpenString(u32),
    /// Memory was refused.
    #[error("memory was refused")]
    NoMemory,
}

impl<T: Drop> From<AllocFailed<T>> for LexFault {
    ghost use Rattle.std.specs.Prelude.{◌≡◌};
    ghost use Rattle.rtlil_lex.specs.declared.fault.LexFault.TheVariants.{NoMemory};

    ghost from_gives = { λ _ e. e ≡ NoMemory };

    fn from(_: AllocFailed<T>) -> LexFault {
        LexFault::NoMemory
    }
}

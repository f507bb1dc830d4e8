//! Why a statement was not read.

ghost use Rattle.std.specs.Prelude.{◌≡◌};
ghost use Rattle.rtlil_tree.specs.declared.misfit.Misfit.TheVariants.{NoMemory};
ghost use Rattle.circuit_types.specs.declared.refusal.Refusal.TheVariants.{BadForm};
ghost use Rattle.circuit_types.specs.declared.refusal.Stop.TheVariants.{Refused};
ghost use Rattle.rtlil_tree.specs.Inner.Cursor.{part_stop};
ghost use Rattle.rtlil_tree.specs.Inner.Reading.{stop_of, answer_at};

use circuit_types::{Refusal, Stop};
use rtlil_lex::LexFault;
use std::alloc::{AllocError, AllocFailed};

/// Why a statement was not read.
#[derive(Clone, Copy, Debug)]
pub enum Misfit {
    /// It has none of the forms of its place.
    NoForm,
    /// Memory was refused.
    NoMemory,
}

impl From<AllocError> for Misfit {
    ghost from_gives = { λ _ e. e ≡ NoMemory };

    fn from(_error: AllocError) -> Misfit {
        Misfit::NoMemory
    }
}

impl<T: Drop> From<AllocFailed<T>> for Misfit {
    ghost from_gives = { λ _ e. e ≡ NoMemory };

    fn from(_error: AllocFailed<T>) -> Misfit {
        Misfit::NoMemory
    }
}

/// The refusal of a statement without a form, or of a text with something missing at its end.
pub fn bad_form(line: u32) -> Stop
    ensures { result ≡ Refused (BadForm line) }
{
    Stop::Refused(Refusal::BadForm { line })
}

fn stop_at(misfit: Misfit, line: u32) -> Stop
    ensures { result ≡ stop_of misfit line }
{
    match misfit {
        Misfit::NoForm => bad_form(line),
        Misfit::NoMemory => Stop::NoMemory,
    }
}

/// The answer about the statement on the line.
pub fn answer_at<T>(answer: Result<T, Misfit>, line: u32) -> Result<T, Stop>
    ensures { result ≡ answer_at answer line }
{
    match answer {
        Ok(value) => Ok(value),
        Err(misfit) => Err(stop_at(misfit, line)),
    }
}

/// Why a part, which begins on the line, has no tokens. Where a token is bad, the whole text tells on which line it is.
pub fn part_stop(fault: LexFault, line: u32) -> Stop
    ensures { result ≡ part_stop fault line }
{
    match fault {
        LexFault::NoMemory => Stop::NoMemory,
        _ => Stop::Refused(Refusal::BadToken { line }),
    }
}

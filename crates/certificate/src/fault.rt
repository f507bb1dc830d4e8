//! Why a text is no certificate.

ghost use Rattle.std.specs.Prelude.{◌≡◌};
ghost use Rattle.certificate.specs.declared.fault.ReadBad.TheVariants.{NoMemory};

use std::alloc::{AllocError, AllocFailed};

/// What is wrong with a line of a certificate. Reading finds `Form`, `Count` and `Extra`; the others come of comparing
/// the certificate with the instance that it is for.
#[derive(Clone, Copy, Debug, PartialEq, Eq)]
pub enum Why {
    /// A line is due here, and none of its form stands here.
    Form,
    /// The line says something else than is asked of this instance.
    Header,
    /// There is a hull and no family for it, or something behind the last line.
    Extra,
    /// The last line stands here, and families are left.
    Open,
    /// The last line says another number than that of the entries.
    Count,
    /// The hull has a member that its family lacks, or too few members of one of its parts.
    Hull,
    /// A row is not in the table of terms, or its cut is not allowed.
    Cuts,
    /// The cuts leave too many leaves of a secret.
    Bound,
}

/// Why a text is not read.
#[derive(Clone, Copy, Debug, PartialEq, Eq)]
pub enum ReadBad {
    /// The number of the first line with which something is wrong, counted from 1, and what it is.
    Bad { line: u32, why: Why },
    /// Memory was refused.
    NoMemory,
}

impl From<AllocError> for ReadBad {
    ghost from_gives = { λ _ e. e ≡ NoMemory };

    fn from(_error: AllocError) -> ReadBad {
        ReadBad::NoMemory
    }
}

impl<T: Drop> From<AllocFailed<T>> for ReadBad {
    ghost from_gives = { λ _ e. e ≡ NoMemory };

    fn from(_error: AllocFailed<T>) -> ReadBad {
        ReadBad::NoMemory
    }
}

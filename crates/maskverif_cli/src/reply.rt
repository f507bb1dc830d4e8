//! What a command is answered with, until it is written.

ghost use Rattle.std.specs.Prelude.{ℕ, List, Option};
ghost use Rattle.maskverif_cli.specs.Answer.{Refuses};
ghost use Rattle.maskverif_cli.specs.Reply.{CannotFail, Halts};

use crate::report;
use crate::status::Status;
use circuit_types::Refusal;
use sequences::NoMemory;
use std::alloc::Global;

/// A status, the report that is due with it, and the certificate that is to be kept, if one is.
#[derive(Drop)]
pub struct Reply {
    pub status: Status,
    pub text: Vec<u8>,
    pub certificate: Option<Vec<u8>>,
}

/// Why a command goes no further.
#[derive(Drop)]
pub enum Halt {
    /// This answer is due.
    Due(Reply),
    /// A call to the files failed.
    ReadFault,
    /// Memory was refused.
    NoMemory,
}

impl From<NoMemory> for Halt {
    ghost use Rattle.std.specs.Prelude.{◌≡◌};
    ghost use Rattle.maskverif_cli.specs.declared.reply.Halt.TheVariants.{NoMemory};

    ghost from_gives = { λ _ e. e ≡ NoMemory };

    fn from(_: NoMemory) -> Halt {
        Halt::NoMemory
    }
}

/// The refusal is due.
pub fn refused(alloc: Global, refusal: Refusal) -> Halt
    ensures { (wish : Option (List ℕ)) → Halts (Refuses refusal) wish CannotFail result }
{
    match report::refused(alloc, refusal) {
        Ok(text) => Halt::Due(Reply {
            status: Status::Refused(refusal),
            text,
            certificate: None,
        }),
        Err(_) => Halt::NoMemory,
    }
}

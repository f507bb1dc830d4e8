//! Sending a whole text.

ghost use Rattle.std.specs.Prelude.{◌≡◌, ◌≤◌, ℕ, OnOk, OnErr};
ghost use Rattle.mv_files.specs.Counts.{Rose};
ghost use Rattle.mv_files.specs.Told.{WhereTold};
ghost use Rattle.mv_files.specs.Sending.{Adds, AddsPart};

use crate::failed::Failed;
use crate::sink::Sink;

/// The output failed, and counted a fault.
#[derive(Debug, Drop, thiserror::Error)]
#[error("the output cannot be written")]
pub struct WriteFault;

impl From<Failed> for WriteFault {
    fn from(_: Failed) -> WriteFault {
        WriteFault
    }
}

/// Sends all the bytes, in as many calls as it takes: none for an empty text, and none after all was taken. After a
/// fault the sink has taken a first part of them, and not all.
pub fn send_whole<O: Sink>(out: &mut O, bytes: &[u8]) -> Result<(), WriteFault>
    ensures sent { OnOk result (WhereTold (Adds bytes.now) (O.written out.old) (O.written out.new)) }
    ensures faultless { OnOk result (O.faults out.new ≡ O.faults out.old) }
    ensures part { OnErr result (AddsPart bytes.now (O.written out.old) (O.written out.new)) }
    ensures write_fault { OnErr result (Rose (O.faults out.old) (O.faults out.new)) }

    // With every answer.
    ensures later { O.faults out.old ≤ O.faults out.new }
{
    let mut unsent = bytes;
    while !unsent.is_empty() {
        let taken = out.write(unsent)?;
        unsent = &unsent[taken..];
    }
    Ok(())
}

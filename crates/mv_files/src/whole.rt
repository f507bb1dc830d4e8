//! Reading a file to its end.

ghost use Rattle.std.specs.Prelude.{◌≡◌, ◌≤◌, ℕ, IfOk, Err, vec_len};
ghost use Rattle.mv_files.specs.Counts.{Rose};
ghost use Rattle.mv_files.specs.Told.{WhereTold};
ghost use Rattle.mv_files.specs.Disk.{SameFiles, IsWhole, IsMissing, IsLonger};

use crate::failed::Failed;
use crate::files::Files;
use sequences::NoMemory;
use std::alloc::Global;

/// How many bytes one call asks for.
const BLOCK: usize = 4096;

/// Why a file was not read whole.
#[derive(Debug, Drop, thiserror::Error)]
pub enum ReadStop {
    /// No file of the name is there.
    #[error("no such file")]
    Missing,
    /// The files failed, and counted a read fault.
    #[error("the file cannot be read")]
    ReadFault,
    /// The file is longer than the limit.
    #[error("the file is too long")]
    TooLong,
    /// Memory was refused.
    #[error("memory was refused")]
    NoMemory,
}

impl From<Failed> for ReadStop {
    ghost use Rattle.std.specs.Prelude.{◌≡◌};
    ghost use Rattle.mv_files.specs.declared.whole.ReadStop.TheVariants.{ReadFault};

    ghost from_gives = { λ _ e. e ≡ ReadFault };

    fn from(_: Failed) -> ReadStop {
        ReadStop::ReadFault
    }
}

impl From<NoMemory> for ReadStop {
    ghost use Rattle.std.specs.Prelude.{◌≡◌};
    ghost use Rattle.mv_files.specs.declared.whole.ReadStop.TheVariants.{NoMemory};

    ghost from_gives = { λ _ e. e ≡ NoMemory };

    fn from(_: NoMemory) -> ReadStop {
        ReadStop::NoMemory
    }
}

/// All bytes of the file of this name, where it has at most `limit` bytes.
///
/// The bytes of the files stay as they are; which one is open may change.
pub fn read_whole<F: Files>(
    alloc: Global,
    files: &mut F,
    name: &str,
    limit: u64,
) -> Result<Vec<u8>, ReadStop>
    ensures whole { IfOk result (λ bytes. IsWhole name.now (F.disk files.old) bytes.items) }
    ensures short { IfOk result (λ bytes. vec_len bytes ≤ limit) }
    ensures missing { result ≡ Err ReadStop.Missing → IsMissing name.now (F.disk files.old) }
    ensures read_fault { result ≡ Err ReadStop.ReadFault → Rose (F.read_faults files.old) (F.read_faults files.new) }
    ensures too_long { result ≡ Err ReadStop.TooLong → IsLonger name.now (F.disk files.old) limit }

    // What stays, with every answer.
    ensures same { WhereTold SameFiles (F.disk files.old) (F.disk files.new) }
    ensures later { F.read_faults files.old ≤ F.read_faults files.new }
    ensures faultless { (result ≡ Err ReadStop.ReadFault → ⊥) → F.read_faults files.new ≡ F.read_faults files.old }
    ensures write_faults { F.write_faults files.new ≡ F.write_faults files.old }
{
    if !files.open_file(name)? {
        return Err(ReadStop::Missing);
    }
    let mut bytes = Vec::new(alloc);
    let mut buffer = [0; BLOCK];
    while bytes.len() as u64 <= limit {
        let taken = files.read(&mut buffer)?;
        if taken == 0 {
            return Ok(bytes);
        }
        bytes.extend_from_slice(&buffer[..taken])?;
    }
    Err(ReadStop::TooLong)
}

//! Writing a whole file.

ghost use Rattle.std.specs.Prelude.{◌≡◌, ◌≤◌, ℕ, OnOk, OnErr};
ghost use Rattle.mv_files.specs.Counts.{Rose};
ghost use Rattle.mv_files.specs.Told.{WhereTold};
ghost use Rattle.mv_files.specs.Disk.{Holds, HoldsPart};

use crate::files::Files;
use crate::send::WriteFault;

/// Creates the file of this name, in the place of one that is there, and writes all the bytes to it, in as many calls as
/// it takes: none for an empty text, and none after all was taken.
///
/// After a fault all files hold what they held, where the file was not created; else this one holds a first part of the
/// bytes, and not all.
pub fn write_whole<F: Files>(files: &mut F, name: &str, bytes: &[u8]) -> Result<(), WriteFault>
    ensures written { OnOk result (WhereTold (Holds name.now bytes.now) (F.disk files.old) (F.disk files.new)) }
    ensures faultless { OnOk result (F.write_faults files.new ≡ F.write_faults files.old) }
    ensures part { OnErr result (WhereTold (HoldsPart name.now bytes.now) (F.disk files.old) (F.disk files.new)) }
    ensures write_fault { OnErr result (Rose (F.write_faults files.old) (F.write_faults files.new)) }

    // With every answer.
    ensures later { F.write_faults files.old ≤ F.write_faults files.new }
    ensures read_faults { F.read_faults files.new ≡ F.read_faults files.old }
{
    files.create(name)?;
    let mut unwritten = bytes;
    while !unwritten.is_empty() {
        let taken = files.write(unwritten)?;
        unwritten = &unwritten[taken..];
    }
    Ok(())
}

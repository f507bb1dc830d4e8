//! Named files, of which one may be open.

ghost use Rattle.std.specs.Prelude.{◌≡◌, ◌<◌, ℕ, Bool, Option, false, is_ok, length, take, IfOk, OnOk, OnErr, IsTrue};
ghost use Rattle.std.specs.Result.{result_unwrap_or};
ghost use Rattle.std.specs.Io.{ReadsAtMost};
ghost use Rattle.mv_files.specs.Counts.{CountsFaults};
ghost use Rattle.mv_files.specs.Told.{WhereTold};
ghost use Rattle.mv_files.specs.Disk.{Disk, Closes, Opens, Reads, Creates, Appends};
ghost use Rattle.mv_files.specs.Sending.{TakesSome};

use crate::failed::Failed;

/// Files by name. At most one is open: for reading, or for writing where it was created.
///
/// A call that fails has counted a fault, and no other call counts one: a read fault in `open_file` and `read`, a
/// write fault in `create` and `write`. The counts stand still at `u64::MAX`.
pub trait Files {
    // What stands in the files and what is open, where this is told.
    ghost disk: { Self → Option Disk };

    // Whether a file is open for reading.
    ghost is_reading: { Self → Bool };

    // Whether a file is open for writing.
    ghost is_writing: { Self → Bool };

    // How many faults of opening and reading were counted.
    ghost read_faults: { Self → ℕ };

    // How many faults of creating and writing were counted.
    ghost write_faults: { Self → ℕ };

    /// Closes what is open, and opens the file of this name for reading, from its start. Answers `false` exactly where
    /// no such file is there. Then, and after a failure, no file is open.
    fn open_file(&mut self, name: &str) -> Result<bool, Failed>
        ensures opens { IfOk result (λ found. WhereTold (Opens name.now found) (disk self.old) (disk self.new)) }
        ensures closes { OnErr result (WhereTold Closes (disk self.old) (disk self.new)) }
        ensures reading { is_reading self.new ≡ result_unwrap_or result false }
        ensures writing { is_writing self.new ≡ false }
        ensures faults { CountsFaults (read_faults self.old) (read_faults self.new) result }
        ensures other_faults { write_faults self.new ≡ write_faults self.old };

    /// Reads the next bytes of the open file into the front of the buffer, and answers how many: none exactly at the
    /// end of the file. A failure leaves the place in the file as it was.
    fn read(&mut self, buf: &mut [u8]) -> Result<usize, Failed>
        requires reading { IsTrue (is_reading self.old) }
        requires some { 0 < length buf.old }
        ensures bound { ReadsAtMost result buf.new }
        ensures reads { IfOk result (λ n. WhereTold (Reads n buf.new) (disk self.old) (disk self.new)) }
        ensures unread { OnErr result (disk self.new ≡ disk self.old) }
        ensures reading { IsTrue (is_reading self.new) }
        ensures writing { is_writing self.new ≡ is_writing self.old }
        ensures faults { CountsFaults (read_faults self.old) (read_faults self.new) result }
        ensures other_faults { write_faults self.new ≡ write_faults self.old };

    /// Closes what is open, makes an empty file of this name, in the place of one that is there, and opens it for
    /// writing. A failure leaves all files as they were, and none open.
    fn create(&mut self, name: &str) -> Result<(), Failed>
        ensures creates { OnOk result (WhereTold (Creates name.now) (disk self.old) (disk self.new)) }
        ensures closes { OnErr result (WhereTold Closes (disk self.old) (disk self.new)) }
        ensures reading { is_reading self.new ≡ false }
        ensures writing { is_writing self.new ≡ is_ok result }
        ensures faults { CountsFaults (write_faults self.old) (write_faults self.new) result }
        ensures other_faults { read_faults self.new ≡ read_faults self.old };

    /// Adds a first part of the bytes at the end of the created file, and answers how many: at least one. A failure
    /// leaves all as it was.
    fn write(&mut self, bytes: &[u8]) -> Result<usize, Failed>
        requires writing { IsTrue (is_writing self.old) }
        requires some { 0 < length bytes.now }
        ensures takes { IfOk result (λ n. TakesSome n bytes.now) }
        ensures writes { IfOk result (λ n. WhereTold (Appends (take n bytes.now)) (disk self.old) (disk self.new)) }
        ensures unwritten { OnErr result (disk self.new ≡ disk self.old) }
        ensures reading { is_reading self.new ≡ is_reading self.old }
        ensures writing { IsTrue (is_writing self.new) }
        ensures faults { CountsFaults (write_faults self.old) (write_faults self.new) result }
        ensures other_faults { read_faults self.new ≡ read_faults self.old };
}

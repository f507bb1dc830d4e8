//! Calls that are tried again while they are interrupted, and the counting of faults.

ghost use Rattle.std.specs.Prelude.{◌≡◌, ◌<◌, length, IfOk};
ghost use Rattle.std.specs.Io.{ReadsAtMost};
ghost use Rattle.mv_files.specs.Counts.{counted};
ghost use Rattle.mv_files.specs.Sending.{TakesSome};

use std::io::{self, ErrorKind, Read, Write};

/// How often a call is tried while it is interrupted.
pub const MOST_TRIES: u32 = 16;

/// One more fault; the count stands still at its end.
pub fn counted(faults: u64) -> u64
    ensures { result ≡ counted faults }
{
    faults.saturating_add(1)
}

/// Reads some bytes. An interrupted call is tried again.
pub fn read_some<S: Read>(source: &mut S, buffer: &mut [u8]) -> io::Result<usize>
    ensures { ReadsAtMost result buffer.new }
{
    for _ in 0..MOST_TRIES {
        match source.read(buffer) {
            Err(error) if error.kind() == ErrorKind::Interrupted => {}
            done => return done,
        }
    }
    Err(io::Error::from(ErrorKind::Interrupted))
}

/// Writes some bytes. An interrupted call is tried again, and one that takes nothing of them fails.
pub fn write_some<T: Write>(target: &mut T, bytes: &[u8]) -> io::Result<usize>
    requires { 0 < length bytes.now }
    ensures { IfOk result (λ n. TakesSome n bytes.now) }
{
    for _ in 0..MOST_TRIES {
        match target.write(bytes) {
            Err(error) if error.kind() == ErrorKind::Interrupted => {}
            Ok(0) => return Err(io::Error::from(ErrorKind::WriteZero)),
            done => return done,
        }
    }
    Err(io::Error::from(ErrorKind::Interrupted))
}

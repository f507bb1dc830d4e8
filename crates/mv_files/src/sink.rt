//! What takes the bytes of a report.

ghost use Rattle.std.specs.Prelude.{◌≡◌, ◌<◌, ℕ, List, length, Option, take, IfOk, OnErr};
ghost use Rattle.mv_files.specs.Counts.{CountsFaults};
ghost use Rattle.mv_files.specs.Told.{WhereTold};
ghost use Rattle.mv_files.specs.Sending.{TakesSome, Adds};

use crate::failed::Failed;

/// Takes bytes, one part after another. A call that fails has counted a fault, and no other call counts one. The
/// count stands still at `u64::MAX`.
pub trait Sink {
    // The bytes that it took, where this is told.
    ghost written: { Self → Option (List ℕ) };

    // How many faults were counted.
    ghost faults: { Self → ℕ };

    /// Takes a first part of the bytes, and answers how many: at least one. A failure leaves what was written as it
    /// was.
    fn write(&mut self, bytes: &[u8]) -> Result<usize, Failed>
        requires { 0 < length bytes.now }
        ensures takes { IfOk result (λ n. TakesSome n bytes.now) }
        ensures writes { IfOk result (λ n. WhereTold (Adds (take n bytes.now)) (written self.old) (written self.new)) }
        ensures unwritten { OnErr result (written self.new ≡ written self.old) }
        ensures faults { CountsFaults (faults self.old) (faults self.new) result };
}

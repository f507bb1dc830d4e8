//! How a command ended, and its exit status.

ghost use Rattle.std.specs.Prelude.{◌≡◌};

use certificate::Why;
use circuit_types::Refusal;
use tuple_rank::Tuple;

/// How a command ended.
#[derive(Debug, Drop)]
pub enum Status {
    /// The rules prove each tuple of probes.
    Secure,
    /// The first tuple of probes that the rules do not prove, by size and then lexicographically.
    Unproved(Tuple),
    /// The certificate proves that each tuple of probes is provable.
    Accepted,
    /// It does not: this is its first line with which something is wrong, and what that is.
    Rejected { line: u32, why: Why },
    /// The gadget's netlist is made.
    Made,
    /// The words are no command.
    Usage,
    /// The netlist is not accepted, or a certificate is too long.
    Refused(Refusal),
    /// There is no netlist of the name, or no certificate.
    NoFile,
    /// A call to the files failed while the netlist or the certificate was read.
    ReadFault,
    /// A call to the files failed while the certificate was written, or one to the sink while it took the report.
    WriteFault,
    /// Memory was refused. The sink and the files hold what they held.
    NoMemory,
}

impl Status {
    ghost use Rattle.maskverif_cli.specs.Status.{exit_code};

    /// The exit status of the program.
    pub fn code(&self) -> u8
        ensures { result ≡ exit_code self.now }
    {
        match self {
            Status::Secure | Status::Accepted | Status::Made => 0,
            Status::Unproved(_) | Status::Rejected { .. } => 1,
            Status::Usage => 2,
            Status::Refused(_) => 3,
            Status::NoFile => 4,
            Status::ReadFault => 5,
            Status::WriteFault => 6,
            Status::NoMemory => 7,
        }
    }
}

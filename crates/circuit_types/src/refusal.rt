//! Why a netlist is refused.

ghost use Rattle.std.specs.Prelude.{◌≡◌};
ghost use Rattle.circuit_types.specs.declared.refusal.Stop.TheVariants.{Refused, NoMemory};

use std::alloc::{AllocError, AllocFailed};

/// What there is too much of.
#[derive(Clone, Copy, Debug, PartialEq, Eq)]
pub enum Which {
    /// More than 67,108,864 bytes in the netlist file.
    FileBytes,
    /// More than 1,048,576 bits in the wires of the top module.
    NetBits,
    /// More than 1,048,576 cells in the top module.
    Cells,
    /// More than 1,048,576 bits in one signal.
    SignalWidth,
    /// More than 65,535 probes.
    Probes,
    /// More than 16,777,216 sources seen by all probes together.
    Seen,
    /// More than 2^62 tuples of probes.
    Tuples,
    /// More than 524,288 rows in the table of terms.
    Terms,
    /// More than 268,435,456 bytes in the certificate file.
    CertificateBytes,
    /// More than 4,194,304 wires, connects, cells and replaced instances in a flattened netlist.
    Flat,
}

/// Why a netlist is not accepted; the first cause in this order is answered, `BadForm` and
/// `UnsupportedStatement` by their place in the file, and each limit at its own place. Of the last six, which no step
/// gives yet, `ShareMixed` stands before the number of tuples and the others before the number of bits. A line's number
/// is one more than the line feeds before it; each cause has the least line at which it stands.
#[derive(Clone, Copy, Debug, PartialEq, Eq)]
pub enum Refusal {
    /// A byte begins no token, or a string is not closed on its line.
    BadToken { line: u32 },
    /// A statement has none of the forms that may stand at its place, or something is missing at the end of
    /// the input.
    BadForm { line: u32 },
    /// There is no one module to be verified.
    NoTop,
    /// A `process`, a `memory`, or a wire with `inout`.
    UnsupportedStatement { line: u32 },
    /// A cell of an unknown kind whose name begins with `$`.
    UnsupportedCell { line: u32 },
    /// A cell whose kind is a module of the user's.
    Hierarchy { line: u32 },
    /// A signal names a wire that the module lacks.
    NoWire { line: u32 },
    /// A slice takes a place that its signal lacks, or its high place is below its low one.
    BadSlice { line: u32 },
    /// The sides of a connect differ in width, or a port's signal is not one bit wide.
    WidthMismatch { line: u32 },
    /// A cell lacks a port of its kind.
    PortMissing { line: u32 },
    /// A bit is driven twice, or a constant bit is driven.
    TwoDrivers { line: u32 },
    /// What is read has no driver.
    Undriven { line: u32 },
    /// What is read is a constant bit that is neither 0 nor 1.
    UnknownBit { line: u32 },
    /// There is too much of something.
    Limit(Which),
    /// A note that is none of the notes' forms, or that stands where it may not.
    NoteForm { line: u32 },
    /// An input wire has no note.
    NoteMissing { line: u32 },
    /// A secret bit lacks a share.
    ShareGap { line: u32 },
    /// A share is given twice.
    ShareDouble { line: u32 },
    /// A second clock, a register that is clocked by something else, or a clock that is read.
    ClockUse { line: u32 },
    /// Gates drive one another in a circle.
    GateLoop { line: u32 },
    /// A register's value depends on itself.
    RegisterLoop { line: u32 },
    /// A register's reset is not held inactive.
    ResetNotHeld { line: u32 },
    /// A register's enable is not held active.
    EnableNotHeld { line: u32 },
    /// Output share bits of two indices end at the source of one probe.
    ShareMixed { line: u32 },
    /// A word cell lacks what its kind needs, or does not fit it.
    CoarseForm { line: u32 },
    /// A cell whose kind begins with a backslash and is no module of the file.
    NoModule { line: u32 },
    /// An instance of a module that is the one it stands in or contains it.
    Recursion { line: u32 },
    /// An instance has a parameter, a connect to what is no port of its module, or a signal of another width.
    InstancePort { line: u32 },
    /// Two wires or two cells get one name once instances are replaced.
    NameTwice { line: u32 },
}

/// Why a step from the text to the verdict stopped.
#[derive(Clone, Copy, Debug, PartialEq, Eq)]
pub enum Stop {
    Refused(Refusal),
    /// Memory was refused.
    NoMemory,
}

impl From<Refusal> for Stop {
    ghost from_gives = { λ refusal e. e ≡ Refused refusal };

    fn from(refusal: Refusal) -> Stop {
        Stop::Refused(refusal)
    }
}

impl From<AllocError> for Stop {
    ghost from_gives = { λ _ e. e ≡ NoMemory };

    fn from(_error: AllocError) -> Stop {
        Stop::NoMemory
    }
}

impl<T: Drop> From<AllocFailed<T>> for Stop {
    ghost from_gives = { λ _ e. e ≡ NoMemory };

    fn from(_error: AllocFailed<T>) -> Stop {
        Stop::NoMemory
    }
}

//! What words may ask.

use verify_question::Question;

/// A netlist is to be verified.
#[derive(Clone, Copy)]
pub struct Verification<'a> {
    pub question: Question,
    pub netlist: &'a str,
    /// The number of workers, 1 to 64.
    pub workers: u32,
    /// The file for a certificate; not the netlist.
    pub certificate: Option<&'a str>,
    /// The seed of a schedule.
    pub schedule: Option<u64>,
}

/// A certificate for a netlist is to be checked.
#[derive(Clone, Copy)]
pub struct Checking<'a> {
    pub question: Question,
    pub netlist: &'a str,
    /// Not the netlist.
    pub certificate: &'a str,
}

/// A masked AND.
#[derive(Clone, Copy)]
pub struct Gadget {
    pub seed: u64,
    /// The number of shares, 2 to 16.
    pub shares: u32,
}

/// A command.
#[derive(Clone, Copy)]
pub enum Command<'a> {
    Verify(Verification<'a>),
    Check(Checking<'a>),
    /// A gadget's netlist is to be written.
    Generate(Gadget),
    /// A gadget is to be verified.
    Trial(Gadget),
}

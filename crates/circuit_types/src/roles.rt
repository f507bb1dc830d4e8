//! What the notes on a netlist's ports say of their bits.

use sequences::Sequence;

/// What an input bit is.
#[derive(Clone, Copy, Debug, PartialEq, Eq)]
pub enum Role {
    /// This share of this secret bit, by its place among the secrets.
    Share { secret: u32, share: u32 },
    /// A uniform bit that is independent of all else.
    Random,
    /// A known bit.
    Public,
    /// The clock.
    Clock,
    /// A constant.
    Held(bool),
}

/// A bit of a secret that is shared.
#[derive(Debug, Drop)]
pub struct Secret {
    pub name: Sequence<u8>,
    pub bit: u32,
}

/// An input bit by its number, and what it is.
#[derive(Clone, Copy, Debug, PartialEq, Eq)]
pub struct InputRole {
    pub bit: u32,
    pub role: Role,
}

/// An output bit by its number, and which share of which output secret it is.
#[derive(Clone, Copy, Debug, PartialEq, Eq)]
pub struct OutputShare {
    pub bit: u32,
    pub secret: u32,
    pub share: u32,
}

/// What the notes say.
#[derive(Debug, Drop)]
pub struct Roles {
    /// How many shares each secret bit has, 0 where there are no share notes.
    pub shares: u32,
    /// The shared bits of the inputs, in the order of their first shares in port order.
    pub secrets: Sequence<Secret>,
    /// The input bits, in port order: by port number, then file order, then place in the wire.
    pub inputs: Sequence<InputRole>,
    /// The shared bits of the outputs, in the order of their first shares in port order.
    pub output_secrets: Sequence<Secret>,
    /// The output bits that are shares, in port order.
    pub outputs: Sequence<OutputShare>,
}

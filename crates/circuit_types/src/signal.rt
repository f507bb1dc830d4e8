//! Constants, and the signals that connects join.

use crate::name::Name;
use sequences::Sequence;
use sqlite_items::{Boxed, Items};

/// One written bit of a constant.
#[derive(Clone, Copy, Debug, PartialEq, Eq)]
pub enum BitValue {
    Zero,
    One,
    X,
    Z,
    M,
    Dash,
}

/// A constant of written bits. Where fewer bits are written than the width, the most significant ones are
/// missing.
#[derive(Debug, Drop)]
pub struct Bits {
    /// How many bits the constant has, at most 1,048,576.
    pub width: u32,
    /// The written bits, most significant first.
    pub written: Sequence<BitValue>,
}

/// A constant.
#[derive(Debug, Drop)]
pub enum Value {
    Bits(Bits),
    Number(i32),
    /// The bytes of a string, escapes read.
    Text(Sequence<u8>),
}

/// What a connect joins.
#[derive(Debug, Drop)]
pub enum Signal<'a> {
    Value(Value),
    /// All bits of the wire of this name.
    Wire(Name<'a>),
    /// The bits of a signal from place `high` down to place `low`, counted from 0 at the least significant.
    Slice {
        of: Boxed<Signal<'a>>,
        high: u32,
        low: u32,
    },
    /// The bits of all parts, the most significant part first.
    Join(Items<Signal<'a>>),
}

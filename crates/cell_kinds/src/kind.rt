//! The kinds of cells as plain data.
/// A cell: a gate, whose output follows its inputs, or a flip-flop, which keeps one bit.
#[derive(Clone, Copy, Debug, PartialEq, Eq)]
pub enum CellKind {
    Gate(GateKind),
    Flop(Flop),
}

/// The gates, as the Yosys internal cell library names them.
#[derive(Clone, Copy, Debug, PartialEq, Eq)]
pub enum GateKind {
    Buf,
    Not,
    And,
    Nand,
    Or,
    Nor,
    Xor,
    Xnor,
    Andnot,
    Ornot,
    Mux,
    Nmux,
    Aoi3,
    Oai3,
    Aoi4,
    Oai4,
}

/// A flip-flop: it takes its data input at one edge of its clock.
#[derive(Clone, Copy, Debug, PartialEq, Eq)]
pub struct Flop {
    /// The edge is the rising one.
    pub rising: bool,
    pub reset: Option<Reset>,
    /// There is an enable input, and whether it is active high.
    pub enable: Option<bool>,
}

/// The reset input of a flip-flop.
#[derive(Clone, Copy, Debug, PartialEq, Eq)]
pub struct Reset {
    /// It is active high.
    pub high: bool,
    /// What the flip-flop holds after a reset.
    pub value: bool,
    /// It acts at the clock's edge alone.
    pub synchronous: bool,
}

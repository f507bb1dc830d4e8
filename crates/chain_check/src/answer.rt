//! What a list of cuts is.

/// What a list of cuts is for the roots of some probes and a bound.
#[derive(Clone, Copy, Debug, PartialEq, Eq)]
pub enum ChainAnswer {
    /// It is a chain, and leaves each group of input leaves live ones within the bound.
    Holds,
    /// The cut at this place is the first that is not allowed after those before it.
    BadCut(u32),
    /// It is a chain, and leaves some group more live input leaves than the bound.
    OverBound,
}

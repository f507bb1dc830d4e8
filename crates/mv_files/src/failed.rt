//! The error of a single call.

/// A call to the outside failed. The object that answered it counted a fault.
#[derive(Debug, Drop, thiserror::Error)]
#[error("a call to the outside failed")]
pub struct Failed;

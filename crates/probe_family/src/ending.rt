//! How the work on a family ends.
use crate::family::Family;
use bit_rows::BitRow;

/// A family and a hull inside which its tuples are proved.
#[derive(Drop)]
pub struct Closed {
    pub family: Family,
    pub hull: BitRow,
}

/// How the search ended a family.
#[derive(Drop)]
pub enum Ending {
    /// The tuples inside the hull are proved, and the others are those of the family's children.
    Proved { hull: BitRow },
    /// The least tuple, which has this rank, is not provable.
    Failed { rank: u64 },
    /// A tuple that is not provable has this rank, and the family has none of lesser rank.
    Beyond { best: u64 },
}

/// A family that the search has ended, and how.
#[derive(Drop)]
pub struct Ended {
    pub family: Family,
    pub how: Ending,
}

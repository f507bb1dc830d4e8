//! What a search has found.
ghost use Rattle.std.specs.Prelude.{◌≡◌, OnOk};
ghost use Rattle.worker_pool.specs.Found.{Closes, best_of, verdict_of};

use bit_rows::BitRow;
use frontier_core::{NoMemory, Verdict};
use probe_family::{Closed, Family};
use tuple_rank::Tuple;

/// What a search has found so far.
#[derive(Drop)]
pub enum Found {
    /// No tuple has failed: the closed families, in the order in which they were closed.
    Closed(Vec<Closed>),
    /// The first of the tuples that have failed, and its rank.
    Failed { tuple: Tuple, rank: u64 },
}

impl Found {
    /// The rank of the tuple that has failed.
    pub fn best(&self) -> Option<u64>
        ensures { result ≡ best_of self.now }
    {
        match self {
            Found::Closed(_) => None,
            Found::Failed { rank, .. } => Some(*rank),
        }
    }

    /// Closes a family under its hull, unless a tuple has failed.
    pub fn close(&mut self, family: Family, hull: BitRow) -> Result<(), NoMemory>
        ensures { OnOk result (Closes family hull self.old self.new) }
    {
        match self {
            Found::Closed(closed) => {
                closed.push(Closed { family, hull })?;
                Ok(())
            }
            Found::Failed { .. } => Ok(()),
        }
    }

    /// The verdict, once no family waits.
    pub fn into_verdict(self) -> Verdict
        ensures { result ≡ verdict_of self }
    {
        match self {
            Found::Closed(closed) => Verdict::Secure(closed),
            Found::Failed { tuple, .. } => Verdict::Unproved(tuple),
        }
    }
}

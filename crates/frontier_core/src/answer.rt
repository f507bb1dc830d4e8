//! What a core has found once it is idle.
ghost use Rattle.std.specs.Prelude.{◌≡◌, ◌≤◌, ℕ, [], All, IfOk, IsFalse, MatchOption};
ghost use Rattle.expr_table.specs.declared.instance.Instance.{Instance};
ghost use Rattle.expr_table.specs.Table.{has};
ghost use Rattle.probe_family.specs.declared.ending.Ended.{Ended};
ghost use Rattle.probe_family.specs.Families.{total_take};
ghost use Rattle.frontier_core.specs.Answer.{IsFailedTuple, IsLeast, IsSearchOf};
ghost use Rattle.frontier_core.specs.Balance.{failed_rank, failed_ranks};
ghost use Rattle.frontier_core.specs.Core.{IsIdle};
ghost use Rattle.frontier_core.specs.Verdict.{IsVerdict};

use crate::core_state::Core;
use crate::preorder::in_preorder;
use crate::verdict::Verdict;
use probe_family::{Ended, Ending, NoMemory};
use tuple_rank::Tuple;

/// The least of some ranks.
pub fn least(ranks: &[u64]) -> Option<u64>
    ensures { MatchOption result (ranks.now ≡ []) (IsLeast ranks.now) }
{
    let mut least = *ranks.first()?;
    for rank in ranks {
        least = least.min(*rank);
    }
    Some(least)
}

/// Whether a family failed with this rank.
fn has_failed(how: &Ending, rank: u64) -> bool
    ensures { result ≡ has (failed_rank how.now) rank }
{
    match how {
        Ending::Failed { rank: failed } => *failed == rank,
        _ => false,
    }
}

/// The least tuple of a family that failed with this rank.
fn failed_tuple(ended: &[Ended], rank: u64) -> Option<Tuple>
    requires { All (λ (e : Ended). total_take e.family.parts ≤ 8) ended.now }
    ensures { MatchOption result (IsFalse (has (failed_ranks ended.now) rank))
        (λ tuple. IsFailedTuple ended.now rank tuple.items) }
{
    for one in ended {
        if has_failed(&one.how, rank) {
            return Some(one.family.least());
        }
    }
    None
}

impl Core {
    /// The verdict of a search that is over. It is the same whatever happened in whatever order. A refusal drops the
    /// core.
    pub fn verdict(self) -> Result<Verdict, NoMemory>
        requires idle { IsIdle self }
        requires search { (x : Instance) × (t : ℕ) × IsSearchOf x t self }
        ensures { IfOk result (λ verdict. (x : Instance) (t : ℕ) → IsSearchOf x t self → IsVerdict x t verdict) }
    {
        let Core {
            roots,
            ended,
            failed,
            ..
        } = self;
        let alloc = *roots.allocator();
        let Some(rank) = least(&failed) else {
            return Ok(Verdict::Secure(in_preorder(alloc, roots, ended)?));
        };
        let Some(tuple) = failed_tuple(&ended, rank) else {
            unreachable!()
        };
        Ok(Verdict::Unproved(tuple))
    }
}

//! The work on one family.
ghost use Rattle.std.specs.Prelude.{◌≡◌, ◌≤◌, IfOk, length};
ghost use Rattle.expr_table.specs.Instance.{IsFitting};
ghost use Rattle.probe_family.specs.Families.{IsFamily};
ghost use Rattle.extend_set.specs.Hull.{hull_of};
ghost use Rattle.frontier_core.specs.Work.{IsOutcome};

use bit_rows::BitRow;
use expr_table::Instance;
use extend_set::hull;
use family_split::children;
use probe_family::{Family, NoMemory};
use sim_rules::Scratch;
use std::alloc::Global;
use tuple_rank::{Binomials, Tuple};

/// How the work on a family comes out.
#[derive(Drop)]
pub enum Outcome {
    /// The tuples inside the hull are proved, and the others are those of the children.
    Proved { hull: BitRow, children: Vec<Family> },
    /// The least tuple, which has this rank, is not proved.
    Failed { tuple: Tuple, rank: u64 },
    /// No tuple has a lesser rank than the best known one.
    Beyond { best: u64 },
}

/// The hull of a family; None where its least tuple is not provable.
pub fn find_hull(
    alloc: Global,
    instance: &Instance,
    scratch: &mut Scratch,
    family: &Family,
) -> Result<Option<BitRow>, NoMemory>
    requires fitting { IsFitting instance.now }
    requires made_for { scratch.old ≡ length instance.now.table.nodes }
    requires family { IsFamily (length instance.now.probes) family.now }
    ensures stays_fit { scratch.new ≡ scratch.old }
    ensures hull { IfOk result (λ hull. hull ≡ hull_of instance.now family.now) }
{
    let mut set = BitRow::make(alloc, instance.probes.as_slice().len() as u32)?;
    match hull(instance, scratch, family, &mut set) {
        Some(()) => Ok(Some(set)),
        None => Ok(None),
    }
}

/// Works on a family. `best` is the rank of a tuple that is known not to be proved: a family whose least tuple has no
/// lesser rank is left alone.
pub fn work(
    alloc: Global,
    instance: &Instance,
    counts: &Binomials,
    scratch: &mut Scratch,
    family: &Family,
    best: Option<u64>,
) -> Result<Outcome, NoMemory>
    requires fitting { IsFitting instance.now }
    requires made_for { scratch.old ≡ length instance.now.table.nodes }
    requires family { IsFamily (length instance.now.probes) family.now }
    requires counted { counts.now.n ≡ length instance.now.probes }
    requires size { family.now.size ≤ counts.now.t }
    ensures stays_fit { scratch.new ≡ scratch.old }
    ensures outcome { IfOk result (IsOutcome instance.now counts.now.t family.now best) }
{
    let tuple = family.least();
    let rank = counts.rank(&tuple);
    if let Some(best) = best {
        if best <= rank {
            return Ok(Outcome::Beyond { best });
        }
    }
    match find_hull(alloc, instance, scratch, family)? {
        Some(hull) => {
            let children = children(alloc, family, &hull)?;
            Ok(Outcome::Proved { hull, children })
        }
        None => Ok(Outcome::Failed { tuple, rank }),
    }
}

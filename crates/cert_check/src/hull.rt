//! Hulls for a family.
ghost use Rattle.std.specs.Prelude.{◌≡◌, IfOk};
ghost use Rattle.std.specs.List.{list_all};
ghost use Rattle.bit_rows.specs.Sets.{is_in};
ghost use Rattle.probe_family.specs.Families.{is_in_part};
ghost use Rattle.cert_check.specs.Closing.{has_take, hull_set, is_hull_for};
ghost use Rattle.cert_check.specs.Sound.{with_number};

use bit_rows::BitRow;
use probe_family::{Family, Part};
use sequences::NoMemory;
use std::alloc::Global;

fn has(part: &Part, p: u32) -> bool
    ensures { result ≡ is_in part.now.set p }
{
    p < part.set.len() && part.set.get(p)
}

fn is_in_part(parts: &[Part], p: u32) -> bool
    ensures { result ≡ is_in_part parts.now p }
{
    parts.iter().any(|part| has(part, p))
}

/// Whether as many of the numbers are in the part's set as it takes, or more.
fn has_take(hull: &[u32], part: &Part) -> bool
    ensures { result ≡ has_take hull.now part.now }
{
    hull.iter().filter(|p| has(part, **p)).count() >= part.take as usize
}

/// Whether each number is in the set of some part.
fn are_in_parts(parts: &[Part], hull: &[u32]) -> bool
    ensures { result ≡ list_all (is_in_part parts.now) hull.now }
{
    hull.iter().all(|p| is_in_part(parts, *p))
}

/// Whether each part has its take among the numbers.
fn have_takes(parts: &[Part], hull: &[u32]) -> bool
    ensures { result ≡ list_all (has_take hull.now) parts.now }
{
    parts.iter().all(|part| has_take(hull, part))
}

/// Whether the numbers are a hull for the family.
pub fn is_hull_for(family: &Family, hull: &[u32]) -> bool
    ensures { result ≡ is_hull_for family.now hull.now }
{
    let parts = family.parts.as_slice();
    are_in_parts(parts, hull) && have_takes(parts, hull)
}

/// Adds the number, where it is below the set's length.
fn add(set: &mut BitRow, p: u32)
    ensures { set.new ≡ with_number set.old p }
{
    if p < set.len() {
        set.set(p);
    }
}

/// The set of the hull's numbers that are below `n`.
pub fn hull_set(alloc: Global, n: u32, hull: &[u32]) -> Result<BitRow, NoMemory>
    ensures { IfOk result (λ set. set ≡ hull_set n hull.now) }
{
    let mut set = BitRow::make(alloc, n)?;
    for i in 0..hull.len() {
        add(&mut set, hull[i]);
    }
    Ok(set)
}

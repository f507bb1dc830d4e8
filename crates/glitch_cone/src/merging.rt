//! The union of two ascending lists of numbers.
ghost use Rattle.std.specs.Prelude.{◌≡◌, IfOk};
ghost use Rattle.glitch_cone.specs.Numbers.{AscendsFrom, IsUnion, least_first, past};

use circuit_types::NoMemory;
use std::alloc::Global;

/// The numbers that stand in either list, ascending.
pub fn merge(alloc: Global, left: &[u32], right: &[u32]) -> Result<Vec<u32>, NoMemory>
    requires left { AscendsFrom 0 left.now }
    requires right { AscendsFrom 0 right.now }
    ensures { IfOk result (λ merged. IsUnion left.now right.now merged.items) }
{
    let mut merged = Vec::new(alloc);
    let mut lefts = left;
    let mut rights = right;
    while let Some(least) = least_first(lefts, rights) {
        merged.push(least)?;
        lefts = past(least, lefts);
        rights = past(least, rights);
    }
    Ok(merged)
}

/// The lesser one of the first numbers of both lists.
fn least_first(left: &[u32], right: &[u32]) -> Option<u32>
    ensures { result ≡ least_first left.now right.now }
{
    match left {
        [] => match right {
            [] => None,
            [y, ..] => Some(*y),
        },
        [x, ..] => match right {
            [] => Some(*x),
            [y, ..] => Some((*x).min(*y)),
        },
    }
}

/// The list without the number, if it begins with it.
fn past(number: u32, list: &[u32]) -> &[u32]
    ensures { result.now ≡ past number list.now }
{
    match list {
        [first, rest @ ..] => { if *first == number { rest } else { list } }
        [] => list,
    }
}

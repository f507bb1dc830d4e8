//! Pairs of shares, and the randoms of those that cross.

ghost use Rattle.std.specs.Prelude.{◌≡◌, ◌≤◌, ◌<◌, ◌*◌, ◌++◌, IfOk, OnOk};
ghost use Rattle.gadget_maker.specs.Gadget.{pairs as pairs_of, row_of_pairs, pairs_before, pair_number, crossings_at, row_of_crossings, crossings as crossings_of};

use circuit_types::NoMemory;
use std::alloc::Global;

/// A share of the one operand and a share of the other.
#[derive(Clone, Copy, Debug)]
pub struct Pair {
    pub first: u32,
    pub second: u32,
}

/// Two different shares, and the number of the random that they have in common with their mirror.
#[derive(Clone, Copy, Debug)]
pub struct Crossing {
    pub first: u32,
    pub second: u32,
    pub random: u32,
}

fn push_row(pairs: &mut Vec<Pair>, shares: u32, first: u32) -> Result<(), NoMemory>
    ensures { OnOk result (pairs.new.items ≡ pairs.old.items ++ row_of_pairs shares first) }
{
    for second in 0..shares {
        pairs.push(Pair { first, second })?;
    }
    Ok(())
}

/// Each share with each share, in row order.
#[tactic(auto, unfolding(crate::specs::Gadget::pairs))]
pub fn pairs(alloc: Global, shares: u32) -> Result<Vec<Pair>, NoMemory>
    ensures { IfOk result (λ list. list.items ≡ pairs_of shares) }
{
    let mut pairs = Vec::new(alloc);
    for first in 0..shares {
        push_row(&mut pairs, shares, first)?;
    }
    Ok(pairs)
}

/// How many pairs, the lesser share first, begin with a share below this one.
fn pairs_before(shares: u32, first: u32) -> u32
    requires few { shares ≤ 16 }
    requires within { first < shares }
    ensures value { result ≡ pairs_before shares first }
    ensures small { result ≤ 16 * first }
{
    let mut number = 0;
    for before in 0..first {
        number += shares - 1 - before;
    }
    number
}

/// The number of a pair, the lesser share first.
fn pair_number(shares: u32, first: u32, second: u32) -> u32
    requires few { shares ≤ 16 }
    requires order { first < second }
    requires within { second < shares }
    ensures { result ≡ pair_number shares first second }
{
    pairs_before(shares, first) + (second - first - 1)
}

/// Puts the two shares behind others, if they differ.
fn push_crossing(
    crossings: &mut Vec<Crossing>,
    shares: u32,
    first: u32,
    second: u32,
) -> Result<(), NoMemory>
    requires few { shares ≤ 16 }
    requires row { first < shares }
    requires column { second < shares }
    ensures { OnOk result (crossings.new.items ≡ crossings.old.items ++ crossings_at shares first second) }
{
    if first < second {
        let random = pair_number(shares, first, second);
        crossings.push(Crossing {
            first,
            second,
            random,
        })?;
    } else if second < first {
        let random = pair_number(shares, second, first);
        crossings.push(Crossing {
            first,
            second,
            random,
        })?;
    }
    Ok(())
}

fn push_crossings(crossings: &mut Vec<Crossing>, shares: u32, first: u32) -> Result<(), NoMemory>
    requires few { shares ≤ 16 }
    requires row { first < shares }
    ensures { OnOk result (crossings.new.items ≡ crossings.old.items ++ row_of_crossings shares first) }
{
    for second in 0..shares {
        push_crossing(crossings, shares, first, second)?;
    }
    Ok(())
}

/// Each share with each other share, in row order.
#[tactic(auto, unfolding(crate::specs::Gadget::crossings))]
pub fn crossings(alloc: Global, shares: u32) -> Result<Vec<Crossing>, NoMemory>
    requires { shares ≤ 16 }
    ensures { IfOk result (λ list. list.items ≡ crossings_of shares) }
{
    let mut crossings = Vec::new(alloc);
    for first in 0..shares {
        push_crossings(&mut crossings, shares, first)?;
    }
    Ok(crossings)
}

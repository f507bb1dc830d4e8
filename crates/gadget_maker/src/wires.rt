//! The wires.

ghost use Rattle.std.specs.Prelude.{◌≤◌, OnOk, length};
ghost use Rattle.std.specs.List.{flat_map};
ghost use Rattle.gadget_maker.specs.Gadget.{ports, name_of, product_wires, crossing_wires, sum_wires, inner_wires};
ghost use Rattle.gadget_maker.specs.Listed.{Puts, HasRoom};

use crate::listing::Listing;
use crate::pairs::{Crossing, Pair};
use crate::signals::{name, pair_count};
use circuit_types::{NoMemory, Port};
use std::alloc::Global;

/// Puts the ports.
pub fn put_ports(listing: &mut Listing, alloc: Global, shares: u32) -> Result<(), NoMemory>
    requires some { 2 ≤ shares }
    requires few { shares ≤ 16 }
    requires room { HasRoom listing.old 5 }
    ensures { OnOk result (Puts listing.old listing.new 5 (ports shares)) }
{
    listing.put_port(alloc, b"\\clk", 1, Port::Input(1), b"clock")?;
    listing.put_port(alloc, b"\\a", shares, Port::Input(2), b"shares a")?;
    listing.put_port(alloc, b"\\b", shares, Port::Input(3), b"shares b")?;
    let randoms = pair_count(shares);
    listing.put_port(alloc, b"\\r", randoms, Port::Input(4), b"random")?;
    listing.put_port(alloc, b"\\c", shares, Port::Output(5), b"shares c")
}

fn put_product(listing: &mut Listing, alloc: Global, pair: Pair) -> Result<(), NoMemory>
    requires { HasRoom listing.old 1 }
    ensures { OnOk result (Puts listing.old listing.new 1 (product_wires pair)) }
{
    let name = name(alloc, b'p', pair.first, pair.second)?;
    listing.put_inner(alloc, name)
}

fn put_products(listing: &mut Listing, alloc: Global, pairs: &[Pair]) -> Result<(), NoMemory>
    requires { HasRoom listing.old (length pairs.now) }
    ensures { OnOk result (Puts listing.old listing.new (length pairs.now) (flat_map product_wires pairs.now)) }
{
    for pair in pairs {
        put_product(listing, alloc, *pair)?;
    }
    Ok(())
}

fn put_crossing(
    listing: &mut Listing,
    alloc: Global,
    letter: u8,
    crossing: Crossing,
) -> Result<(), NoMemory>
    requires { HasRoom listing.old 1 }
    ensures { OnOk result (Puts listing.old listing.new 1 (crossing_wires (name_of letter) crossing)) }
{
    let name = name(alloc, letter, crossing.first, crossing.second)?;
    listing.put_inner(alloc, name)
}

/// Puts the wires of the crossings that are named by this letter.
fn put_crossings(
    listing: &mut Listing,
    alloc: Global,
    letter: u8,
    crossings: &[Crossing],
) -> Result<(), NoMemory>
    requires { HasRoom listing.old (length crossings.now) }
    ensures { OnOk result (Puts listing.old listing.new (length crossings.now)
        (flat_map (crossing_wires (name_of letter)) crossings.now)) }
{
    for crossing in crossings {
        put_crossing(listing, alloc, letter, *crossing)?;
    }
    Ok(())
}

/// Puts the wire of a row's sum after so many steps, unless that is the first product or a share of the output.
fn put_sum(listing: &mut Listing, alloc: Global, shares: u32, pair: Pair) -> Result<(), NoMemory>
    requires some { 2 ≤ shares }
    requires room { HasRoom listing.old 1 }
    ensures { OnOk result (Puts listing.old listing.new 1 (sum_wires shares pair)) }
{
    if 0 < pair.second && pair.second < shares - 1 {
        let name = name(alloc, b'u', pair.first, pair.second)?;
        listing.put_inner(alloc, name)?;
    }
    Ok(())
}

fn put_sums(
    listing: &mut Listing,
    alloc: Global,
    shares: u32,
    pairs: &[Pair],
) -> Result<(), NoMemory>
    requires some { 2 ≤ shares }
    requires room { HasRoom listing.old (length pairs.now) }
    ensures { OnOk result (Puts listing.old listing.new (length pairs.now) (flat_map (sum_wires shares) pairs.now)) }
{
    for pair in pairs {
        put_sum(listing, alloc, shares, *pair)?;
    }
    Ok(())
}

/// Puts the inner wires.
pub fn put_inner_wires(
    listing: &mut Listing,
    alloc: Global,
    shares: u32,
    pairs: &[Pair],
    crossings: &[Crossing],
) -> Result<(), NoMemory>
    requires some { 2 ≤ shares }
    requires few_pairs { length pairs.now ≤ 256 }
    requires few_crossings { length crossings.now ≤ 256 }
    requires room { HasRoom listing.old 1024 }
    ensures { OnOk result (Puts listing.old listing.new 1024 (inner_wires shares pairs.now crossings.now)) }
{
    put_products(listing, alloc, pairs)?;
    put_crossings(listing, alloc, b'q', crossings)?;
    put_crossings(listing, alloc, b'z', crossings)?;
    put_sums(listing, alloc, shares, pairs)
}

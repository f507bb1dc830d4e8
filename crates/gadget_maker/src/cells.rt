//! The cells.

ghost use Rattle.std.specs.Prelude.{◌≡◌, ◌≤◌, OnOk, length};
ghost use Rattle.std.specs.List.{flat_map};
ghost use Rattle.gadget_maker.specs.Gadget.{masking_kind, product_cells, masking_cells, register_cells, sum_cells, all_cells};
ghost use Rattle.gadget_maker.specs.Listed.{Puts, HasRoom};

use crate::listing::Listing;
use crate::pairs::{Crossing, Pair};
use crate::signals::{bit_of, inner, random_bit, steps_before, sum_after};
use circuit_types::NoMemory;
use std::alloc::Global;

fn put_product(listing: &mut Listing, alloc: Global, pair: Pair) -> Result<(), NoMemory>
    requires { HasRoom listing.old 1 }
    ensures { OnOk result (Puts listing.old listing.new 1 (product_cells pair)) }
{
    let a = bit_of(alloc, b"\\a", pair.first)?;
    let b = bit_of(alloc, b"\\b", pair.second)?;
    let product = inner(alloc, b'p', pair.first, pair.second)?;
    listing.put_gate(alloc, b"$_AND_", a, b, product)
}

fn put_products(listing: &mut Listing, alloc: Global, pairs: &[Pair]) -> Result<(), NoMemory>
    requires { HasRoom listing.old (length pairs.now) }
    ensures { OnOk result (Puts listing.old listing.new (length pairs.now) (flat_map product_cells pairs.now)) }
{
    for pair in pairs {
        put_product(listing, alloc, *pair)?;
    }
    Ok(())
}

/// The gate that adds the random of a number.
fn masking_kind(seed: u64, random: u32) -> &'static [u8]
    ensures { result.now ≡ masking_kind seed random }
{
    if (seed >> (random % 64)) % 2 == 1 {
        b"$_XNOR_".as_slice()
    } else {
        b"$_XOR_".as_slice()
    }
}

fn put_masking(
    listing: &mut Listing,
    alloc: Global,
    seed: u64,
    shares: u32,
    crossing: Crossing,
) -> Result<(), NoMemory>
    requires some { 2 ≤ shares }
    requires few { shares ≤ 16 }
    requires room { HasRoom listing.old 1 }
    ensures { OnOk result (Puts listing.old listing.new 1 (masking_cells seed shares crossing)) }
{
    let kind = masking_kind(seed, crossing.random);
    let product = inner(alloc, b'p', crossing.first, crossing.second)?;
    let random = random_bit(alloc, shares, crossing.random)?;
    let masked = inner(alloc, b'q', crossing.first, crossing.second)?;
    listing.put_gate(alloc, kind, product, random, masked)
}

fn put_maskings(
    listing: &mut Listing,
    alloc: Global,
    seed: u64,
    shares: u32,
    crossings: &[Crossing],
) -> Result<(), NoMemory>
    requires some { 2 ≤ shares }
    requires few { shares ≤ 16 }
    requires room { HasRoom listing.old (length crossings.now) }
    ensures { OnOk result (Puts listing.old listing.new (length crossings.now)
        (flat_map (masking_cells seed shares) crossings.now)) }
{
    for crossing in crossings {
        put_masking(listing, alloc, seed, shares, *crossing)?;
    }
    Ok(())
}

fn put_register(listing: &mut Listing, alloc: Global, crossing: Crossing) -> Result<(), NoMemory>
    requires { HasRoom listing.old 1 }
    ensures { OnOk result (Puts listing.old listing.new 1 (register_cells crossing)) }
{
    let masked = inner(alloc, b'q', crossing.first, crossing.second)?;
    let kept = inner(alloc, b'z', crossing.first, crossing.second)?;
    listing.put_register(alloc, masked, kept)
}

fn put_registers(
    listing: &mut Listing,
    alloc: Global,
    crossings: &[Crossing],
) -> Result<(), NoMemory>
    requires { HasRoom listing.old (length crossings.now) }
    ensures { OnOk result (Puts listing.old listing.new (length crossings.now) (flat_map register_cells crossings.now)) }
{
    for crossing in crossings {
        put_register(listing, alloc, *crossing)?;
    }
    Ok(())
}

/// Puts the step of a row's sum for one share.
fn put_sum(
    listing: &mut Listing,
    alloc: Global,
    shares: u32,
    crossing: Crossing,
) -> Result<(), NoMemory>
    requires some { 2 ≤ shares }
    requires room { HasRoom listing.old 1 }
    ensures { OnOk result (Puts listing.old listing.new 1 (sum_cells shares crossing)) }
{
    let steps = steps_before(crossing.first, crossing.second);
    let before = sum_after(alloc, shares, crossing.first, steps)?;
    let kept = inner(alloc, b'z', crossing.first, crossing.second)?;
    let after = sum_after(alloc, shares, crossing.first, steps + 1)?;
    listing.put_gate(alloc, b"$_XOR_", before, kept, after)
}

fn put_sums(
    listing: &mut Listing,
    alloc: Global,
    shares: u32,
    crossings: &[Crossing],
) -> Result<(), NoMemory>
    requires some { 2 ≤ shares }
    requires room { HasRoom listing.old (length crossings.now) }
    ensures { OnOk result (Puts listing.old listing.new (length crossings.now)
        (flat_map (sum_cells shares) crossings.now)) }
{
    for crossing in crossings {
        put_sum(listing, alloc, shares, *crossing)?;
    }
    Ok(())
}

/// Puts the cells.
pub fn put_cells(
    listing: &mut Listing,
    alloc: Global,
    seed: u64,
    shares: u32,
    pairs: &[Pair],
    crossings: &[Crossing],
) -> Result<(), NoMemory>
    requires some { 2 ≤ shares }
    requires few { shares ≤ 16 }
    requires few_pairs { length pairs.now ≤ 256 }
    requires few_crossings { length crossings.now ≤ 256 }
    requires room { HasRoom listing.old 1024 }
    ensures { OnOk result (Puts listing.old listing.new 1024 (all_cells seed shares pairs.now crossings.now)) }
{
    put_products(listing, alloc, pairs)?;
    put_maskings(listing, alloc, seed, shares, crossings)?;
    put_registers(listing, alloc, crossings)?;
    put_sums(listing, alloc, shares, crossings)
}

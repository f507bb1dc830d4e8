//! The gadget.

ghost use Rattle.std.specs.Prelude.{◌≡◌, ◌≤◌, ◌∷◌, [], length, IfOk, codes};
ghost use Rattle.gadget_maker.specs.Gadget.{items_from, gadget as gadget_of, top_mark};
ghost use Rattle.gadget_maker.specs.Listed.{placed};

use crate::cells::put_cells;
use crate::listing::Listing;
use crate::pairs::{Crossing, Pair, crossings, pairs};
use crate::wires::{put_inner_wires, put_ports};
use circuit_types::{Attribute, Item, Module, Name, NoMemory, Tree, Value};
use sequences::Sequence;
use std::alloc::Global;

/// The mark of the module that is verified.
fn top_mark() -> Attribute<'static>
    ensures { result ≡ top_mark }
{
    Attribute {
        name: Name::in_text(b"\\top"),
        value: Value::Number(1),
    }
}

/// The tree of these items.
fn tree_of(alloc: Global, items: Vec<Item<'static>>) -> Result<Tree<'static>, NoMemory>
    ensures { IfOk result (λ tree. tree ≡ record {
      modules = record {
        line = 2;
        name = codes "\\gadget";
        attributes = top_mark ∷ [];
        items = items.entry.items;
      } ∷ [];
    }) }
{
    let mut attributes = Vec::new(alloc);
    attributes.push(top_mark())?;
    let mut modules = Vec::new(alloc);
    modules.push(Module {
        line: 2,
        name: Name::in_text(b"\\gadget"),
        attributes: Sequence::from_vec(attributes),
        items: Sequence::from_vec(items),
    })?;
    Ok(Tree {
        modules: Sequence::from_vec(modules),
    })
}

/// The items, the first on the third line.
fn items_of(
    alloc: Global,
    seed: u64,
    shares: u32,
    pairs: &[Pair],
    crossings: &[Crossing],
) -> Result<Vec<Item<'static>>, NoMemory>
    requires some { 2 ≤ shares }
    requires few { shares ≤ 16 }
    requires few_pairs { length pairs.now ≤ 256 }
    requires few_crossings { length crossings.now ≤ 256 }
    ensures { IfOk result (λ items. items.items ≡ placed 3 0 (items_from seed shares pairs.now crossings.now)) }
{
    let mut listing = Listing {
        items: Vec::new(alloc),
        line: 3,
        cells: 0,
    };
    put_ports(&mut listing, alloc, shares)?;
    put_inner_wires(&mut listing, alloc, shares, pairs, crossings)?;
    put_cells(&mut listing, alloc, seed, shares, pairs, crossings)?;
    Ok(listing.items)
}

/// The domain-oriented AND of so many shares, as a netlist's tree with the lines of its printed text. Bit `n` of the seed,
/// counted round in 64 bits, says whether the random of the pair of number `n` is added negated.
#[tactic(auto, unfolding(crate::specs::Gadget::gadget, crate::specs::Gadget::gadget_module))]
pub fn make(alloc: Global, seed: u64, shares: u32) -> Result<Tree<'static>, NoMemory>
    requires some { 2 ≤ shares }
    requires few { shares ≤ 16 }
    ensures { IfOk result (λ tree. tree ≡ gadget_of seed shares) }
{
    let pairs = pairs(alloc, shares)?;
    let crossings = crossings(alloc, shares)?;
    let items = items_of(alloc, seed, shares, &pairs, &crossings)?;
    tree_of(alloc, items)
}

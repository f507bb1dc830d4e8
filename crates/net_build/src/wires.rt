//! The wires of a module, their bits, and their names.

ghost use Rattle.std.specs.Prelude.{◌≡◌, ◌+◌, ◌<◌, ◌≤◌, ◌++◌, [], ◌∷◌, All, IfOk, IfErr, IfSome};
ghost use Rattle.circuit_types.specs.Items.{net_wires as net_wires_of, numbered, wires as wires_among, bit_count};
ghost use Rattle.circuit_types.specs.Nets.{most_bits};
ghost use Rattle.circuit_types.specs.declared.refusal.Refusal.TheVariants.{Limit};
ghost use Rattle.circuit_types.specs.declared.refusal.Which.TheVariants.{NetBits};
ghost use Rattle.net_build.specs.Spans.{KnowsSpans, span_named, span_of};
ghost use Rattle.net_build.specs.Stops.{IfRefused};

use circuit_types::{Item, NetWire, NoMemory, Refusal, Stop, Which, Wire};
use name_table::NameTable;
use sequences::Sequence;
use std::alloc::Global;

/// The most bits that all wires may have together.
pub const MOST_BITS: u32 = 1_048_576;

/// Where the bits of a wire are.
#[derive(Clone, Copy)]
pub struct Span {
    pub first: u32,
    pub width: u32,
}

/// The wires of a module, and where the bits of each name are.
#[derive(Drop)]
pub struct Wires<'a> {
    pub list: &'a [NetWire],
    spans: NameTable<'a, Span>,
    ghost within: { All (λ w. w.first + w.width ≤ most_bits) list.now },
    ghost known: { KnowsSpans list.now spans },
}

impl<'a> Wires<'a> {
    pub fn new(alloc: Global, list: &'a [NetWire]) -> Result<Wires<'a>, NoMemory>
        requires { All (λ w. w.first + w.width ≤ most_bits) list.now }
        ensures { IfOk result (λ wires. wires.list.now ≡ list.now) }
    {
        let mut spans = NameTable::new(alloc);
        for wire in list {
            spans.add(wire.name.as_slice(), span_of(wire))?;
        }
        Ok(Wires { list, spans })
    }

    /// Where the bits of the wire of this name are, or None where there is no such wire.
    pub fn find(&self, name: &[u8]) -> Option<Span>
        ensures named { result ≡ span_named self.now.list.now name.now }
        ensures within { IfSome result (λ span. span.first + span.width ≤ most_bits) }
    {
        self.spans.find(name)
    }
}

fn span_of(wire: &NetWire) -> Span
    ensures { result ≡ span_of wire.now }
{
    Span {
        first: wire.first,
        width: wire.width,
    }
}

/// The wires of a module with the numbers of their bits.
pub fn net_wires(alloc: Global, items: &[Item<'_>]) -> Result<Vec<NetWire>, Stop>
    ensures wires { IfOk result (λ ws. ws.items ≡ net_wires_of items.now) }
    ensures few { IfOk result (λ ws. bit_count ws.items ≤ most_bits) }
    ensures within { IfOk result (λ ws. All (λ w. w.first + w.width ≤ most_bits) ws.items) }
    ensures many { IfErr result (λ stop. IfRefused stop (λ r. (r ≡ Limit NetBits)
        × (most_bits < bit_count (net_wires_of items.now)))) }
{
    let mut wires = Vec::new(alloc);
    let mut first = 0;
    for item in items {
        first = push_wire(alloc, item, first, &mut wires)?;
    }
    Ok(wires)
}

/// Puts the wire that the item may be behind others; answers how many bits all have.
fn push_wire(
    alloc: Global,
    item: &Item<'_>,
    first: u32,
    wires: &mut Vec<NetWire>,
) -> Result<u32, Stop>
    requires { first ≤ most_bits }
    ensures wires { IfOk result (λ next. wires.new.items ≡ wires.old.items ++ numbered first (wires_among (item.now ∷ []))) }
    ensures next { IfOk result (λ next. next ≡ first + bit_count (numbered first (wires_among (item.now ∷ [])))) }
    ensures few { IfOk result (λ next. next ≤ most_bits) }
    ensures many { IfErr result (λ stop. IfRefused stop (λ r. (r ≡ Limit NetBits)
        × (most_bits < first + bit_count (numbered first (wires_among (item.now ∷ [])))))) }
{
    let Item::Wire(wire) = item else {
        return Ok(first);
    };
    if wire.width > MOST_BITS - first {
        return Err(Stop::Refused(Refusal::Limit(Which::NetBits)));
    }
    wires.push(net_wire(alloc, wire, first)?)?;
    Ok(first + wire.width)
}

fn net_wire(alloc: Global, wire: &Wire<'_>, first: u32) -> Result<NetWire, NoMemory>
    ensures { IfOk result (λ w. w ≡ record {
      line = wire.now.line;
      name = wire.now.name;
      first = first;
      width = wire.now.width;
      port = wire.now.port;
    }) }
{
    Ok(NetWire {
        line: wire.line,
        name: Sequence::from_vec(Vec::from_slice(alloc, wire.name.as_slice())?),
        first,
        width: wire.width,
        port: wire.port,
    })
}

//! How wide a signal is, and whether its names and slices are good.

ghost use Rattle.std.specs.Prelude.{◌≡◌, ◌+◌, ◌≤◌, ◌&&◌, true, min, nat_lt, nat_le};
ghost use Rattle.circuit_types.specs.Bits.{value_width as width_of_value};
ghost use Rattle.circuit_types.specs.Signals.{shape, slice_width};
ghost use Rattle.net_build.specs.Shapes.{cap, capped, whole as whole_of};

use crate::wires::Wires;
use circuit_types::{Signal, Value};

/// The most bits that one signal may have.
const MOST_WIDTH: u64 = 1_048_576;

/// A width from which on widths are not told apart. No slice reaches so far.
const CAP: u64 = 8_589_934_592;

/// What a signal is like.
#[derive(Clone, Copy)]
pub struct Shape {
    /// How many bits it has, or `CAP` where it has more.
    pub width: u64,
    /// Neither it nor a signal inside it is wider than a signal may be.
    pub narrow: bool,
    /// Each wire that it names is there.
    pub named: bool,
    /// Each slice takes places that its signal has.
    pub sliced: bool,
}

/// What a signal is like.
pub fn shape_of(wires: &Wires<'_>, signal: &Signal<'_>) -> Shape
    ensures { result ≡ capped (shape wires.now.list.now signal.now) }
{
    match signal {
        Signal::Value(value) => plain(value_width(value)),
        Signal::Wire(name) => match wires.find(name.as_slice()) {
            None => Shape {
                width: 0,
                narrow: true,
                named: false,
                sliced: true,
            },
            Some(span) => plain(span.width as u64),
        },
        Signal::Slice { of, high, low } => {
            let of = shape_of(wires, of.get());
            sliced(of, *high, *low)
        }
        Signal::Join(parts) => {
            let mut joined = Shape {
                width: 0,
                narrow: true,
                named: true,
                sliced: true,
            };
            for part in parts.as_slice() {
                joined = beside(joined, shape_of(wires, part));
            }
            whole(joined)
        }
    }
}

/// The shape of a signal that has no parts.
fn plain(width: u64) -> Shape
    ensures { result ≡ record { width = min width cap; narrow = nat_le width MOST_WIDTH; named = true; sliced = true } }
{
    Shape {
        width: width.min(CAP),
        narrow: width <= MOST_WIDTH,
        named: true,
        sliced: true,
    }
}

fn value_width(value: &Value) -> u64
    ensures { result ≡ min (width_of_value value.now) cap }
{
    match value {
        Value::Bits(bits) => bits.width as u64,
        Value::Number(_) => 32,
        Value::Text(text) => {
            let length = text.as_slice().len() as u64;
            if length >= CAP / 8 { CAP } else { 8 * length }
        }
    }
}

/// The shape of a slice of a signal of that shape.
fn sliced(of: Shape, high: u32, low: u32) -> Shape
    requires { of.width ≤ cap }
    ensures { result ≡ record {
      width = slice_width high low;
      narrow = of.narrow && nat_le (slice_width high low) MOST_WIDTH;
      named = of.named;
      sliced = of.sliced && (nat_lt high of.width && nat_le low high);
    } }
{
    let width = slice_width(high, low);
    Shape {
        width,
        narrow: of.narrow & (width <= MOST_WIDTH),
        named: of.named,
        sliced: of.sliced & ((high as u64) < of.width) & (low <= high),
    }
}

fn slice_width(high: u32, low: u32) -> u64
    ensures { result ≡ slice_width high low }
{
    if high < low {
        0
    } else {
        (high - low) as u64 + 1
    }
}

/// The parts of a join so far, and one more.
fn beside(joined: Shape, part: Shape) -> Shape
    requires joined { joined.width ≤ cap }
    requires part { part.width ≤ cap }
    ensures { result ≡ record {
      width = min (joined.width + part.width) cap;
      narrow = joined.narrow && part.narrow;
      named = joined.named && part.named;
      sliced = joined.sliced && part.sliced;
    } }
{
    Shape {
        width: (joined.width + part.width).min(CAP),
        narrow: joined.narrow & part.narrow,
        named: joined.named & part.named,
        sliced: joined.sliced & part.sliced,
    }
}

/// The shape of a join of these parts.
fn whole(joined: Shape) -> Shape
    ensures { result ≡ whole_of joined }
{
    Shape {
        width: joined.width,
        narrow: joined.narrow & (joined.width <= MOST_WIDTH),
        named: joined.named,
        sliced: joined.sliced,
    }
}

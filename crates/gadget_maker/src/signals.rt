//! Names, and the signals that they name.

ghost use Rattle.std.specs.Prelude.{◌≡◌, ◌≤◌, ◌<◌, ◌+◌, ◌^◌, ◌++◌, IfOk, OnOk, decimal};
ghost use Rattle.circuit_types.specs.declared.signal.Signal.TheVariants as signal;
ghost use Rattle.gadget_maker.specs.Gadget.{name_of, cell_name, bit_of, pair_count, random_bit, sum_after, steps_before};

use circuit_types::{Name, NoMemory, Signal};
use itoa::Buffer;
use sequences::Sequence;
use sqlite_items::Boxed;
use std::alloc::Global;

fn push_number(name: &mut Vec<u8>, number: u32) -> Result<(), NoMemory>
    ensures { OnOk result (name.new.items ≡ name.old.items ++ decimal number) }
{
    let mut buffer = Buffer::new();
    name.extend_from_slice(buffer.format(number).as_bytes())
}

/// The name of an inner wire: a letter and two numbers.
pub fn name(alloc: Global, letter: u8, first: u32, second: u32) -> Result<Name<'static>, NoMemory>
    ensures { IfOk result (λ name. name ≡ name_of letter first second) }
{
    let mut name = Vec::new(alloc);
    name.push(b'\\')?;
    name.push(letter)?;
    name.push(b'_')?;
    push_number(&mut name, first)?;
    name.push(b'_')?;
    push_number(&mut name, second)?;
    Ok(Name::made(Sequence::from_vec(name)))
}

/// The name of the cell of this number.
pub fn cell_name(alloc: Global, number: u32) -> Result<Name<'static>, NoMemory>
    ensures { IfOk result (λ name. name ≡ cell_name number) }
{
    let mut name = Vec::from_slice(alloc, b"$g$".as_slice())?;
    push_number(&mut name, number)?;
    Ok(Name::made(Sequence::from_vec(name)))
}

/// The inner wire of this name.
pub fn inner(
    alloc: Global,
    letter: u8,
    first: u32,
    second: u32,
) -> Result<Signal<'static>, NoMemory>
    ensures { IfOk result (λ s. s ≡ signal.Wire (name_of letter first second)) }
{
    Ok(Signal::Wire(name(alloc, letter, first, second)?))
}

/// The wire of this name.
pub fn wire(name: &'static [u8]) -> Signal<'static>
    ensures { result ≡ signal.Wire name.now }
{
    Signal::Wire(Name::in_text(name))
}

/// One bit of the wire of this name.
pub fn bit_of(alloc: Global, name: &'static [u8], place: u32) -> Result<Signal<'static>, NoMemory>
    ensures { IfOk result (λ s. s ≡ bit_of name.now place) }
{
    let of = Boxed::new(alloc, wire(name))?;
    Ok(Signal::Slice {
        of,
        high: place,
        low: place,
    })
}

/// How many randoms there are.
pub fn pair_count(shares: u32) -> u32
    requires some { 2 ≤ shares }
    requires few { shares ≤ 16 }
    ensures { result ≡ pair_count shares }
{
    shares * (shares - 1) / 2
}

/// The random of this number.
pub fn random_bit(alloc: Global, shares: u32, number: u32) -> Result<Signal<'static>, NoMemory>
    requires some { 2 ≤ shares }
    requires few { shares ≤ 16 }
    ensures { IfOk result (λ s. s ≡ random_bit shares number) }
{
    if pair_count(shares) == 1 {
        Ok(wire(b"\\r"))
    } else {
        bit_of(alloc, b"\\r", number)
    }
}

/// The sum of a row after so many of its steps.
pub fn sum_after(
    alloc: Global,
    shares: u32,
    row: u32,
    steps: u32,
) -> Result<Signal<'static>, NoMemory>
    requires { 2 ≤ shares }
    ensures { IfOk result (λ s. s ≡ sum_after shares row steps) }
{
    if steps == 0 {
        inner(alloc, b'p', row, row)
    } else if steps == shares - 1 {
        bit_of(alloc, b"\\c", row)
    } else {
        inner(alloc, b'u', row, steps)
    }
}

/// How many steps of a row are before that of a share.
pub fn steps_before(row: u32, share: u32) -> u32
    ensures value { result ≡ steps_before row share }
    ensures room { result + 1 < 2 ^ 32 }
{
    if share < row {
        share
    } else {
        share.saturating_sub(1)
    }
}

//! The bits of a signal, one by one.

ghost use Rattle.std.specs.Prelude.{◌≡◌, ◌+◌, ◌*◌, ◌<◌, ◌≤◌, ◌^◌, ◌++◌, length, take, drop, map, IfOk, OnOk};
ghost use Rattle.circuit_types.specs.declared.nets.SignalBit.TheVariants.{Net};
ghost use Rattle.circuit_types.specs.Bits.{numbers, value_bit as bit_of_value, value_width, constant_bit as bit_of_constant, written_bit as bit_of_written, missing_bit as bit_of_missing, number_bit as bit_of_number};
ghost use Rattle.circuit_types.specs.Signals.{shape, signal_bits};
ghost use Rattle.net_build.specs.Shapes.{IsGood};

use crate::shape::shape_of;
use crate::wires::Wires;
use circuit_types::{BitValue, NoMemory, Signal, SignalBit, Value};
use std::alloc::Global;

/// The bits of a whole signal.
pub fn bits_of(
    alloc: Global,
    wires: &Wires<'_>,
    signal: &Signal<'_>,
) -> Result<Vec<SignalBit>, NoMemory>
    requires { IsGood (shape wires.now.list.now signal.now) }
    ensures { IfOk result (λ bits. bits.items ≡ signal_bits wires.now.list.now signal.now) }
{
    let mut bits = Vec::new(alloc);
    push_signal(wires, signal, &mut bits)?;
    Ok(bits)
}

/// Puts all bits of a signal behind others.
pub fn push_signal(
    wires: &Wires<'_>,
    signal: &Signal<'_>,
    bits: &mut Vec<SignalBit>,
) -> Result<(), NoMemory>
    requires { IsGood (shape wires.now.list.now signal.now) }
    ensures { OnOk result (bits.new.items ≡ bits.old.items ++ signal_bits wires.now.list.now signal.now) }
{
    match signal {
        Signal::Wire(name) => match wires.find(name.as_slice()) {
            None => Ok(()),
            Some(span) => push_nets(span.first, span.width, bits),
        },
        Signal::Slice { of, high, low } => {
            push_bits(wires, of.get(), *low, *high - *low + 1, bits)
        }
        _ => push_bits(wires, signal, 0, width_of(wires, signal), bits),
    }
}

/// Puts some bits of a signal behind others: so many, from the place on.
pub fn push_bits(
    wires: &Wires<'_>,
    signal: &Signal<'_>,
    low: u32,
    count: u32,
    bits: &mut Vec<SignalBit>,
) -> Result<(), NoMemory>
    requires good { IsGood (shape wires.now.list.now signal.now) }
    requires within { low + count ≤ (shape wires.now.list.now signal.now).width }
    ensures { OnOk result (bits.new.items ≡ bits.old.items ++ take count (drop low (signal_bits wires.now.list.now signal.now))) }
{
    match signal {
        Signal::Value(value) => push_value(value, low, count, bits),
        Signal::Wire(name) => match wires.find(name.as_slice()) {
            None => Ok(()),
            Some(span) => push_nets(span.first + low, count, bits),
        },
        Signal::Slice {
            of,
            high: _,
            low: from,
        } => { push_bits(wires, of.get(), *from + low, count, bits) }
        Signal::Join(parts) => {
            let parts = parts.as_slice();
            let mut low = low;
            let mut count = count;
            let mut k = parts.len();
            while k > 0 {
                k -= 1;
                let part = &parts[k];
                let width = width_of(wires, part);
                let skipped = low.min(width);
                let taken = count.min(width - skipped);
                push_bits(wires, part, skipped, taken, bits)?;
                low -= skipped;
                count -= taken;
            }
            Ok(())
        }
    }
}

fn push_value(
    value: &Value,
    low: u32,
    count: u32,
    bits: &mut Vec<SignalBit>,
) -> Result<(), NoMemory>
    requires within { low + count ≤ value_width value.now }
    requires small { low + count < 2 ^ 32 }
    ensures { OnOk result (bits.new.items ≡ bits.old.items ++ map (bit_of_value value.now) (numbers low count)) }
{
    for place in low..low + count {
        bits.push(value_bit(value, place))?;
    }
    Ok(())
}

/// Puts the bits of wires that have these numbers behind others.
fn push_nets(first: u32, count: u32, bits: &mut Vec<SignalBit>) -> Result<(), NoMemory>
    requires { first + count < 2 ^ 32 }
    ensures { OnOk result (bits.new.items ≡ bits.old.items ++ map (λ k. Net k) (numbers first count)) }
{
    for bit in first..first + count {
        bits.push(SignalBit::Net(bit))?;
    }
    Ok(())
}

/// How wide a signal is.
pub fn width_of(wires: &Wires<'_>, signal: &Signal<'_>) -> u32
    requires { IsGood (shape wires.now.list.now signal.now) }
    ensures { result ≡ (shape wires.now.list.now signal.now).width }
{
    shape_of(wires, signal).width as u32
}

/// The bit of a constant at a place, counted from the least significant.
fn value_bit(value: &Value, place: u32) -> SignalBit
    requires { place < value_width value.now }
    ensures { result ≡ bit_of_value value.now place }
{
    match value {
        Value::Bits(bits) => constant_bit(bits.written.as_slice(), place as usize),
        Value::Number(number) => number_bit(number.cast_unsigned(), place),
        Value::Text(text) => {
            let text = text.as_slice();
            let byte = text[text.len() - 1 - place as usize / 8];
            number_bit(byte as u32, place % 8)
        }
    }
}

#[tactic(auto, unfolding(circuit_types::specs::Bits::constant_bit))]
fn constant_bit(written: &[BitValue], place: usize) -> SignalBit
    ensures { result ≡ bit_of_constant written.now place }
{
    if place < written.len() {
        written_bit(written[written.len() - 1 - place])
    } else {
        missing_bit(written)
    }
}

fn written_bit(bit: BitValue) -> SignalBit
    ensures { result ≡ bit_of_written bit }
{
    match bit {
        BitValue::Zero => SignalBit::Zero,
        BitValue::One => SignalBit::One,
        _ => SignalBit::Unknown,
    }
}

/// The missing most significant bits are as the first written one where that is unknown, and else 0.
fn missing_bit(written: &[BitValue]) -> SignalBit
    ensures { result ≡ bit_of_missing written.now }
{
    match written.first() {
        Some(BitValue::Zero) => SignalBit::Zero,
        Some(BitValue::One) => SignalBit::Zero,
        _ => SignalBit::Unknown,
    }
}

#[tactic(auto, unfolding(circuit_types::specs::Bits::number_bit))]
fn number_bit(number: u32, place: u32) -> SignalBit
    requires { place < 32 }
    ensures { result ≡ bit_of_number number place }
{
    if number >> place & 1 == 1 {
        SignalBit::One
    } else {
        SignalBit::Zero
    }
}

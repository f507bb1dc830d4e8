//! Numbers, names and constants, each with a space before it.

ghost use Rattle.std.specs.Prelude.{◌≡◌, ◌++◌, ◌∷◌, [], OnOk, map, decimal};
ghost use Rattle.std.specs.List.{flat_map};
ghost use Rattle.std.specs.Fmt.{signed_decimal};
ghost use Rattle.rtlil_tree.specs.Lexemes.{bit_code};
ghost use Rattle.rtlil_print.specs.Printed.{quoted, value_text};

use circuit_types::{BitValue, Bits, NoMemory, Value};
use itoa::Buffer;

/// Puts the digits of a number behind the text.
pub fn push_count(text: &mut Vec<u8>, number: u32) -> Result<(), NoMemory>
    ensures { OnOk result (text.new.items ≡ text.old.items ++ decimal number) }
{
    let mut buffer = Buffer::new();
    text.extend_from_slice(buffer.format(number).as_bytes())
}

/// Puts the digits of a number behind the text, with a minus sign where it is below 0.
pub fn push_number(text: &mut Vec<u8>, number: i32) -> Result<(), NoMemory>
    ensures { OnOk result (text.new.items ≡ text.old.items ++ signed_decimal number) }
{
    let mut buffer = Buffer::new();
    text.extend_from_slice(buffer.format(number).as_bytes())
}

/// Puts a name or a word behind the text, after a space.
pub fn push_word(text: &mut Vec<u8>, word: &[u8]) -> Result<(), NoMemory>
    ensures { OnOk result (text.new.items ≡ text.old.items ++ 32 ∷ word.now) }
{
    text.push(b' ')?;
    text.extend_from_slice(word)
}

/// The byte that a bit is written as.
fn bit_code(bit: BitValue) -> u8
    ensures { result ≡ bit_code bit }
{
    match bit {
        BitValue::Zero => b'0',
        BitValue::One => b'1',
        BitValue::X => b'x',
        BitValue::Z => b'z',
        BitValue::M => b'm',
        BitValue::Dash => b'-',
    }
}

fn push_written(text: &mut Vec<u8>, written: &[BitValue]) -> Result<(), NoMemory>
    ensures { OnOk result (text.new.items ≡ text.old.items ++ map bit_code written.now) }
{
    for bit in written {
        text.push(bit_code(*bit))?;
    }
    Ok(())
}

fn push_bits(text: &mut Vec<u8>, bits: &Bits) -> Result<(), NoMemory>
    ensures { OnOk result (text.new.items ≡ text.old.items ++ (decimal bits.now.width ++ 39 ∷ map bit_code bits.now.written)) }
{
    push_count(text, bits.width)?;
    text.push(b'\'')?;
    push_written(text, bits.written.as_slice())
}

/// Puts a byte of a text between double quotes behind the text.
fn push_quoted(text: &mut Vec<u8>, byte: u8) -> Result<(), NoMemory>
    ensures { OnOk result (text.new.items ≡ text.old.items ++ quoted byte) }
{
    match byte {
        b'"' => text.extend_from_slice(b"\\\""),
        b'\\' => text.extend_from_slice(b"\\\\"),
        b'\n' => text.extend_from_slice(b"\\n"),
        b'\t' => text.extend_from_slice(b"\\t"),
        other => {
            text.push(other)?;
            Ok(())
        }
    }
}

fn push_all_quoted(text: &mut Vec<u8>, bytes: &[u8]) -> Result<(), NoMemory>
    ensures { OnOk result (text.new.items ≡ text.old.items ++ flat_map quoted bytes.now) }
{
    for byte in bytes {
        push_quoted(text, *byte)?;
    }
    Ok(())
}

fn push_text(text: &mut Vec<u8>, bytes: &[u8]) -> Result<(), NoMemory>
    ensures { OnOk result (text.new.items ≡ text.old.items ++ 34 ∷ (flat_map quoted bytes.now ++ 34 ∷ [])) }
{
    text.push(b'"')?;
    push_all_quoted(text, bytes)?;
    text.push(b'"')?;
    Ok(())
}

/// Puts a constant behind the text, after a space.
pub fn push_value(text: &mut Vec<u8>, value: &Value) -> Result<(), NoMemory>
    ensures { OnOk result (text.new.items ≡ text.old.items ++ 32 ∷ value_text value.now) }
{
    text.push(b' ')?;
    match value {
        Value::Bits(bits) => push_bits(text, bits),
        Value::Number(number) => push_number(text, *number),
        Value::Text(bytes) => push_text(text, bytes.as_slice()),
    }
}

//! Constants.

ghost use Rattle.std.specs.Prelude.{◌≡◌, map, IfOk};
ghost use Rattle.rtlil_tree.specs.Said.{Gives, bit_of, plain};
ghost use Rattle.rtlil_tree.specs.Forms.{constant_of};

use crate::misfit::Misfit;
use crate::string::text;
use crate::word::Word;
use circuit_types::{BitValue, Bits, Value};
use sequences::Sequence;
use std::alloc::{AllocError, Global};

fn bit(b: u8) -> BitValue
    ensures { result ≡ bit_of b }
{
    match b {
        b'0' => BitValue::Zero,
        b'1' => BitValue::One,
        b'x' => BitValue::X,
        b'z' => BitValue::Z,
        b'm' => BitValue::M,
        _ => BitValue::Dash,
    }
}

fn bits(alloc: Global, written: &[u8]) -> Result<Sequence<BitValue>, AllocError>
    ensures { IfOk result (λ s. s ≡ map bit_of written.now) }
{
    let mut bits = Vec::with_capacity(alloc, written.len())?;
    for b in written {
        bits.push(bit(*b))?;
    }
    Ok(Sequence::from_vec(bits))
}

/// The constant that the word is.
pub fn constant(alloc: Global, word: Word<'_>) -> Result<Value, Misfit>
    ensures { Gives (λ v. v) result (constant_of (plain word.entry)) }
{
    match word {
        Word::Int(number) => Ok(Value::Number(number)),
        Word::Bits(width, written) => Ok(Value::Bits(Bits {
            width,
            written: bits(alloc, written)?,
        })),
        Word::Str(raw) => Ok(Value::Text(Sequence::from_vec(text(alloc, raw)?))),
        _ => Err(Misfit::NoForm),
    }
}

//! The module that is verified.

ghost use Rattle.std.specs.Prelude.{◌≡◌, count_by, position};
ghost use Rattle.std.specs.List.{list_any};
ghost use Rattle.circuit_types.specs.Top.{is_one, is_set, is_top_mark, is_marked, only_marked, top_of};

use crate::signal::{BitValue, Value};
use crate::tree::{Attribute, Module, Tree};

fn is_one(bit: BitValue) -> bool
    ensures { result ≡ is_one bit }
{
    match bit {
        BitValue::One => true,
        _ => false,
    }
}

fn has_one(bits: &[BitValue]) -> bool
    ensures { result ≡ list_any is_one bits.now }
{
    bits.iter().any(|bit| is_one(*bit))
}

/// Whether the constant is a number other than 0, or bits with a 1.
fn is_set(value: &Value) -> bool
    ensures { result ≡ is_set value.now }
{
    match value {
        Value::Bits(bits) => has_one(bits.written.as_slice()),
        Value::Number(number) => *number != 0,
        Value::Text(_) => false,
    }
}

/// Whether the attribute marks a top module.
fn is_top_mark(attribute: &Attribute) -> bool
    ensures { result ≡ is_top_mark attribute.now }
{
    attribute.name.as_slice() == b"\\top".as_slice() && is_set(&attribute.value)
}

fn is_marked(unit: &Module) -> bool
    ensures { result ≡ is_marked unit.now }
{
    unit.attributes.as_slice().iter().any(is_top_mark)
}

fn marked_count(modules: &[Module]) -> usize
    ensures { result ≡ count_by is_marked modules.now }
{
    let mut count = 0;
    for unit in modules {
        if is_marked(unit) {
            count += 1;
        }
    }
    count
}

fn first_marked(modules: &[Module]) -> Option<usize>
    ensures { result ≡ position is_marked modules.now }
{
    modules.iter().position(is_marked)
}

/// The place of the only module that is marked as a top one.
fn only_marked(modules: &[Module]) -> Option<usize>
    ensures { result ≡ only_marked modules.now }
{
    if marked_count(modules) == 1 {
        first_marked(modules)
    } else {
        None
    }
}

/// The place of the module that is verified: the only one, or of several the only one with the attribute `\top`
/// set, which is to say that one of its values is a number other than 0 or bits with a 1.
pub fn top(tree: &Tree) -> Option<usize>
    ensures { result ≡ top_of tree.now }
{
    let modules = tree.modules.as_slice();
    if modules.len() == 1 {
        Some(0)
    } else {
        only_marked(modules)
    }
}

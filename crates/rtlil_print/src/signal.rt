//! Signals.

ghost use Rattle.std.specs.Prelude.{◌≡◌, ◌++◌, ◌∷◌, OnOk};
ghost use Rattle.rtlil_tree.specs.Statements.{pieces_of};
ghost use Rattle.rtlil_print.specs.Printed.{places_between, places_text, spaced};

use crate::value::{push_count, push_value, push_word};
use circuit_types::{NoMemory, Signal};

/// Puts both places of a slice behind the text, or the one.
fn push_both(text: &mut Vec<u8>, high: u32, low: u32) -> Result<(), NoMemory>
    ensures { OnOk result (text.new.items ≡ text.old.items ++ places_between high low) }
{
    if high != low {
        push_count(text, high)?;
        text.push(b':')?;
    }
    push_count(text, low)
}

/// Puts the places of a slice behind the text, after a space.
fn push_places(text: &mut Vec<u8>, high: u32, low: u32) -> Result<(), NoMemory>
    ensures { OnOk result (text.new.items ≡ text.old.items ++ 32 ∷ places_text high low) }
{
    text.extend_from_slice(b" [")?;
    push_both(text, high, low)?;
    text.push(b']')?;
    Ok(())
}

/// Puts the pieces of a signal behind the text, each after a space. It calls itself as deep as the signal nests.
pub fn push_signal(text: &mut Vec<u8>, signal: &Signal<'_>) -> Result<(), NoMemory>
    ensures { OnOk result (text.new.items ≡ text.old.items ++ spaced (pieces_of signal.now)) }
{
    match signal {
        Signal::Value(value) => push_value(text, value),
        Signal::Wire(name) => push_word(text, name.as_slice()),
        Signal::Slice { of, high, low } => {
            push_signal(text, of.get())?;
            push_places(text, *high, *low)
        }
        Signal::Join(parts) => {
            push_word(text, b"{")?;
            for part in parts.as_slice() {
                push_signal(text, part)?;
            }
            push_word(text, b"}")
        }
    }
}

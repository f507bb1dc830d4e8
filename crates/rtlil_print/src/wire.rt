//! Wires.

ghost use Rattle.std.specs.Prelude.{◌≡◌, ◌++◌, ◌∷◌, [], OnOk, if◌then◌else◌};
ghost use Rattle.rtlil_print.specs.Printed.{options_spaced, width_option, offset_option, port_option, wire_options, wire_line};

use crate::value::{push_count, push_number, push_word};
use circuit_types::{NoMemory, Port, Wire};

fn push_width(text: &mut Vec<u8>, width: u32) -> Result<(), NoMemory>
    ensures { OnOk result (text.new.items ≡ text.old.items ++ options_spaced (width_option width)) }
{
    if width == 1 {
        return Ok(());
    }
    text.extend_from_slice(b" width ")?;
    push_count(text, width)
}

fn push_offset(text: &mut Vec<u8>, offset: i32) -> Result<(), NoMemory>
    ensures { OnOk result (text.new.items ≡ text.old.items ++ options_spaced (offset_option offset)) }
{
    if offset == 0 {
        return Ok(());
    }
    text.extend_from_slice(b" offset ")?;
    push_number(text, offset)
}

fn push_port(text: &mut Vec<u8>, port: Port) -> Result<(), NoMemory>
    ensures { OnOk result (text.new.items ≡ text.old.items ++ options_spaced (port_option port)) }
{
    match port {
        Port::Inner => Ok(()),
        Port::Input(number) => {
            text.extend_from_slice(b" input ")?;
            push_count(text, number)
        }
        Port::Output(number) => {
            text.extend_from_slice(b" output ")?;
            push_count(text, number)
        }
    }
}

/// Puts a word behind the text, after a space, if it is to stand.
fn push_if(text: &mut Vec<u8>, stands: bool, word: &[u8]) -> Result<(), NoMemory>
    ensures { OnOk result (text.new.items ≡ text.old.items ++ (if stands then 32 ∷ word.now else [])) }
{
    if !stands {
        return Ok(());
    }
    push_word(text, word)
}

/// Puts the options of a wire behind the text, each after a space.
fn push_options(text: &mut Vec<u8>, wire: &Wire<'_>) -> Result<(), NoMemory>
    ensures { OnOk result (text.new.items ≡ text.old.items ++ options_spaced (wire_options wire.now)) }
{
    push_width(text, wire.width)?;
    push_offset(text, wire.offset)?;
    push_port(text, wire.port)?;
    push_if(text, wire.upto, b"upto")?;
    push_if(text, wire.signed, b"signed")
}

/// Puts the line of a wire behind the text.
pub fn push_wire(text: &mut Vec<u8>, wire: &Wire<'_>) -> Result<(), NoMemory>
    ensures { OnOk result (text.new.items ≡ text.old.items ++ wire_line wire.now) }
{
    text.extend_from_slice(b"  wire")?;
    push_options(text, wire)?;
    push_word(text, wire.name.as_slice())?;
    text.extend_from_slice(b"\n")
}

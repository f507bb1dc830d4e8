//! Lines that stand in more than one place.

ghost use Rattle.std.specs.Prelude.{◌≡◌, ◌++◌, OnOk};
ghost use Rattle.rtlil_tree.specs.Statements.{form_lexemes, optional};
ghost use Rattle.rtlil_print.specs.Printed.{lexemes_spaced, attribute_line, attribute_lines, parameter_line, end_line};

use crate::value::{push_value, push_word};
use circuit_types::{Attribute, NoMemory, Parameter, ParameterForm, Value};

/// Puts an attribute's line behind the text.
fn push_attribute(
    text: &mut Vec<u8>,
    indent: &[u8],
    attribute: &Attribute<'_>,
) -> Result<(), NoMemory>
    ensures { OnOk result (text.new.items ≡ text.old.items ++ attribute_line indent.now attribute.now) }
{
    text.extend_from_slice(indent)?;
    text.extend_from_slice(b"attribute")?;
    push_word(text, attribute.name.as_slice())?;
    push_value(text, &attribute.value)?;
    text.extend_from_slice(b"\n")
}

/// Puts the lines of attributes behind the text.
pub fn push_attributes(
    text: &mut Vec<u8>,
    indent: &[u8],
    attributes: &[Attribute<'_>],
) -> Result<(), NoMemory>
    ensures { OnOk result (text.new.items ≡ text.old.items ++ attribute_lines indent.now attributes.now) }
{
    for attribute in attributes {
        push_attribute(text, indent, attribute)?;
    }
    Ok(())
}

fn push_form(text: &mut Vec<u8>, form: ParameterForm) -> Result<(), NoMemory>
    ensures { OnOk result (text.new.items ≡ text.old.items ++ lexemes_spaced (form_lexemes form)) }
{
    match form {
        ParameterForm::Plain => Ok(()),
        ParameterForm::Signed => text.extend_from_slice(b" signed"),
        ParameterForm::Real => text.extend_from_slice(b" real"),
    }
}

fn push_optional(text: &mut Vec<u8>, value: &Option<Value>) -> Result<(), NoMemory>
    ensures { OnOk result (text.new.items ≡ text.old.items ++ lexemes_spaced (optional value.now)) }
{
    match value {
        None => Ok(()),
        Some(value) => push_value(text, value),
    }
}

/// Puts a parameter's line behind the text.
pub fn push_parameter(
    text: &mut Vec<u8>,
    indent: &[u8],
    parameter: &Parameter<'_>,
) -> Result<(), NoMemory>
    ensures { OnOk result (text.new.items ≡ text.old.items ++ parameter_line indent.now parameter.now) }
{
    text.extend_from_slice(indent)?;
    text.extend_from_slice(b"parameter")?;
    push_form(text, parameter.form)?;
    push_word(text, parameter.name.as_slice())?;
    push_optional(text, &parameter.value)?;
    text.extend_from_slice(b"\n")
}

/// Puts the line of an `end` behind the text.
pub fn push_end(text: &mut Vec<u8>, indent: &[u8]) -> Result<(), NoMemory>
    ensures { OnOk result (text.new.items ≡ text.old.items ++ end_line indent.now) }
{
    text.extend_from_slice(indent)?;
    text.extend_from_slice(b"end\n")
}

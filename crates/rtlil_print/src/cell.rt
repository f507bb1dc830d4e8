//! Cells and connects.

ghost use Rattle.std.specs.Prelude.{◌≡◌, ◌++◌, OnOk};
ghost use Rattle.std.specs.List.{flat_map};
ghost use Rattle.rtlil_print.specs.Printed.{parameter_line, port_connect_line, connect_line, cell_line, inside_lines, cell_lines};

use crate::line::{push_end, push_parameter};
use crate::signal::push_signal;
use crate::value::push_word;
use circuit_types::{Cell, Connect, NoMemory, Parameter, PortConnect};

/// Puts the line of a module's connect behind the text.
pub fn push_connect(text: &mut Vec<u8>, connect: &Connect<'_>) -> Result<(), NoMemory>
    ensures { OnOk result (text.new.items ≡ text.old.items ++ connect_line connect.now) }
{
    text.extend_from_slice(b"  connect")?;
    push_signal(text, &connect.left)?;
    push_signal(text, &connect.right)?;
    text.extend_from_slice(b"\n")
}

fn push_port_connect(
    text: &mut Vec<u8>,
    indent: &[u8],
    connect: &PortConnect<'_>,
) -> Result<(), NoMemory>
    ensures { OnOk result (text.new.items ≡ text.old.items ++ port_connect_line indent.now connect.now) }
{
    text.extend_from_slice(indent)?;
    text.extend_from_slice(b"connect")?;
    push_word(text, connect.port.as_slice())?;
    push_signal(text, &connect.signal)?;
    text.extend_from_slice(b"\n")
}

fn push_parameters(
    text: &mut Vec<u8>,
    indent: &[u8],
    parameters: &[Parameter<'_>],
) -> Result<(), NoMemory>
    ensures { OnOk result (text.new.items ≡ text.old.items ++ flat_map (parameter_line indent.now) parameters.now) }
{
    for parameter in parameters {
        push_parameter(text, indent, parameter)?;
    }
    Ok(())
}

fn push_connects(
    text: &mut Vec<u8>,
    indent: &[u8],
    connects: &[PortConnect<'_>],
) -> Result<(), NoMemory>
    ensures { OnOk result (text.new.items ≡ text.old.items ++ flat_map (port_connect_line indent.now) connects.now) }
{
    for connect in connects {
        push_port_connect(text, indent, connect)?;
    }
    Ok(())
}

/// Puts what stands inside a cell behind the text.
fn push_inside(text: &mut Vec<u8>, cell: &Cell<'_>) -> Result<(), NoMemory>
    ensures { OnOk result (text.new.items ≡ text.old.items ++ inside_lines cell.now) }
{
    push_parameters(text, b"    ", cell.parameters.as_slice())?;
    push_connects(text, b"    ", cell.connects.as_slice())
}

/// Puts the first line of a cell behind the text.
fn push_cell_line(text: &mut Vec<u8>, cell: &Cell<'_>) -> Result<(), NoMemory>
    ensures { OnOk result (text.new.items ≡ text.old.items ++ cell_line cell.now) }
{
    text.extend_from_slice(b"  cell")?;
    push_word(text, cell.kind.as_slice())?;
    push_word(text, cell.name.as_slice())?;
    text.extend_from_slice(b"\n")
}

/// Puts the lines of a cell behind the text.
pub fn push_cell(text: &mut Vec<u8>, cell: &Cell<'_>) -> Result<(), NoMemory>
    ensures { OnOk result (text.new.items ≡ text.old.items ++ cell_lines cell.now) }
{
    push_cell_line(text, cell)?;
    push_inside(text, cell)?;
    push_end(text, b"  ")
}

//! Items, modules and trees.

ghost use Rattle.std.specs.Prelude.{◌≡◌, ◌++◌, OnOk, IfOk};
ghost use Rattle.std.specs.List.{flat_map};
ghost use Rattle.rtlil_print.specs.Printed.{item_lines, module_line, module_lines, printed};

use crate::cell::{push_cell, push_connect};
use crate::line::{push_attributes, push_end, push_parameter};
use crate::value::push_word;
use crate::wire::push_wire;
use circuit_types::{Item, Module, NoMemory, Tree};
use std::alloc::Global;

fn push_item(text: &mut Vec<u8>, item: &Item<'_>) -> Result<(), NoMemory>
    ensures { OnOk result (text.new.items ≡ text.old.items ++ item_lines item.now) }
{
    match item {
        Item::Parameter(parameter) => push_parameter(text, b"  ", parameter),
        Item::Wire(wire) => {
            push_attributes(text, b"  ", wire.attributes.as_slice())?;
            push_wire(text, wire)
        }
        Item::Cell(cell) => {
            push_attributes(text, b"  ", cell.attributes.as_slice())?;
            push_cell(text, cell)
        }
        Item::Connect(connect) => push_connect(text, connect),
    }
}

fn push_items(text: &mut Vec<u8>, items: &[Item<'_>]) -> Result<(), NoMemory>
    ensures { OnOk result (text.new.items ≡ text.old.items ++ flat_map item_lines items.now) }
{
    for item in items {
        push_item(text, item)?;
    }
    Ok(())
}

fn push_module_line(text: &mut Vec<u8>, name: &[u8]) -> Result<(), NoMemory>
    ensures { OnOk result (text.new.items ≡ text.old.items ++ module_line name.now) }
{
    text.extend_from_slice(b"module")?;
    push_word(text, name)?;
    text.extend_from_slice(b"\n")
}

fn push_module(text: &mut Vec<u8>, unit: &Module<'_>) -> Result<(), NoMemory>
    ensures { OnOk result (text.new.items ≡ text.old.items ++ module_lines unit.now) }
{
    push_attributes(text, b"", unit.attributes.as_slice())?;
    push_module_line(text, unit.name.as_slice())?;
    push_items(text, unit.items.as_slice())?;
    push_end(text, b"")
}

/// The text of a tree. It goes as deep as the tree's signals nest, which is at most 64 deep in a printable one.
#[tactic(auto, unfolding(crate::specs::Printed::printed))]
pub fn print_tree(alloc: Global, tree: &Tree<'_>) -> Result<Vec<u8>, NoMemory>
    ensures { IfOk result (λ text. text.items ≡ printed tree.now) }
{
    let mut text = Vec::new(alloc);
    for unit in tree.modules.as_slice() {
        push_module(&mut text, unit)?;
    }
    Ok(text)
}

//! What is wrong with the names, widths and ports of a module's cells and connects.

ghost use Rattle.std.specs.Prelude.{◌≡◌, ◌+◌, ◌&&◌, not, true, [], ◌∷◌, if◌then◌else◌, length, Some, None, is_none};
ghost use Rattle.std.specs.List.{list_any};
ghost use Rattle.std.specs.Str.{bytes_eq};
ghost use Rattle.std.specs.Option.{option_copied};
ghost use Rattle.cell_kinds.specs.Names.{kind_named};
ghost use Rattle.circuit_types.specs.Items.{is_kept as is_kept_cell, kept_cells, cells};
ghost use Rattle.circuit_types.specs.Drives.{port_name, connect_of as connect_of_port};
ghost use Rattle.circuit_types.specs.Nets.{begins_with_backslash as begins, is_unsupported as is_unsupported_cell, is_module as is_module_cell, port_link, item_links, lacks_port as lacks_a_port, is_port as is_port_of};
ghost use Rattle.net_build.specs.Faults.{earlier_of, together, is_nothing as is_nothing_wrong, faults_in, AreFaults, refusal_in};
ghost use Rattle.net_build.specs.Ports.{kind_in};
ghost use Rattle.circuit_types.specs.declared.tree.Item.TheVariants as item;

use crate::shape::shape_of;
use crate::wires::Wires;
use cell_kinds::{CellKind, inputs, kind_of, output_port};
use circuit_types::{Cell, Connect, Item, PortConnect, Refusal, Which};

/// The least line of each cause, and whether a signal is too wide.
#[derive(Clone, Copy)]
pub struct Faults {
    pub too_wide: bool,
    pub unsupported: Option<u32>,
    pub hierarchy: Option<u32>,
    pub no_wire: Option<u32>,
    pub bad_slice: Option<u32>,
    pub mismatch: Option<u32>,
    pub missing: Option<u32>,
}

/// Nothing is wrong.
const NONE: Faults = Faults {
    too_wide: false,
    unsupported: None,
    hierarchy: None,
    no_wire: None,
    bad_slice: None,
    mismatch: None,
    missing: None,
};

/// The lesser of two lines, where there are two.
pub fn earlier(one: Option<u32>, other: Option<u32>) -> Option<u32>
    ensures { result ≡ earlier_of one other }
{
    match (one, other) {
        (None, other) => other,
        (Some(one), None) => Some(one),
        (Some(one), Some(other)) => Some(one.min(other)),
    }
}

/// The line, where there is a fault at it.
fn line_if(is_fault: bool, line: u32) -> Option<u32>
    ensures { result ≡ (if is_fault then Some line else None) }
{
    if is_fault { Some(line) } else { None }
}

/// What is wrong with two parts together, where anything is.
pub fn both(one: Option<Faults>, other: Option<Faults>) -> Option<Faults>
    ensures { faults_in result ≡ together (faults_in one) (faults_in other) }
{
    match (one, other) {
        (None, other) => other,
        (Some(one), None) => Some(one),
        (Some(one), Some(other)) => Some(joined(one, other)),
    }
}

/// The faults of two parts together.
fn joined(one: Faults, other: Faults) -> Faults
    ensures { result ≡ together one other }
{
    Faults {
        too_wide: one.too_wide | other.too_wide,
        unsupported: earlier(one.unsupported, other.unsupported),
        hierarchy: earlier(one.hierarchy, other.hierarchy),
        no_wire: earlier(one.no_wire, other.no_wire),
        bad_slice: earlier(one.bad_slice, other.bad_slice),
        mismatch: earlier(one.mismatch, other.mismatch),
        missing: earlier(one.missing, other.missing),
    }
}

/// These faults, where there are any.
fn found(faults: Faults) -> Option<Faults>
    ensures { faults_in result ≡ faults }
{
    if is_nothing(faults) {
        None
    } else {
        Some(faults)
    }
}

/// Whether nothing is wrong.
fn is_nothing(faults: Faults) -> bool
    ensures { result ≡ is_nothing_wrong faults }
{
    !faults.too_wide
        & faults.unsupported.is_none()
        & faults.hierarchy.is_none()
        & faults.no_wire.is_none()
        & faults.bad_slice.is_none()
        & faults.mismatch.is_none()
        & faults.missing.is_none()
}

/// The kind of the cell that the item may be, if it is known.
pub fn kind_in(item: &Item<'_>) -> Option<CellKind>
    ensures { result ≡ kind_in item.now }
{
    match item {
        Item::Cell(cell) => kind_of(cell.kind.as_slice()),
        _ => None,
    }
}

/// What is wrong with an item, which is a cell of that kind if it is one.
pub fn item_faults(wires: &Wires<'_>, item: &Item<'_>, kind: Option<CellKind>) -> Option<Faults>
    requires { kind ≡ kind_in item.now }
    ensures { AreFaults (item_links wires.now.list.now item.now) (kept_cells (item.now ∷ [])) (faults_in result) }
{
    match item {
        Item::Cell(cell) => {
            if is_kept(cell) {
                cell_faults(wires, cell, kind)
            } else {
                None
            }
        }
        Item::Connect(connect) => connect_faults(wires, connect),
        _ => None,
    }
}

/// A cell of the type `$scopeinfo` is passed over, every other one is kept.
pub fn is_kept(cell: &Cell<'_>) -> bool
    ensures { result ≡ is_kept_cell cell.now }
{
    cell.kind.as_slice() != b"$scopeinfo".as_slice()
}

fn cell_faults(wires: &Wires<'_>, cell: &Cell<'_>, kind: Option<CellKind>) -> Option<Faults>
    requires kept { is_kept_cell cell.now ≡ true }
    requires kind { kind ≡ kind_named cell.now.kind }
    ensures { AreFaults (item_links wires.now.list.now (item.Cell cell.now)) (cell.now ∷ []) (faults_in result) }
{
    let mut faults = kind_faults(cell, kind);
    for connect in cell.connects.as_slice() {
        faults = both(faults, port_faults(wires, kind, connect));
    }
    faults
}

fn kind_faults(cell: &Cell<'_>, kind: Option<CellKind>) -> Option<Faults>
    requires { kind ≡ kind_named cell.now.kind }
    ensures { AreFaults [] (cell.now ∷ []) (faults_in result) }
{
    found(Faults {
        unsupported: line_if(is_unsupported(cell, kind), cell.line),
        hierarchy: line_if(is_module(cell, kind), cell.line),
        missing: line_if(lacks_port(cell, kind), cell.line),
        ..NONE
    })
}

fn is_unsupported(cell: &Cell<'_>, kind: Option<CellKind>) -> bool
    requires { kind ≡ kind_named cell.now.kind }
    ensures { result ≡ is_unsupported_cell cell.now }
{
    kind.is_none() & !begins_with_backslash(cell.kind.as_slice())
}

fn is_module(cell: &Cell<'_>, kind: Option<CellKind>) -> bool
    requires { kind ≡ kind_named cell.now.kind }
    ensures { result ≡ is_module_cell cell.now }
{
    kind.is_none() & begins_with_backslash(cell.kind.as_slice())
}

pub fn begins_with_backslash(name: &[u8]) -> bool
    ensures { result ≡ begins name.now }
{
    if name.is_empty() {
        false
    } else {
        name[0] == b'\\'
    }
}

fn lacks_port(cell: &Cell<'_>, kind: Option<CellKind>) -> bool
    requires { kind ≡ kind_named cell.now.kind }
    ensures { result ≡ lacks_a_port cell.now }
{
    match kind {
        None => false,
        Some(kind) => lacks_input(cell, inputs(kind)) | lacks(cell, output_port(kind)),
    }
}

fn lacks_input(cell: &Cell<'_>, letters: &[u8]) -> bool
    ensures { result ≡ list_any (λ letter. is_none (connect_of_port cell.now letter)) letters.now }
{
    letters.iter().any(|letter| lacks(cell, *letter))
}

fn lacks(cell: &Cell<'_>, letter: u8) -> bool
    ensures { result ≡ is_none (connect_of_port cell.now letter) }
{
    connect_of(cell, letter).is_none()
}

/// The connect of a port.
#[tactic(auto, unfolding(circuit_types::specs::Drives::connect_of))]
pub fn connect_of<'c, 'a>(cell: &'c Cell<'a>, letter: u8) -> Option<&'c PortConnect<'a>>
    ensures { option_copied result ≡ connect_of_port cell.now letter }
{
    cell.connects
        .as_slice()
        .iter()
        .find(|connect| is_named(connect.port.as_slice(), letter))
}

/// Whether the name is that of the port with this letter.
fn is_named(name: &[u8], letter: u8) -> bool
    ensures { result ≡ bytes_eq name.now (port_name letter) }
{
    match name {
        [first, second] => (*first == b'\\') & (*second == letter),
        _ => false,
    }
}

fn is_port(kind: Option<CellKind>, name: &[u8]) -> bool
    ensures { result ≡ is_port_of kind name.now }
{
    match kind {
        None => false,
        Some(kind) => is_input(inputs(kind), name) | is_named(name, output_port(kind)),
    }
}

fn is_input(letters: &[u8], name: &[u8]) -> bool
    ensures { result ≡ list_any (λ letter. bytes_eq name.now (port_name letter)) letters.now }
{
    letters.iter().any(|letter| is_named(name, *letter))
}

fn port_faults(
    wires: &Wires<'_>,
    kind: Option<CellKind>,
    connect: &PortConnect<'_>,
) -> Option<Faults>
    ensures { AreFaults (port_link wires.now.list.now kind connect.now ∷ []) [] (faults_in result) }
{
    let shape = shape_of(wires, &connect.signal);
    let fits = !is_port(kind, connect.port.as_slice()) | (shape.width == 1);
    if shape.narrow & shape.named & shape.sliced & fits {
        return None;
    }
    Some(Faults {
        too_wide: !shape.narrow,
        no_wire: line_if(!shape.named, connect.line),
        bad_slice: line_if(!shape.sliced, connect.line),
        mismatch: line_if(!fits, connect.line),
        ..NONE
    })
}

fn connect_faults(wires: &Wires<'_>, connect: &Connect<'_>) -> Option<Faults>
    ensures { AreFaults (item_links wires.now.list.now (item.Connect connect.now)) [] (faults_in result) }
{
    let left = shape_of(wires, &connect.left);
    let right = shape_of(wires, &connect.right);
    found(Faults {
        too_wide: !(left.narrow & right.narrow),
        no_wire: line_if(!(left.named & right.named), connect.line),
        bad_slice: line_if(!(left.sliced & right.sliced), connect.line),
        mismatch: line_if(left.width != right.width, connect.line),
        ..NONE
    })
}

/// The refusal that is due, where anything is wrong.
pub fn refusal_of(faults: Option<Faults>) -> Option<Refusal>
    ensures { result ≡ refusal_in (faults_in faults) }
{
    match faults {
        Some(faults) => first_of(faults),
        None => None,
    }
}

/// The refusal of the first of these faults.
fn first_of(faults: Faults) -> Option<Refusal>
    ensures { result ≡ refusal_in faults }
{
    if faults.too_wide {
        return Some(Refusal::Limit(Which::SignalWidth));
    }
    if let Some(line) = faults.unsupported {
        return Some(Refusal::UnsupportedCell { line });
    }
    if let Some(line) = faults.hierarchy {
        return Some(Refusal::Hierarchy { line });
    }
    if let Some(line) = faults.no_wire {
        return Some(Refusal::NoWire { line });
    }
    if let Some(line) = faults.bad_slice {
        return Some(Refusal::BadSlice { line });
    }
    if let Some(line) = faults.mismatch {
        return Some(Refusal::WidthMismatch { line });
    }
    if let Some(line) = faults.missing {
        return Some(Refusal::PortMissing { line });
    }
    None
}

/// How many cells the items have.
pub fn cell_count(items: &[Item<'_>]) -> usize
    ensures { result ≡ length (cells items.now) }
{
    let mut count = 0;
    for item in items {
        if let Item::Cell(_) = item {
            count += 1;
        }
    }
    count
}

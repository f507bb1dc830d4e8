//! The parts of a netlist text.

use crate::name::Name;
use crate::signal::{Signal, Value};
use sequences::Sequence;

/// The modules of a text, in order.
#[derive(Debug, Drop)]
pub struct Tree<'a> {
    pub modules: Sequence<Module<'a>>,
}

/// A module, from its `module` statement to its `end`.
#[derive(Debug, Drop)]
pub struct Module<'a> {
    /// The number of the line of its first statement, counted from 1; so with all lines below.
    pub line: u32,
    pub name: Name<'a>,
    /// The attributes that stand before it.
    pub attributes: Sequence<Attribute<'a>>,
    pub items: Sequence<Item<'a>>,
}

/// A note on a module, a wire or a cell.
#[derive(Debug, Drop)]
pub struct Attribute<'a> {
    pub name: Name<'a>,
    pub value: Value,
}

/// What a module is made of.
#[derive(Debug, Drop)]
pub enum Item<'a> {
    Parameter(Parameter<'a>),
    Wire(Wire<'a>),
    Cell(Cell<'a>),
    Connect(Connect<'a>),
}

/// A parameter of a module or a cell. A module's is plain, and may have no value.
#[derive(Debug, Drop)]
pub struct Parameter<'a> {
    pub line: u32,
    pub form: ParameterForm,
    pub name: Name<'a>,
    pub value: Option<Value>,
}

/// The word before a parameter's name, if there is one.
#[derive(Clone, Copy, Debug, PartialEq, Eq)]
pub enum ParameterForm {
    Plain,
    Signed,
    Real,
}

/// A wire of some bits.
#[derive(Debug, Drop)]
pub struct Wire<'a> {
    pub line: u32,
    pub name: Name<'a>,
    /// The attributes that stand before it.
    pub attributes: Sequence<Attribute<'a>>,
    /// How many bits it has.
    pub width: u32,
    pub offset: i32,
    pub port: Port,
    pub upto: bool,
    pub signed: bool,
}

/// Whether a wire leads into or out of its module, and the port's number.
#[derive(Clone, Copy, Debug, PartialEq, Eq)]
pub enum Port {
    Inner,
    Input(u32),
    Output(u32),
}

/// A cell of some kind.
#[derive(Debug, Drop)]
pub struct Cell<'a> {
    pub line: u32,
    pub kind: Name<'a>,
    pub name: Name<'a>,
    /// The attributes that stand before it.
    pub attributes: Sequence<Attribute<'a>>,
    pub parameters: Sequence<Parameter<'a>>,
    pub connects: Sequence<PortConnect<'a>>,
}

/// The signal on a port of a cell.
#[derive(Debug, Drop)]
pub struct PortConnect<'a> {
    pub line: u32,
    pub port: Name<'a>,
    pub signal: Signal<'a>,
}

/// Drives each bit of `left` by the bit of `right` at the same place.
#[derive(Debug, Drop)]
pub struct Connect<'a> {
    pub line: u32,
    pub left: Signal<'a>,
    pub right: Signal<'a>,
}

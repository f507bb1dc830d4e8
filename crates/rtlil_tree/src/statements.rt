//! The forms of statements, by place.

ghost use Rattle.std.specs.Prelude.{◌≡◌, map, option_map, Some};
ghost use Rattle.rtlil_tree.specs.Said.{Gives, plain};
ghost use Rattle.rtlil_tree.specs.Forms.{attribute_of, autoidx_of, begins_of, file_form_of, module_parameter_of, wire_of, cell_of, one_of, two_of, connect_of, end_of, module_form_of, parameter_form_of, cell_parameter_of, one_bit, wire_bit, only_signal, port_connect_of, cell_form_of, file_view, wire_view, module_view, cell_view};

use crate::constant::constant;
use crate::keyword::Keyword;
use crate::misfit::Misfit;
use crate::options::{Options, place, wire_options};
use crate::signals::signals;
use crate::word::Word;
use circuit_types::{Attribute, Connect, Name, Parameter, ParameterForm, Port, Signal};
use sqlite_items::Boxed;
use std::alloc::Global;

/// A statement between modules.
#[derive(Drop)]
pub enum FileStatement<'a> {
    Autoidx(i32),
    Attribute(Attribute<'a>),
    Module(&'a [u8]),
}

/// A statement of a module.
#[derive(Drop)]
pub enum ModuleStatement<'a> {
    Attribute(Attribute<'a>),
    Parameter(Parameter<'a>),
    Wire(WireStatement<'a>),
    /// A cell's kind and its name.
    Cell(&'a [u8], &'a [u8]),
    Connect(Connect<'a>),
    End,
}

/// A wire, without its attributes.
#[derive(Clone, Copy)]
pub struct WireStatement<'a> {
    pub name: &'a [u8],
    pub port: Port,
    pub options: Options,
}

/// A statement of a cell.
#[derive(Drop)]
pub enum CellStatement<'a> {
    Parameter(Parameter<'a>),
    /// The name of a port, and what is on it.
    Connect(&'a [u8], Signal<'a>),
    End,
}

/// What follows the word `attribute`.
fn attribute<'a>(alloc: Global, words: &[Word<'a>]) -> Result<Attribute<'a>, Misfit>
    ensures { Gives (λ a. a) result (attribute_of (map plain words.now)) }
{
    match words {
        [Word::Id(name), value] => {
            let value = constant(alloc, *value)?;
            let name = Name::in_text(name);
            Ok(Attribute { name, value })
        }
        _ => Err(Misfit::NoForm),
    }
}

/// What follows the word `autoidx`.
fn autoidx<'a>(words: &[Word<'_>]) -> Result<FileStatement<'a>, Misfit>
    ensures { Gives file_view result (autoidx_of (map plain words.now)) }
{
    match words {
        [Word::Int(number)] => Ok(FileStatement::Autoidx(*number)),
        _ => Err(Misfit::NoForm),
    }
}

/// What follows the word `module`.
fn module<'a>(words: &[Word<'a>]) -> Result<FileStatement<'a>, Misfit>
    ensures { Gives file_view result (begins_of (map plain words.now)) }
{
    match words {
        [Word::Id(name)] => Ok(FileStatement::Module(name)),
        _ => Err(Misfit::NoForm),
    }
}

/// A statement between modules.
pub fn file_statement<'a>(alloc: Global, words: &[Word<'a>]) -> Result<FileStatement<'a>, Misfit>
    ensures { Gives file_view result (file_form_of (map plain words.now)) }
{
    match words {
        [Word::Key(Keyword::Autoidx), rest @ ..] => autoidx(rest),
        [Word::Key(Keyword::Attribute), rest @ ..] => {
            let attribute = attribute(alloc, rest)?;
            Ok(FileStatement::Attribute(attribute))
        }
        [Word::Key(Keyword::Module), rest @ ..] => module(rest),
        _ => Err(Misfit::NoForm),
    }
}

/// What follows the word `parameter` in a module.
fn module_parameter<'a>(
    alloc: Global,
    line: u32,
    words: &[Word<'a>],
) -> Result<Parameter<'a>, Misfit>
    ensures { Gives (λ p. p) result (module_parameter_of line (map plain words.now)) }
{
    match words {
        [Word::Id(name)] => Ok(Parameter {
            line,
            form: ParameterForm::Plain,
            name: Name::in_text(name),
            value: None,
        }),
        [Word::Id(name), value] => {
            let value = constant(alloc, *value)?;
            Ok(Parameter {
                line,
                form: ParameterForm::Plain,
                name: Name::in_text(name),
                value: Some(value),
            })
        }
        _ => Err(Misfit::NoForm),
    }
}

/// What follows the word `wire`.
fn wire<'a>(words: &[Word<'a>]) -> Result<WireStatement<'a>, Misfit>
    ensures { Gives wire_view result (wire_of (map plain words.now)) }
{
    let Some((options, name)) = wire_options(words) else {
        return Err(Misfit::NoForm);
    };
    let Some(port) = options.port() else {
        return Err(Misfit::NoForm);
    };
    Ok(WireStatement {
        name,
        port,
        options,
    })
}

/// What follows the word `cell`.
fn cell<'a>(words: &[Word<'a>]) -> Result<ModuleStatement<'a>, Misfit>
    ensures { Gives module_view result (cell_of (map plain words.now)) }
{
    match words {
        [Word::Id(kind), Word::Id(name)] => Ok(ModuleStatement::Cell(kind, name)),
        _ => Err(Misfit::NoForm),
    }
}

/// The only signal of a list.
fn one<'a>(signals: Vec<Signal<'a>>) -> Result<Signal<'a>, Misfit>
    ensures { Gives (λ s. s) result (one_of signals.entry.items) }
{
    let mut signals = signals;
    let Some(signal) = signals.pop() else {
        return Err(Misfit::NoForm);
    };
    if signals.is_empty() {
        Ok(signal)
    } else {
        Err(Misfit::NoForm)
    }
}

/// The two signals of a list.
fn two<'a>(signals: Vec<Signal<'a>>) -> Result<(Signal<'a>, Signal<'a>), Misfit>
    ensures { Gives (λ s. s) result (two_of signals.entry.items) }
{
    let mut signals = signals;
    let Some(right) = signals.pop() else {
        return Err(Misfit::NoForm);
    };
    let left = one(signals)?;
    Ok((left, right))
}

/// What follows the word `connect` in a module.
fn connect<'a>(alloc: Global, line: u32, words: &[Word<'a>]) -> Result<Connect<'a>, Misfit>
    ensures { Gives (λ c. c) result (connect_of line (map plain words.now)) }
{
    let signals = signals(alloc, words)?;
    let (left, right) = two(signals)?;
    Ok(Connect { line, left, right })
}

/// What follows the word `end`.
fn is_alone(words: &[Word<'_>]) -> Result<(), Misfit>
    ensures { Gives (λ _. tt) result (end_of (map plain words.now)) }
{
    if words.is_empty() {
        Ok(())
    } else {
        Err(Misfit::NoForm)
    }
}

/// A statement of a module; a wire's `inout` is noted in its options.
pub fn module_statement<'a>(
    alloc: Global,
    line: u32,
    words: &[Word<'a>],
) -> Result<ModuleStatement<'a>, Misfit>
    ensures { Gives module_view result (module_form_of line (map plain words.now)) }
{
    match words {
        [Word::Key(Keyword::Attribute), rest @ ..] => {
            let attribute = attribute(alloc, rest)?;
            Ok(ModuleStatement::Attribute(attribute))
        }
        [Word::Key(Keyword::Parameter), rest @ ..] => {
            let parameter = module_parameter(alloc, line, rest)?;
            Ok(ModuleStatement::Parameter(parameter))
        }
        [Word::Key(Keyword::Wire), rest @ ..] => {
            let wire = wire(rest)?;
            Ok(ModuleStatement::Wire(wire))
        }
        [Word::Key(Keyword::Cell), rest @ ..] => cell(rest),
        [Word::Key(Keyword::Connect), rest @ ..] => {
            let connect = connect(alloc, line, rest)?;
            Ok(ModuleStatement::Connect(connect))
        }
        [Word::Key(Keyword::End), rest @ ..] => {
            is_alone(rest)?;
            Ok(ModuleStatement::End)
        }
        _ => Err(Misfit::NoForm),
    }
}

/// The form of a cell's parameter, and what follows its word.
fn parameter_form<'w, 'a>(words: &'w [Word<'a>]) -> (ParameterForm, &'w [Word<'a>])
    ensures { (result.0, map plain result.1.now) ≡ parameter_form_of (map plain words.now) }
{
    match words {
        [Word::Key(Keyword::Signed), rest @ ..] => (ParameterForm::Signed, rest),
        [Word::Key(Keyword::Real), rest @ ..] => (ParameterForm::Real, rest),
        rest => (ParameterForm::Plain, rest),
    }
}

/// What follows the word `parameter` in a cell.
fn cell_parameter<'a>(alloc: Global, line: u32, words: &[Word<'a>]) -> Result<Parameter<'a>, Misfit>
    ensures { Gives (λ p. p) result (cell_parameter_of line (map plain words.now)) }
{
    let (form, rest) = parameter_form(words);
    let Attribute { name, value } = attribute(alloc, rest)?;
    Ok(Parameter {
        line,
        form,
        name,
        value: Some(value),
    })
}

/// The wire and the place, where the words are a bit of a wire.
fn wire_bit<'a>(words: &[Word<'a>]) -> Option<(&'a [u8], u32)>
    ensures { option_map (λ x. (x.0.now, x.1)) result ≡ wire_bit (map plain words.now) }
{
    match words {
        [
            Word::Id(name),
            Word::OpenSlice,
            Word::Int(number),
            Word::CloseSlice,
        ] => {
            let place = place(*number)?;
            Some((name, place))
        }
        _ => None,
    }
}

/// The bit of a wire at a place.
fn one_bit<'a>(alloc: Global, name: &'a [u8], place: u32) -> Result<Signal<'a>, Misfit>
    ensures { Gives (λ s. s) result (Some (one_bit name.now place)) }
{
    let wire = Signal::Wire(Name::in_text(name));
    Ok(Signal::Slice {
        of: Boxed::new(alloc, wire)?,
        high: place,
        low: place,
    })
}

/// The only signal that the words are; most are a wire or a bit of one.
#[tactic(auto, unfolding(crate::specs::Forms::signals_from))]
fn only_signal<'a>(alloc: Global, words: &[Word<'a>]) -> Result<Signal<'a>, Misfit>
    ensures { Gives (λ s. s) result (only_signal (map plain words.now)) }
{
    if let [Word::Id(name)] = words {
        return Ok(Signal::Wire(Name::in_text(name)));
    }
    if let Some((name, place)) = wire_bit(words) {
        return one_bit(alloc, name, place);
    }
    let signals = signals(alloc, words)?;
    one(signals)
}

/// What follows the word `connect` in a cell.
fn port_connect<'a>(alloc: Global, words: &[Word<'a>]) -> Result<CellStatement<'a>, Misfit>
    ensures { Gives cell_view result (port_connect_of (map plain words.now)) }
{
    match words {
        [Word::Id(port), rest @ ..] => {
            let signal = only_signal(alloc, rest)?;
            Ok(CellStatement::Connect(port, signal))
        }
        _ => Err(Misfit::NoForm),
    }
}

/// A statement of a cell.
pub fn cell_statement<'a>(
    alloc: Global,
    line: u32,
    words: &[Word<'a>],
) -> Result<CellStatement<'a>, Misfit>
    ensures { Gives cell_view result (cell_form_of line (map plain words.now)) }
{
    match words {
        [Word::Key(Keyword::Connect), rest @ ..] => port_connect(alloc, rest),
        [Word::Key(Keyword::Parameter), rest @ ..] => {
            let parameter = cell_parameter(alloc, line, rest)?;
            Ok(CellStatement::Parameter(parameter))
        }
        [Word::Key(Keyword::End), rest @ ..] => {
            is_alone(rest)?;
            Ok(CellStatement::End)
        }
        _ => Err(Misfit::NoForm),
    }
}

//! The statements of a module.

ghost use Rattle.std.specs.Prelude.{◌≡◌, [], true, IfErr, OnOk};
ghost use Rattle.circuit_types.specs.declared.refusal.Refusal.TheVariants.{BadForm};
ghost use Rattle.circuit_types.specs.declared.refusal.Stop.TheVariants.{Refused};
ghost use Rattle.rtlil_tree.specs.Said.{Gives};
ghost use Rattle.rtlil_tree.specs.Forms.{module_view, wire_view, parameter, wire, cell_begins, connect};
ghost use Rattle.rtlil_tree.specs.Inner.Cursor.{line_view, GoesOn};
ghost use Rattle.rtlil_tree.specs.Machine.{has_some};
ghost use Rattle.rtlil_tree.specs.Inner.Reading.{form_in_module, HasItsNames, ReadsModuleLine};
ghost use Rattle.rtlil_tree.specs.Inner.Reading.{ModuleStepsTo, ModuleRunsTo, ReadsModule};

use crate::cell_body::{CellBody, read_cell_body};
use crate::line::Line;
use crate::lines::Lines;
use crate::misfit::{Misfit, answer_at, bad_form};
use crate::names::Names;
use crate::statements::{ModuleStatement, WireStatement, module_statement};
use crate::word::Word;
use circuit_types::{Attribute, Cell, Connect, Item, Name, Parameter, Refusal, Stop, Wire};
use sequences::Sequence;
use std::alloc::Global;
use std::mem;

/// What stands in a module, as far as it is read.
#[derive(Drop)]
pub struct ModuleBody<'a> {
    pub items: Vec<Item<'a>>,
    /// The attributes that stand before the next statement.
    pub held: Vec<Attribute<'a>>,
    pub wires: Names<'a>,
    pub cells: Names<'a>,
}

/// Refuses the statement on the line where attributes stand before it.
pub fn none_held(held: &[Attribute<'_>], line: u32) -> Result<(), Stop>
    ensures held { IfErr result (λ e. (has_some held.now ≡ true) × (e ≡ Refused (BadForm line))) }
    ensures none { OnOk result (held.now ≡ []) }
{
    match held {
        [] => Ok(()),
        _ => Err(bad_form(line)),
    }
}

/// The attributes, which are taken away.
pub fn taken<'a>(alloc: Global, held: &mut Vec<Attribute<'a>>) -> Sequence<Attribute<'a>>
    ensures attributes { result ≡ held.old.items }
    ensures none { held.new.items ≡ [] }
{
    Sequence::from_vec(mem::replace(held, Vec::new(alloc)))
}

impl<'a> ModuleBody<'a> {
    fn new(alloc: Global) -> ModuleBody<'a>
        ensures items { result.items.items ≡ [] }
        ensures held { result.held.items ≡ [] }
        ensures names { HasItsNames result }
    {
        ModuleBody {
            items: Vec::new(alloc),
            held: Vec::new(alloc),
            wires: Names::new(alloc),
            cells: Names::new(alloc),
        }
    }

    fn parameter(&mut self, line: u32, of: Parameter<'a>) -> Result<(), Stop>
        requires { HasItsNames self.old }
        ensures step { ModuleStepsTo result self.old self.new line (parameter of.entry) }
        ensures names { OnOk result (HasItsNames self.new) }
    {
        none_held(&self.held, line)?;
        self.items.push(Item::Parameter(of))?;
        Ok(())
    }

    fn connect(&mut self, line: u32, of: Connect<'a>) -> Result<(), Stop>
        requires { HasItsNames self.old }
        ensures step { ModuleStepsTo result self.old self.new line (connect of.entry) }
        ensures names { OnOk result (HasItsNames self.new) }
    {
        none_held(&self.held, line)?;
        self.items.push(Item::Connect(of))?;
        Ok(())
    }

    /// Adds a wire with a new name.
    fn wire(&mut self, alloc: Global, line: u32, of: WireStatement<'a>) -> Result<(), Stop>
        requires { HasItsNames self.old }
        ensures step { ModuleStepsTo result self.old self.new line (wire (wire_view of.entry)) }
        ensures names { OnOk result (HasItsNames self.new) }
    {
        if !self.wires.add(of.name)? {
            return Err(bad_form(line));
        }
        if of.options.inout {
            return Err(Stop::Refused(Refusal::UnsupportedStatement { line }));
        }
        let attributes = taken(alloc, &mut self.held);
        self.items.push(Item::Wire(Wire {
            line,
            name: Name::in_text(of.name),
            attributes,
            width: of.options.width,
            offset: of.options.offset,
            port: of.port,
            upto: of.options.upto,
            signed: of.options.signed,
        }))?;
        Ok(())
    }

    /// Reads a cell with a new name, up to its `end`.
    fn cell(
        &mut self,
        alloc: Global,
        lines: &mut Lines<'a>,
        line: u32,
        kind: &'a [u8],
        name: &'a [u8],
        words: &mut Vec<Word<'a>>,
    ) -> Result<(), Stop>
        requires { HasItsNames self.old }
        ensures cell { ModuleRunsTo result self.old self.new lines.old lines.new line
            (cell_begins kind.now name.now) }
        ensures names { OnOk result (HasItsNames self.new) }
        ensures on { OnOk result (GoesOn lines.old lines.new) }
    {
        if !self.cells.add(name)? {
            return Err(bad_form(line));
        }
        let CellBody {
            parameters,
            connects,
            ports: _,
        } = read_cell_body(alloc, lines, words)?;
        let attributes = taken(alloc, &mut self.held);
        self.items.push(Item::Cell(Cell {
            line,
            kind: Name::in_text(kind),
            name: Name::in_text(name),
            attributes,
            parameters: Sequence::from_vec(parameters),
            connects: Sequence::from_vec(connects),
        }))?;
        Ok(())
    }
}

fn form<'a>(
    alloc: Global,
    line: &Line<'_, 'a>,
    words: &mut Vec<Word<'a>>,
) -> Result<ModuleStatement<'a>, Misfit>
    ensures { Gives module_view result (form_in_module (line_view line.now)) }
{
    line.words(words)?;
    module_statement(alloc, line.number, words)
}

/// The statement of a module on the line.
fn statement<'a>(
    alloc: Global,
    line: &Line<'_, 'a>,
    words: &mut Vec<Word<'a>>,
) -> Result<ModuleStatement<'a>, Stop>
    ensures { ReadsModuleLine result line.now }
{
    let number = line.number;
    if line.is_foreign() {
        return Err(Stop::Refused(Refusal::UnsupportedStatement { line: number }));
    }
    answer_at(form(alloc, line, words), number)
}

/// Reads what stands in a module, up to its `end`; the words of each line in turn stand in `words`.
pub fn read_module_body<'a>(
    alloc: Global,
    lines: &mut Lines<'a>,
    words: &mut Vec<Word<'a>>,
) -> Result<Vec<Item<'a>>, Stop>
    ensures body { ReadsModule result lines.old lines.new }
    ensures on { OnOk result (GoesOn lines.old lines.new) }
{
    let mut body = ModuleBody::new(alloc);
    while lines.advance(alloc)? {
        let line = lines.line();
        let number = line.number;
        match statement(alloc, &line, words)? {
            ModuleStatement::Attribute(attribute) => {
                body.held.push(attribute)?;
            }
            ModuleStatement::Parameter(parameter) => {
                body.parameter(number, parameter)?;
            }
            ModuleStatement::Wire(wire) => {
                body.wire(alloc, number, wire)?;
            }
            ModuleStatement::Cell(kind, name) => {
                body.cell(alloc, lines, number, kind, name, words)?;
            }
            ModuleStatement::Connect(connect) => {
                body.connect(number, connect)?;
            }
            ModuleStatement::End => {
                none_held(&body.held, number)?;
                return Ok(body.items);
            }
        }
    }
    Err(bad_form(lines.end_line))
}

//! The statements of a cell.

ghost use Rattle.std.specs.Prelude.{◌≡◌, [], ◌∷◌, ◌++◌, not, IfOk, OnOk, IsTrue, Some};
ghost use Rattle.std.specs.List.{list_any};
ghost use Rattle.std.specs.Str.{bytes_eq};
ghost use Rattle.circuit_types.specs.declared.tree.PortConnect.{PortConnect as AnyConnect};
ghost use Rattle.rtlil_tree.specs.Names.{is_among, port_names};
ghost use Rattle.rtlil_tree.specs.Inner.Seen.{HaveSameNames};
ghost use Rattle.rtlil_tree.specs.Said.{Gives};
ghost use Rattle.rtlil_tree.specs.Forms.{cell_view, port_connect};
ghost use Rattle.rtlil_tree.specs.Inner.Cursor.{line_view, GoesOn};
ghost use Rattle.rtlil_tree.specs.Inner.Reading.{form_in_cell, late, HasItsPorts, ReadsCellLine, CellStepsTo, ReadsCell};

use crate::line::Line;
use crate::lines::Lines;
use crate::misfit::{Misfit, answer_at, bad_form};
use crate::names::Names;
use crate::statements::{CellStatement, cell_statement};
use crate::word::Word;
use circuit_types::{Name, NoMemory, Parameter, PortConnect, Signal, Stop};
use std::alloc::{AllocError, Global};

/// So many connects of a cell are gone through for a port; the ports of further ones stand in a set.
const MOST_FEW: usize = 8;

/// What stands in a cell, as far as it is read.
#[derive(Drop)]
pub struct CellBody<'a> {
    pub parameters: Vec<Parameter<'a>>,
    pub connects: Vec<PortConnect<'a>>,
    /// The ports that are connected, but for those of the first connects.
    pub ports: Names<'a>,
}

impl<'a> CellBody<'a> {
    /// Nothing yet, with room for three connects, which most cells have.
    fn new(alloc: Global) -> Result<CellBody<'a>, AllocError>
        ensures parameters { IfOk result (λ b. b.parameters.items ≡ []) }
        ensures connects { IfOk result (λ b. b.connects.items ≡ []) }
        ensures ports { IfOk result HasItsPorts }
    {
        Ok(CellBody {
            parameters: Vec::new(alloc),
            connects: Vec::with_capacity(alloc, 3)?,
            ports: Names::new(alloc),
        })
    }

    /// Adds the connect of a port that is not connected yet.
    fn connect(&mut self, line: u32, port: &'a [u8], signal: Signal<'a>) -> Result<(), Stop>
        requires { HasItsPorts self.old }
        ensures step { CellStepsTo result self.old self.new line (port_connect port.now signal.entry) }
        ensures ports { OnOk result (HasItsPorts self.new) }
    {
        if !add_port(&self.connects, &mut self.ports, port)? {
            return Err(bad_form(line));
        }
        let port = Name::in_text(port);
        self.connects.push(PortConnect { line, port, signal })?;
        Ok(())
    }
}

fn has_port(connects: &[PortConnect<'_>], port: &[u8]) -> bool
    ensures { result ≡ list_any (λ (c : AnyConnect). bytes_eq port.now c.port) connects.now }
{
    connects
        .iter()
        .any(|connect| port == connect.port.as_slice())
}

/// Adds a port behind those of the connects; answers whether it is new. The ports of the connects behind the first ones
/// stand in a set.
fn add_port<'a>(
    connects: &[PortConnect<'_>],
    ports: &mut Names<'a>,
    port: &'a [u8],
) -> Result<bool, NoMemory>
    requires { HaveSameNames ports.old (late (port_names connects.now)) }
    ensures new { IfOk result (λ added. added ≡ not (is_among port.now (port_names connects.now))) }
    ensures ports { IfOk result (λ added. IsTrue added → HaveSameNames ports.new (late (port_names connects.now ++ port.now ∷ []))) }
{
    let few = connects.len().min(MOST_FEW);
    if has_port(&connects[..few], port) {
        return Ok(false);
    }
    if few < MOST_FEW {
        return Ok(true);
    }
    ports.add(port)
}

fn form<'a>(
    alloc: Global,
    line: &Line<'_, 'a>,
    words: &mut Vec<Word<'a>>,
) -> Result<CellStatement<'a>, Misfit>
    ensures { Gives cell_view result (form_in_cell (line_view line.now)) }
{
    line.words(words)?;
    cell_statement(alloc, line.number, words)
}

/// The statement of a cell on the line.
fn statement<'a>(
    alloc: Global,
    line: &Line<'_, 'a>,
    words: &mut Vec<Word<'a>>,
) -> Result<CellStatement<'a>, Stop>
    ensures { ReadsCellLine result line.now }
{
    answer_at(form(alloc, line, words), line.number)
}

/// Reads what stands in a cell, up to its `end`; the words of each line in turn stand in `words`.
pub fn read_cell_body<'a>(
    alloc: Global,
    lines: &mut Lines<'a>,
    words: &mut Vec<Word<'a>>,
) -> Result<CellBody<'a>, Stop>
    ensures body { ReadsCell result lines.old lines.new }
    ensures on { OnOk result (GoesOn lines.old lines.new) }
{
    let mut body = CellBody::new(alloc)?;
    while lines.advance(alloc)? {
        let line = lines.line();
        let number = line.number;
        match statement(alloc, &line, words)? {
            CellStatement::Parameter(parameter) => {
                body.parameters.push(parameter)?;
            }
            CellStatement::Connect(port, signal) => {
                body.connect(number, port, signal)?;
            }
            CellStatement::End => return Ok(body),
        }
    }
    Err(bad_form(lines.end_line))
}

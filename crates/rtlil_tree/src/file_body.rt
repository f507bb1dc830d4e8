//! The statements of a file.

ghost use Rattle.std.specs.Prelude.{◌≡◌, [], OnOk};
ghost use Rattle.rtlil_tree.specs.Said.{Gives};
ghost use Rattle.rtlil_tree.specs.Forms.{file_view, begins};
ghost use Rattle.rtlil_tree.specs.Inner.Cursor.{line_view, GoesOn, ReadsWhole};
ghost use Rattle.rtlil_tree.specs.Inner.Reading.{form_in_file, HasItsModules, ReadsFileLine, FileRunsTo, ReadsFile};

use crate::line::Line;
use crate::lines::Lines;
use crate::misfit::{Misfit, answer_at, bad_form};
use crate::module_body::{none_held, read_module_body, taken};
use crate::names::Names;
use crate::statements::{FileStatement, file_statement};
use crate::word::Word;
use circuit_types::{Attribute, Module, Name, Stop, Tree};
use sequences::Sequence;
use std::alloc::Global;

/// What stands in a file, as far as it is read.
#[derive(Drop)]
pub struct FileBody<'a> {
    pub modules: Vec<Module<'a>>,
    /// The attributes that stand before the next statement.
    pub held: Vec<Attribute<'a>>,
    pub names: Names<'a>,
}

impl<'a> FileBody<'a> {
    fn new(alloc: Global) -> FileBody<'a>
        ensures modules { result.modules.items ≡ [] }
        ensures held { result.held.items ≡ [] }
        ensures names { HasItsModules result }
    {
        FileBody {
            modules: Vec::new(alloc),
            held: Vec::new(alloc),
            names: Names::new(alloc),
        }
    }

    /// Reads a module with a new name, up to its `end`.
    fn module(
        &mut self,
        alloc: Global,
        lines: &mut Lines<'a>,
        line: u32,
        name: &'a [u8],
        words: &mut Vec<Word<'a>>,
    ) -> Result<(), Stop>
        requires { HasItsModules self.old }
        ensures module { FileRunsTo result self.old self.new lines.old lines.new line (begins name.now) }
        ensures names { OnOk result (HasItsModules self.new) }
        ensures on { OnOk result (GoesOn lines.old lines.new) }
    {
        if !self.names.add(name)? {
            return Err(bad_form(line));
        }
        let items = read_module_body(alloc, lines, words)?;
        let attributes = taken(alloc, &mut self.held);
        self.modules.push(Module {
            line,
            name: Name::in_text(name),
            attributes,
            items: Sequence::from_vec(items),
        })?;
        Ok(())
    }
}

fn form<'a>(
    alloc: Global,
    line: &Line<'_, 'a>,
    words: &mut Vec<Word<'a>>,
) -> Result<FileStatement<'a>, Misfit>
    ensures { Gives file_view result (form_in_file (line_view line.now)) }
{
    line.words(words)?;
    file_statement(alloc, words)
}

/// The statement of a file on the line.
fn statement<'a>(
    alloc: Global,
    line: &Line<'_, 'a>,
    words: &mut Vec<Word<'a>>,
) -> Result<FileStatement<'a>, Stop>
    ensures { ReadsFileLine result line.now }
{
    answer_at(form(alloc, line, words), line.number)
}

/// Reads all statements.
pub fn read_file<'a>(alloc: Global, lines: &mut Lines<'a>) -> Result<Tree<'a>, Stop>
    ensures file { ReadsFile result lines.old }
    ensures whole { OnOk result (ReadsWhole lines.old lines.new) }
{
    let mut body = FileBody::new(alloc);
    let mut words = Vec::new(alloc);
    while lines.advance(alloc)? {
        let line = lines.line();
        let number = line.number;
        match statement(alloc, &line, &mut words)? {
            FileStatement::Autoidx(_) => {
                none_held(&body.held, number)?;
            }
            FileStatement::Attribute(attribute) => {
                body.held.push(attribute)?;
            }
            FileStatement::Module(name) => {
                body.module(alloc, lines, number, name, &mut words)?;
            }
        }
    }
    none_held(&body.held, lines.end_line)?;
    Ok(Tree {
        modules: Sequence::from_vec(body.modules),
    })
}

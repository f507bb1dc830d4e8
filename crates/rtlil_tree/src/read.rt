//! The tree of a whole text.

ghost use Rattle.std.specs.Prelude.{◌≡◌, ◌≤◌, ℕ, List, length, IfOk, IfErr, IsSome};
ghost use Rattle.rtlil_lex.specs.Tokens.{line_at};
ghost use Rattle.rtlil_lex.specs.declared.cursor.TheConstants.{MOST_BYTES};
ghost use Rattle.circuit_types.specs.Top.{top_of};
ghost use Rattle.circuit_types.specs.declared.refusal.Refusal.{Refusal};
ghost use Rattle.circuit_types.specs.declared.tree.Tree.{Tree};
ghost use Rattle.rtlil_tree.specs.Text.{Stands};
ghost use Rattle.rtlil_tree.specs.Refusals.{IsRefused};
ghost use Rattle.rtlil_tree.specs.Inner.Reading.{ReadsText, IsDueFor, fault_stop, topped};
ghost use Rattle.rtlil_tree.specs.Answers.{StandsWithTop, HasStop, AnswersTree, AnswersRefusal};

use crate::file_body::read_file;
use crate::lines::Lines;
use circuit_types::{Refusal, Stop, Tree, top};
use rtlil_lex::{LexFault, MOST_BYTES, lex};
use std::alloc::Global;

/// The number of the line on which a place is.
fn line_at(bytes: &[u8], place: usize) -> u32
    requires { length bytes.now ≤ MOST_BYTES }
    ensures { result ≡ line_at bytes.now place }
{
    let before = &bytes[..place.min(bytes.len())];
    1 + before.iter().filter(|b| **b == b'\n').count() as u32
}

/// Why a text without tokens is not read.
fn fault_stop(bytes: &[u8], fault: LexFault) -> Stop
    requires { length bytes.now ≤ MOST_BYTES }
    ensures { result ≡ fault_stop bytes.now fault }
{
    match fault {
        LexFault::BadByte(place) => Stop::Refused(Refusal::BadToken {
            line: line_at(bytes, place as usize),
        }),
        LexFault::OpenString(place) => Stop::Refused(Refusal::BadToken {
            line: line_at(bytes, place as usize),
        }),
        LexFault::NoMemory => Stop::NoMemory,
    }
}

/// Why a text is not read, of whose statements this is refused: a bad token is refused before them, wherever it is.
fn refused(alloc: Global, bytes: &[u8], refusal: Refusal) -> Stop
    requires { length bytes.now ≤ MOST_BYTES }
    ensures { IsDueFor refusal bytes.now result }
{
    match lex(alloc, bytes) {
        Ok(_) => Stop::Refused(refusal),
        Err(fault) => fault_stop(bytes, fault),
    }
}

/// The tree of the statements.
fn read_text(alloc: Global, bytes: &[u8]) -> Result<Tree<'_>, Stop>
    requires { length bytes.now ≤ MOST_BYTES }
    ensures { ReadsText result bytes.now }
{
    let mut lines = Lines::new(alloc, bytes);
    match read_file(alloc, &mut lines) {
        Ok(tree) => Ok(tree),
        Err(Stop::Refused(refusal)) => Err(refused(alloc, bytes, refusal)),
        Err(Stop::NoMemory) => Err(Stop::NoMemory),
    }
}

/// The tree, if it has a top module.
fn topped(tree: Tree<'_>) -> Result<Tree<'_>, Stop>
    ensures { result ≡ topped tree.entry }
{
    match top(&tree) {
        Some(_) => Ok(tree),
        None => Err(Stop::Refused(Refusal::NoTop)),
    }
}

/// The tree that a text stands for, if it has a top module; or which refusal is due. The names of the tree lie in the text.
pub fn read_tree(alloc: Global, bytes: &[u8]) -> Result<Tree<'_>, Stop>
    requires { length bytes.now ≤ MOST_BYTES }
    // What is answered holds of the bytes.
    ensures tree { IfOk result (StandsWithTop bytes.now) }
    ensures refused { IfErr result (HasStop bytes.now) }

    // What holds of the bytes is answered, unless memory was refused.
    ensures all_trees { (t : Tree) → Stands bytes.now t → IsSome (top_of t) → AnswersTree result t }
    ensures all_refusals { (r : Refusal) → IsRefused bytes.now r → AnswersRefusal result r }
{
    let tree = read_text(alloc, bytes)?;
    topped(tree)
}

//! The statements of a text, one after the other. The text is read part by part, so that few of its tokens are kept.

ghost use Rattle.std.specs.Prelude.{◌≡◌, ◌-◌, ◌≤◌, ◌<◌, length, slice_index_or};
ghost use Rattle.rtlil_lex.specs.Tokens.{line_at};
ghost use Rattle.rtlil_lex.specs.declared.cursor.TheConstants.{MOST_BYTES};

use crate::line::Line;
use crate::misfit::part_stop;
use crate::part::{Part, part_size};
use circuit_types::Stop;
use std::alloc::Global;

/// A text, and how far it is read.
#[derive(Drop)]
pub struct Lines<'a> {
    pub bytes: &'a [u8],
    /// The place behind the part.
    pub place: usize,
    /// The number of the line on which the part ends.
    pub end_line: u32,
    pub part: Part<'a>,
    ghost within: { place ≤ length bytes.now },
    ghost short: { length bytes.now ≤ MOST_BYTES },
    ghost counted: { end_line ≡ line_at bytes.now place },
    ghost begins: { 0 < place → place < length bytes.now → slice_index_or bytes.now (place - 1) 0 ≡ 10 },
}

impl<'a> Lines<'a> {
    ghost use Rattle.std.specs.Prelude.{true, false, IfOk, OnOk};
    ghost use Rattle.rtlil_tree.specs.Inner.Cursor.{line_view, current_of, work_of, GoesOn, IsBegun, IsCut, IsLoaded, IsTaken};

    pub fn new(alloc: Global, bytes: &'a [u8]) -> Lines<'a>
        requires { length bytes.now ≤ MOST_BYTES }
        ensures { IsBegun bytes.now result }
    {
        Lines {
            bytes,
            place: 0,
            end_line: 1,
            part: Part::none(alloc),
        }
    }

    /// The bytes of the next part.
    fn next_bytes(&self) -> &'a [u8]
        requires { self.now.place < length self.now.bytes.now }
        ensures { IsCut self.now result.now }
    {
        let rest = &self.bytes[self.place..];
        &rest[..part_size(rest)]
    }

    /// Reads the tokens of the next part.
    fn load(&mut self, alloc: Global) -> Result<(), Stop>
        requires { self.old.place < length self.old.bytes.now }
        ensures load { IsLoaded self.old self.new result }
        ensures on { OnOk result (GoesOn self.old self.new) }
        ensures less { OnOk result (work_of self.new < work_of self.old) }
    {
        let bytes = self.next_bytes();
        self.part = match Part::read(alloc, bytes, self.end_line - 1) {
            Ok(part) => part,
            Err(fault) => return Err(part_stop(fault, self.end_line)),
        };
        self.place += bytes.len();
        self.end_line = self.part.end_line();
        Ok(())
    }

    /// Goes to the next line that has a token; answers whether there is one.
    pub fn advance(&mut self, alloc: Global) -> Result<bool, Stop>
        ensures line { IsTaken self.old self.new result }
        ensures on { OnOk result (GoesOn self.old self.new) }
        ensures less { IfOk result (λ some. some ≡ true → work_of self.new < work_of self.old) }
        ensures at_end { IfOk result (λ some. some ≡ false → self.new.place ≡ length self.new.bytes.now) }
    {
        while !self.part.advance() {
            if self.place == self.bytes.len() {
                return Ok(false);
            }
            self.load(alloc)?;
        }
        Ok(true)
    }

    /// The line that was read last.
    pub fn line(&self) -> Line<'_, 'a>
        ensures { line_view result ≡ current_of self.now.part }
    {
        self.part.line()
    }
}

//! The lines of a certificate, one after the other.

ghost use Rattle.std.specs.Prelude.{◌≡◌, ◌≤◌, ◌<◌, ◌+◌, length, MatchResult};
ghost use Rattle.certificate.specs.declared.line.Line.TheVariants as line;
ghost use Rattle.certificate.specs.declared.fault.Why.TheVariants.{Extra};
ghost use Rattle.certificate.specs.declared.fault.ReadBad.TheVariants.{Bad};
ghost use Rattle.certificate.specs.declared.reader.TheConstants.{MOST_BYTES};
ghost use Rattle.certificate.specs.Certificates.{HasFault, header_lines};
ghost use Rattle.certificate.specs.Reading.{HasRead, IsMisfit, IsWrongEnd, ReadsOne, hull_or_end, is_any, is_counts, is_cuts, is_run, is_title};

use crate::entries::Header;
use crate::fault::{ReadBad, Why};
use crate::line::Line;
use crate::place::read_line;
use circuit_types::Model;
use expr_table::Notion;
use sequences::Sequence;
use std::alloc::Global;

/// The most bytes that a certificate may have.
pub const MOST_BYTES: usize = 268_435_456;

/// The version of the format.
pub const VERSION: u32 = 1;

/// The bytes of a certificate, and how far their lines are read.
#[derive(Drop)]
pub struct Reader<'a> {
    pub alloc: Global,
    pub bytes: &'a [u8],
    /// Where the next line begins.
    pub place: usize,
    /// How many lines were read.
    pub number: u32,
    ghost within: { place ≤ length bytes.now },
    ghost short: { length bytes.now ≤ MOST_BYTES },
    ghost counted: { number ≤ place },
}

impl<'a> Reader<'a> {
    pub fn new(alloc: Global, bytes: &'a [u8]) -> Self
        requires { length bytes.now ≤ MOST_BYTES }
        ensures input { result.bytes.now ≡ bytes.now }
        ensures start { result.place ≡ 0 }
        ensures none { result.number ≡ 0 }
    {
        Reader {
            alloc,
            bytes,
            place: 0,
            number: 0,
        }
    }

    /// What is wrong with the line that was read last.
    fn bad(&self, why: Why) -> ReadBad
        ensures { result ≡ Bad self.now.number why }
    {
        ReadBad::Bad {
            line: self.number,
            why,
        }
    }

    /// The next line, whatever it says.
    fn next_line(&mut self) -> Result<Line, ReadBad>
        ensures input { self.new.bytes.now ≡ self.old.bytes.now }
        ensures line { MatchResult result
            (λ line. ReadsOne self.old.bytes.now self.old.place self.old.number line self.new.place self.new.number)
            (IsMisfit is_any self.old.bytes.now self.old.place self.old.number) }
    {
        let Some((line, after)) = read_line(self.alloc, self.bytes, self.place)? else {
            return Err(ReadBad::Bad {
                line: self.number + 1,
                why: Why::Form,
            });
        };
        self.place = after;
        self.number += 1;
        Ok(line)
    }

    fn title(&mut self) -> Result<(), ReadBad>
        ensures input { self.new.bytes.now ≡ self.old.bytes.now }
        ensures line { MatchResult result
            (λ _. ReadsOne self.old.bytes.now self.old.place self.old.number (line.Title 1) self.new.place self.new.number)
            (IsMisfit is_title self.old.bytes.now self.old.place self.old.number) }
    {
        let Line::Title(version) = self.next_line()? else {
            return Err(self.bad(Why::Form));
        };
        if version == VERSION {
            return Ok(());
        }
        Err(self.bad(Why::Form))
    }

    fn run(&mut self) -> Result<(Notion, u32, Model), ReadBad>
        ensures input { self.new.bytes.now ≡ self.old.bytes.now }
        ensures line { MatchResult result
            (λ run. ReadsOne self.old.bytes.now self.old.place self.old.number (line.Run run.0 run.1 run.2)
            self.new.place self.new.number)
            (IsMisfit is_run self.old.bytes.now self.old.place self.old.number) }
    {
        let Line::Run {
            notion,
            order,
            model,
        } = self.next_line()?
        else {
            return Err(self.bad(Why::Form));
        };
        Ok((notion, order, model))
    }

    fn counts(&mut self) -> Result<(u32, u32, u64), ReadBad>
        ensures input { self.new.bytes.now ≡ self.old.bytes.now }
        ensures line { MatchResult result
            (λ counts. ReadsOne self.old.bytes.now self.old.place self.old.number (line.Counts counts.0 counts.1 counts.2)
            self.new.place self.new.number)
            (IsMisfit is_counts self.old.bytes.now self.old.place self.old.number) }
    {
        let Line::Counts {
            probes,
            rows,
            tuples,
        } = self.next_line()?
        else {
            return Err(self.bad(Why::Form));
        };
        Ok((probes, rows, tuples))
    }

    /// What the first three lines say.
    pub fn header(&mut self) -> Result<Header, ReadBad>
        requires start { self.old.place ≡ 0 }
        requires none { self.old.number ≡ 0 }
        ensures input { self.new.bytes.now ≡ self.old.bytes.now }
        ensures lines { MatchResult result
            (λ header. HasRead self.old.bytes.now self.new.place self.new.number (header_lines header))
            (HasFault self.old.bytes.now) }
    {
        self.title()?;
        let (notion, order, model) = self.run()?;
        let (probes, rows, tuples) = self.counts()?;
        Ok(Header {
            notion,
            order,
            model,
            probes,
            rows,
            tuples,
        })
    }

    /// The next hull; or `None` at an `end` line that says the number of the entries.
    pub fn hull(&mut self, entries: usize) -> Result<Option<Sequence<u32>>, ReadBad>
        ensures input { self.new.bytes.now ≡ self.old.bytes.now }
        ensures line { MatchResult result
            (λ hull. ReadsOne self.old.bytes.now self.old.place self.old.number (hull_or_end entries hull)
            self.new.place self.new.number)
            (IsWrongEnd self.old.bytes.now self.old.place self.old.number entries) }
    {
        match self.next_line()? {
            Line::Hull(members) => Ok(Some(members)),
            Line::End(number) => {
                let due = entries as u64;
                if number == due {
                    Ok(None)
                } else {
                    Err(self.bad(Why::Count))
                }
            }
            _ => Err(self.bad(Why::Form)),
        }
    }

    /// The cuts that come next.
    pub fn cuts(&mut self) -> Result<Sequence<u32>, ReadBad>
        ensures input { self.new.bytes.now ≡ self.old.bytes.now }
        ensures line { MatchResult result
            (λ rows. ReadsOne self.old.bytes.now self.old.place self.old.number (line.Cuts rows)
            self.new.place self.new.number)
            (IsMisfit is_cuts self.old.bytes.now self.old.place self.old.number) }
    {
        let Line::Cuts(rows) = self.next_line()? else {
            return Err(self.bad(Why::Form));
        };
        Ok(rows)
    }

    /// That nothing follows.
    pub fn finish(&self) -> Result<(), ReadBad>
        ensures { MatchResult result (λ _. self.now.place ≡ length self.now.bytes.now)
            (λ bad. (bad ≡ Bad (self.now.number + 1) Extra) × (self.now.place < length self.now.bytes.now)) }
    {
        if self.place < self.bytes.len() {
            return Err(ReadBad::Bad {
                line: self.number + 1,
                why: Why::Extra,
            });
        }
        Ok(())
    }
}

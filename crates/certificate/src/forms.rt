//! The forms of lines, each read on its own.

ghost use Rattle.std.specs.Prelude.{◌≡◌, ◌^◌, List, ℕ, MatchOption, IfOk};
ghost use Rattle.expr_table.specs.declared.instance.Notion.{Notion as AnyNotion};
ghost use Rattle.circuit_types.specs.declared.probes.Model.{Model as AnyModel};
ghost use Rattle.certificate.specs.declared.line.Line.TheVariants as line;
ghost use Rattle.certificate.specs.Parts.{LineFirst};

use crate::line::Line;
use crate::number::{after, number_after, small_after};
use crate::numbers::{is_hull, list_after};
use crate::words::{model_after, notion_after};
use sequences::{NoMemory, Sequence};
use std::alloc::Global;

/// A line, and what follows it.
pub type Found<'a> = (Line, &'a [u8]);

pub fn title(bytes: &[u8]) -> Option<Found<'_>>
    ensures { MatchOption result ((version : ℕ) (rest : List ℕ) → LineFirst bytes.now (line.Title version) rest → ⊥)
        (λ found. LineFirst bytes.now found.0 found.1.now) }
{
    let (version, rest) = small_after(bytes, b"maskverif certificate ")?;
    let rest = after(rest, b"\n")?;
    Some((Line::Title(version), rest))
}

pub fn run(bytes: &[u8]) -> Option<Found<'_>>
    ensures { MatchOption result ((notion : AnyNotion) (order : ℕ) (model : AnyModel) (rest : List ℕ)
        → LineFirst bytes.now (line.Run notion order model) rest → ⊥)
        (λ found. LineFirst bytes.now found.0 found.1.now) }
{
    let (notion, rest) = notion_after(bytes, b"notion ")?;
    let (order, rest) = small_after(rest, b" order ")?;
    let (model, rest) = model_after(rest, b" model ")?;
    let rest = after(rest, b"\n")?;
    let line = Line::Run {
        notion,
        order,
        model,
    };
    Some((line, rest))
}

pub fn counts(bytes: &[u8]) -> Option<Found<'_>>
    ensures { MatchOption result ((probes rows tuples : ℕ) (rest : List ℕ)
        → LineFirst bytes.now (line.Counts probes rows tuples) rest → ⊥)
        (λ found. LineFirst bytes.now found.0 found.1.now) }
{
    let (probes, rest) = small_after(bytes, b"probes ")?;
    let (rows, rest) = small_after(rest, b" rows ")?;
    let (tuples, rest) = number_after(rest, b" tuples ")?;
    let rest = after(rest, b"\n")?;
    let line = Line::Counts {
        probes,
        rows,
        tuples,
    };
    Some((line, rest))
}

pub fn hull(alloc: Global, bytes: &[u8]) -> Result<Option<Found<'_>>, NoMemory>
    ensures { IfOk result (λ form. MatchOption form ((members rest : List ℕ) → LineFirst bytes.now (line.Hull members) rest → ⊥)
        (λ found. LineFirst bytes.now found.0 found.1.now)) }
{
    let Some((members, rest)) = list_after(alloc, bytes, b"hull")? else {
        return Ok(None);
    };
    if !is_hull(members.as_slice()) {
        return Ok(None);
    }
    let line = Line::Hull(Sequence::from_vec(members));
    Ok(Some((line, rest)))
}

pub fn cuts(alloc: Global, bytes: &[u8]) -> Result<Option<Found<'_>>, NoMemory>
    ensures { IfOk result (λ form. MatchOption form ((rows rest : List ℕ) → LineFirst bytes.now (line.Cuts rows) rest → ⊥)
        (λ found. LineFirst bytes.now found.0 found.1.now)) }
{
    let Some((rows, rest)) = list_after(alloc, bytes, b"cuts")? else {
        return Ok(None);
    };
    let line = Line::Cuts(Sequence::from_vec(rows));
    Ok(Some((line, rest)))
}

pub fn end(bytes: &[u8]) -> Option<Found<'_>>
    ensures { MatchOption result ((number : ℕ) (rest : List ℕ) → LineFirst bytes.now (line.End number) rest → ⊥)
        (λ found. LineFirst bytes.now found.0 found.1.now) }
{
    let (number, rest) = number_after(bytes, b"end ")?;
    let rest = after(rest, b"\n")?;
    Some((Line::End(number), rest))
}

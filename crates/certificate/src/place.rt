//! The line that begins at a place.

ghost use Rattle.std.specs.Prelude.{◌≤◌, List, ℕ, length, MatchOption, IfOk};
ghost use Rattle.certificate.specs.declared.line.Line.{Line as AnyLine};
ghost use Rattle.certificate.specs.Lines.{HasNoLineAt, StandsAt};
ghost use Rattle.certificate.specs.Parts.{LineFirst};

use crate::forms::{Found, counts, cuts, end, hull, run, title};
use crate::line::Line;
use sequences::NoMemory;
use std::alloc::Global;

/// The line that the bytes begin with, and what follows it.
fn first_line(alloc: Global, bytes: &[u8]) -> Result<Option<Found<'_>>, NoMemory>
    ensures { IfOk result (λ form. MatchOption form ((line : AnyLine) (rest : List ℕ) → LineFirst bytes.now line rest → ⊥)
        (λ found. LineFirst bytes.now found.0 found.1.now)) }
{
    if let Some(found) = hull(alloc, bytes)? {
        return Ok(Some(found));
    }
    if let Some(found) = cuts(alloc, bytes)? {
        return Ok(Some(found));
    }
    if let Some(found) = end(bytes) {
        return Ok(Some(found));
    }
    if let Some(found) = title(bytes) {
        return Ok(Some(found));
    }
    if let Some(found) = run(bytes) {
        return Ok(Some(found));
    }
    Ok(counts(bytes))
}

/// The line that begins at a place, and the place after its line feed; or `None` where no line of any form begins there.
pub fn read_line(alloc: Global, bytes: &[u8], at: usize) -> Result<Option<(Line, usize)>, NoMemory>
    requires { at ≤ length bytes.now }
    ensures { IfOk result (λ form. MatchOption form (HasNoLineAt bytes.now at) (λ found. StandsAt bytes.now at found.0 found.1)) }
{
    let Some((line, rest)) = first_line(alloc, &bytes[at..])? else {
        return Ok(None);
    };
    let after = bytes.len() - rest.len();
    Ok(Some((line, after)))
}

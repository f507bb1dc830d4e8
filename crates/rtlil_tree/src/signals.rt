//! Signals.

ghost use Rattle.std.specs.Prelude.{◌≡◌, ◌<◌, ◌≤◌, ◌+◌, length, map, min, IfSome, IfOk};
ghost use Rattle.rtlil_tree.specs.Statements.{nesting_of};
ghost use Rattle.rtlil_tree.specs.Said.{Gives, plain};
ghost use Rattle.rtlil_tree.specs.Forms.{slice_at, sliced, atom_of, closes, signals_of, ReadsParts};

use crate::constant::constant;
use crate::misfit::Misfit;
use crate::options::place;
use crate::word::Word;
use circuit_types::{Name, Signal};
use sqlite_items::{Boxed, Items};
use std::alloc::Global;

/// How deep slices and joins may nest.
pub const MOST_NESTING: u32 = 64;

/// How deep the slices and joins of the signal nest, if that is at most [`MOST_NESTING`], and else that.
fn nesting(signal: &Signal<'_>) -> u32
    ensures { result ≡ min (nesting_of signal.now) 64 }
{
    match signal {
        Signal::Value(_) => 0,
        Signal::Wire(_) => 0,
        Signal::Slice {
            of,
            high: _,
            low: _,
        } => (nesting(of.get()) + 1).min(MOST_NESTING),
        Signal::Join(parts) => {
            let mut most = 0;
            for part in parts.as_slice() {
                most = nesting(part).max(most);
            }
            (most + 1).min(MOST_NESTING)
        }
    }
}

/// The places of a slice behind its `[`, and how many words they take.
fn slice_at(words: &[Word<'_>]) -> Option<(u32, u32, usize)>
    ensures places { result ≡ slice_at (map plain words.now) }
    ensures size { IfSome result (λ x. x.2 ≤ length words.now) }
{
    match words {
        [
            Word::Int(high),
            Word::Colon,
            Word::Int(low),
            Word::CloseSlice,
            ..
        ] => {
            let high = place(*high)?;
            let low = place(*low)?;
            Some((high, low, 4))
        }
        [Word::Int(number), Word::CloseSlice, ..] => {
            let number = place(*number)?;
            Some((number, number, 2))
        }
        _ => None,
    }
}

/// The signal that a word is.
fn atom<'a>(alloc: Global, word: Word<'a>) -> Result<Signal<'a>, Misfit>
    ensures { Gives (λ s. s) result (atom_of (plain word.entry)) }
{
    match word {
        Word::Id(name) => Ok(Signal::Wire(Name::in_text(name))),
        other => Ok(Signal::Value(constant(alloc, other)?)),
    }
}

/// The last signal sliced, where so many joins are open.
fn sliced(
    alloc: Global,
    signals: &mut Vec<Signal<'_>>,
    high: u32,
    low: u32,
    depth: u32,
) -> Result<(), Misfit>
    requires { depth ≤ 64 }
    ensures { Gives (λ _. signals.new.items) result (sliced depth signals.old.items high low) }
{
    let Some(of) = signals.pop() else {
        return Err(Misfit::NoForm);
    };
    if depth + nesting(&of) >= MOST_NESTING {
        return Err(Misfit::NoForm);
    }
    let of = Boxed::new(alloc, of)?;
    signals.push(Signal::Slice { of, high, low })?;
    Ok(())
}

fn closes(words: &[Word<'_>]) -> bool
    ensures { result ≡ closes (map plain words.now) }
{
    match words {
        [Word::CloseJoin, ..] => true,
        _ => false,
    }
}

/// The signals from a place on up to the end of a join or of the words, and that place; so many joins are open.
fn parts<'a>(
    alloc: Global,
    words: &[Word<'a>],
    start: usize,
    depth: u32,
) -> Result<(Vec<Signal<'a>>, usize), Misfit>
    requires within { start ≤ length words.now }
    requires shallow { depth ≤ 64 }
    ensures { ReadsParts result words.now start depth }
{
    let mut signals = Vec::new(alloc);
    let mut place = start;
    while place < words.len() {
        match words[place] {
            Word::OpenSlice => {
                let Some((high, low, size)) = slice_at(&words[place + 1..]) else {
                    return Err(Misfit::NoForm);
                };
                sliced(alloc, &mut signals, high, low, depth)?;
                place += 1 + size;
            }
            Word::OpenJoin => {
                if depth >= MOST_NESTING {
                    return Err(Misfit::NoForm);
                }
                let (inner, after) = parts(alloc, words, place + 1, depth + 1)?;
                if !closes(&words[after..]) {
                    return Err(Misfit::NoForm);
                }
                signals.push(Signal::Join(Items::from_vec(inner)))?;
                place = after + 1;
            }
            Word::CloseJoin => return Ok((signals, place)),
            other => {
                signals.push(atom(alloc, other)?)?;
                place += 1;
            }
        }
    }
    Ok((signals, place))
}

/// The signals that the words are.
pub fn signals<'a>(alloc: Global, words: &[Word<'a>]) -> Result<Vec<Signal<'a>>, Misfit>
    ensures { Gives (λ v. v.items) result (signals_of (map plain words.now)) }
{
    let (signals, after) = parts(alloc, words, 0, 0)?;
    if after == words.len() {
        Ok(signals)
    } else {
        Err(Misfit::NoForm)
    }
}

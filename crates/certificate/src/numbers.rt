//! Lists of numbers, each after a space.

ghost use Rattle.std.specs.Prelude.{◌≡◌, ◌↔◌, ◌^◌, ◌++◌, IsTrue, MatchOption, IfOk, OnOk, codes};
ghost use Rattle.std.specs.List.{AllByRecursion};
ghost use Rattle.std.specs.List.Sorted.{IsStrictlyIncreasing};
ghost use Rattle.certificate.specs.Lines.{IsHull, IsSmall, numbers_text};
ghost use Rattle.certificate.specs.Parts.{ListAfter, NoListAfter, NoNumberAfter, NumbersFirst};

use crate::number::{after, push_number, small_after};
use sequences::NoMemory;
use std::alloc::Global;

/// The numbers that the bytes begin with, each after a space, and what follows them.
fn numbers(alloc: Global, bytes: &[u8]) -> Result<(Vec<u32>, &[u8]), NoMemory>
    ensures first { IfOk result (λ found. NumbersFirst bytes.now found.0.items found.1.now) }
    ensures all { IfOk result (λ found. NoNumberAfter (2 ^ 32) (codes " ") found.1.now) }
{
    let mut numbers = Vec::new(alloc);
    let mut rest = bytes;
    while let Some((number, others)) = small_after(rest, b" ") {
        numbers.push(number)?;
        rest = others;
    }
    Ok((numbers, rest))
}

/// The numbers of a line that begins with a word, and what follows its line feed.
pub fn list_after<'a>(
    alloc: Global,
    bytes: &'a [u8],
    word: &[u8],
) -> Result<Option<(Vec<u32>, &'a [u8])>, NoMemory>
    ensures { IfOk result (λ list. MatchOption list (NoListAfter word.now bytes.now)
        (λ found. ListAfter word.now bytes.now found.0.items found.1.now)) }
{
    let Some(text) = after(bytes, word) else {
        return Ok(None);
    };
    let (numbers, rest) = numbers(alloc, text)?;
    let Some(rest) = after(rest, b"\n") else {
        return Ok(None);
    };
    Ok(Some((numbers, rest)))
}

/// Whether each number is below the next.
fn is_ascending(numbers: &[u32]) -> bool
    ensures { IsTrue result ↔ IsStrictlyIncreasing numbers.now }
{
    for i in 1..numbers.len() {
        let before = numbers[i - 1];
        let number = numbers[i];
        if before >= number {
            return false;
        }
    }
    true
}

/// Whether there is a number, and each is below the next.
pub fn is_hull(numbers: &[u32]) -> bool
    ensures { IsTrue result ↔ IsHull numbers.now }
{
    if numbers.is_empty() {
        return false;
    }
    is_ascending(numbers)
}

/// Puts numbers behind the text, each after a space.
pub fn push_numbers(text: &mut Vec<u8>, numbers: &[u32]) -> Result<(), NoMemory>
    ensures text { OnOk result (text.new.items ≡ text.old.items ++ numbers_text numbers.now) }
    ensures small { OnOk result (AllByRecursion IsSmall numbers.now) }
{
    for number in numbers {
        text.push(b' ')?;
        push_number(text, *number)?;
    }
    Ok(())
}

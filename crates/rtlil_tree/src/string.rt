//! Escapes in strings.

ghost use Rattle.std.specs.Prelude.{◌≡◌, ◌==◌, ◌++◌, IfOk, OnOk};
ghost use Rattle.std.specs.List.{list_any};
ghost use Rattle.rtlil_lex.specs.Bytes.{is_octal};
ghost use Rattle.rtlil_tree.specs.Said.{letter_of, with_digit, plain_step, escape_step, escape_end, text_from};
ghost use Rattle.rtlil_tree.specs.declared.string.Escape.TheVariants.{None};

use std::alloc::{AllocError, Global};

/// What stands before the next byte of a string.
#[derive(Clone, Copy)]
enum Escape {
    /// No escape.
    None,
    /// A backslash.
    Begun,
    /// A backslash and one octal digit, with its value.
    One(u8),
    /// A backslash and two octal digits, with their value.
    Two(u8),
}

fn has_escape(raw: &[u8]) -> bool
    ensures { result ≡ list_any (λ b. b == 92) raw.now }
{
    raw.iter().any(|b| *b == b'\\')
}

fn is_octal(b: u8) -> bool
    ensures { result ≡ is_octal b }
{
    b'0' <= b && b <= b'7'
}

/// The byte that a byte other than an octal digit gives after a backslash.
fn letter(b: u8) -> u8
    ensures { result ≡ letter_of b }
{
    match b {
        b'n' => b'\n',
        b't' => b'\t',
        other => other,
    }
}

/// The byte with one more octal digit.
fn with_digit(value: u8, digit: u8) -> u8
    ensures { result ≡ with_digit value digit }
{
    ((8 * u32::from(value) + u32::from(digit.saturating_sub(b'0'))) % 256) as u8
}

/// The bytes that the string between its quotes stands for.
#[tactic(auto, using(crate::proofs::Escapes::no_escape))]
pub fn text(alloc: Global, raw: &[u8]) -> Result<Vec<u8>, AllocError>
    ensures { IfOk result (λ v. v.items ≡ text_from None raw.now) }
{
    if !has_escape(raw) {
        return Vec::from_slice(alloc, raw);
    }
    unescaped(alloc, raw)
}

fn plain(text: &mut Vec<u8>, b: u8) -> Result<Escape, AllocError>
    ensures { IfOk result (λ e. (e ≡ (plain_step b).0) × (text.new.items ≡ text.old.items ++ (plain_step b).1)) }
{
    if b == b'\\' {
        return Ok(Escape::Begun);
    }
    text.push(b)?;
    Ok(Escape::None)
}

fn step(text: &mut Vec<u8>, escape: Escape, b: u8) -> Result<Escape, AllocError>
    ensures { IfOk result (λ e. (e ≡ (escape_step escape b).0) × (text.new.items ≡ text.old.items ++ (escape_step escape b).1)) }
{
    match escape {
        Escape::None => plain(text, b),
        Escape::Begun => {
            if is_octal(b) {
                return Ok(Escape::One(with_digit(0, b)));
            }
            text.push(letter(b))?;
            Ok(Escape::None)
        }
        Escape::One(value) => {
            if is_octal(b) {
                return Ok(Escape::Two(with_digit(value, b)));
            }
            text.push(value)?;
            plain(text, b)
        }
        Escape::Two(value) => {
            if is_octal(b) {
                text.push(with_digit(value, b))?;
                return Ok(Escape::None);
            }
            text.push(value)?;
            plain(text, b)
        }
    }
}

fn finish(text: &mut Vec<u8>, escape: Escape) -> Result<(), AllocError>
    ensures { OnOk result (text.new.items ≡ text.old.items ++ escape_end escape) }
{
    match escape {
        Escape::None => Ok(()),
        Escape::Begun => Ok(()),
        Escape::One(value) => {
            text.push(value)?;
            Ok(())
        }
        Escape::Two(value) => {
            text.push(value)?;
            Ok(())
        }
    }
}

fn unescaped(alloc: Global, raw: &[u8]) -> Result<Vec<u8>, AllocError>
    ensures { IfOk result (λ v. v.items ≡ text_from None raw.now) }
{
    let mut text = Vec::with_capacity(alloc, raw.len())?;
    let mut escape = Escape::None;
    for b in raw {
        escape = step(&mut text, escape, *b)?;
    }
    finish(&mut text, escape)?;
    Ok(text)
}

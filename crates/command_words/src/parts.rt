//! The part that words begin with: an operand, or an option with its value.

ghost use Rattle.std.specs.Prelude.{◌≡◌, ◌≤◌, ◌<◌, ℕ, List, ◌∷◌, ◌++◌, IfSome, IfNone, length};
ghost use Rattle.command_words.specs.Names.{texts};
ghost use Rattle.command_words.specs.Parts.{Part, IsPlainPart, words_of};
ghost use Rattle.command_words.specs.Reading.{BeginsWithPart, IsForm, LacksName};

use crate::names::{OptionName, option_word};
use crate::operands::plain;

/// What a word is by itself.
#[derive(Clone, Copy)]
pub enum Form<'a> {
    /// No option.
    Word,
    /// An option, whose value is the next word.
    Name(OptionName),
    /// An option and its value.
    Joined(OptionName, &'a str),
}

/// What a part gives.
#[derive(Clone, Copy)]
pub enum Argument<'a> {
    Word(&'a str),
    Value(OptionName, &'a str),
}

/// What a word is as this option, by itself or with its value.
fn form_as(word: &str, name: OptionName) -> Option<Form<'_>>
    ensures form { IfSome result (IsForm word.now) }
    ensures other { IfNone result (LacksName name word.now) }
{
    let text = option_word(name);
    let rest = word.strip_prefix(text)?;
    if rest.is_empty() {
        return Some(Form::Name(name));
    }
    let value = rest.strip_prefix("=")?;
    Some(Form::Joined(name, value))
}

fn form_of(word: &str) -> Form<'_>
    ensures { IsForm word.now result }
{
    if let Some(form) = form_as(word, OptionName::Workers) {
        return form;
    }
    if let Some(form) = form_as(word, OptionName::Certificate) {
        return form;
    }
    if let Some(form) = form_as(word, OptionName::Schedule) {
        return form;
    }
    Form::Word
}

/// The part that the first word begins, and the words behind that.
fn part_from<'a>(first: &'a str, tail: &'a [String]) -> Option<(Argument<'a>, &'a [String])>
    ensures begins { IfSome result (λ r. BeginsWithPart (first.entry.now ∷ texts tail.entry.now) r.0 (texts r.1.now)) }
    ensures shorter { IfSome result (λ r. length r.1.now ≤ length tail.entry.now) }
    ensures other { IfNone result ((part : Part) (behind : List (List ℕ)) → IsPlainPart part
        → first.entry.now ∷ texts tail.entry.now ≡ words_of part ++ behind → ⊥) }
{
    match form_of(first) {
        Form::Word => {
            let word = plain(first)?;
            Some((Argument::Word(word), tail))
        }
        Form::Joined(name, value) => {
            let value = plain(value)?;
            Some((Argument::Value(name, value), tail))
        }
        Form::Name(name) => {
            let (value, rest) = tail.split_first()?;
            let value = plain(value.as_str())?;
            Some((Argument::Value(name, value), rest))
        }
    }
}

/// What the words begin with, and the words behind that.
pub fn first_part<'a>(words: &'a [String]) -> Option<(Argument<'a>, &'a [String])>
    ensures begins { IfSome result (λ r. BeginsWithPart (texts words.entry.now) r.0 (texts r.1.now)) }
    ensures shorter { IfSome result (λ r. length r.1.now < length words.entry.now) }
    ensures other { IfNone result ((part : Part) (behind : List (List ℕ)) → IsPlainPart part
        → texts words.entry.now ≡ words_of part ++ behind → ⊥) }
{
    let (first, tail) = words.split_first()?;
    part_from(first.as_str(), tail)
}

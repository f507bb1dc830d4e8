//! The arguments that words give, up to four operands and each option once.

ghost use Rattle.std.specs.Prelude.{◌≡◌, ◌++◌, ◌∷◌, [], IfSome, IfNone, length};
ghost use Rattle.command_words.specs.Parts.{GivesFew, a_value, join, nothing};
ghost use Rattle.command_words.specs.Reading.{found_by, found_of, operand_words};

use crate::names::OptionName;
use crate::parts::Argument;

/// Up to four operands, in order.
#[derive(Clone, Copy)]
pub enum Operands<'a> {
    Empty,
    One(&'a str),
    Two(&'a str, &'a str),
    Three(&'a str, &'a str, &'a str),
    Four(&'a str, &'a str, &'a str, &'a str),
}

/// The operands, and the value of each option that is given.
#[derive(Clone, Copy)]
pub struct Given<'a> {
    pub operands: Operands<'a>,
    pub workers: Option<&'a str>,
    pub certificate: Option<&'a str>,
    pub schedule: Option<&'a str>,
}

impl<'a> Operands<'a> {
    /// These and one more. There is no fifth.
    fn and(self, word: &'a str) -> Option<Operands<'a>>
        ensures more { IfSome result (λ operands.
            operand_words operands ≡ operand_words self.entry ++ word.entry.now ∷ []) }
        ensures full { IfNone result (length (operand_words self.entry) ≡ 4) }
    {
        match self {
            Operands::Empty => Some(Operands::One(word)),
            Operands::One(a) => Some(Operands::Two(a, word)),
            Operands::Two(a, b) => Some(Operands::Three(a, b, word)),
            Operands::Three(a, b, c) => Some(Operands::Four(a, b, c, word)),
            Operands::Four(_, _, _, _) => None,
        }
    }
}

impl<'a> Given<'a> {
    /// Nothing yet.
    pub fn new() -> Self
        ensures { found_of result ≡ nothing }
    {
        Given {
            operands: Operands::Empty,
            workers: None,
            certificate: None,
            schedule: None,
        }
    }

    /// This with one more argument, unless it is an operand too many or an option once more.
    pub fn and(self, argument: Argument<'a>) -> Option<Given<'a>>
        ensures more { IfSome result (λ given. join (found_of self.entry) (found_by argument.entry) ≡ found_of given) }
        ensures over { IfNone result (GivesFew (join (found_of self.entry) (found_by argument.entry)) → ⊥) }
    {
        match argument {
            Argument::Word(word) => {
                let operands = self.operands.and(word)?;
                Some(Given { operands, ..self })
            }
            Argument::Value(name, value) => self.and_value(name, value),
        }
    }

    fn and_value(self, name: OptionName, value: &'a str) -> Option<Given<'a>>
        ensures more { IfSome result (λ given. join (found_of self.entry) (a_value name value.entry.now) ≡ found_of given) }
        ensures over { IfNone result (GivesFew (join (found_of self.entry) (a_value name value.entry.now)) → ⊥) }
    {
        match name {
            OptionName::Workers => match self.workers {
                Some(_) => None,
                None => Some(Given {
                    workers: Some(value),
                    ..self
                }),
            },
            OptionName::Certificate => match self.certificate {
                Some(_) => None,
                None => Some(Given {
                    certificate: Some(value),
                    ..self
                }),
            },
            OptionName::Schedule => match self.schedule {
                Some(_) => None,
                None => Some(Given {
                    schedule: Some(value),
                    ..self
                }),
            },
        }
    }
}

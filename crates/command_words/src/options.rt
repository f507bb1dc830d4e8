//! What the arguments of `verify` ask.

ghost use Rattle.std.specs.Prelude.{◌≡◌, ◌↔◌, ℕ, Option, Some, IfSome, IfNone, IsTrue};
ghost use Rattle.std.specs.Option.{option_copied, option_to_list};
ghost use Rattle.command_words.specs.Commands.{AsksVerify, IsSchedule, IsWorkers, VerifyRequest, verify_request};
ghost use Rattle.command_words.specs.Reading.{found_of};

use crate::command::Verification;
use crate::given::{Given, Operands};
use crate::number::number;
use crate::operands::question_asked;

/// The number of workers: 1 where no word gives it.
fn workers_asked(word: Option<&str>) -> Option<u32>
    ensures taken { IfSome result (IsWorkers (option_to_list (option_copied word.entry))) }
    ensures other { IfNone result ((workers : ℕ) → IsWorkers (option_to_list (option_copied word.entry)) workers → ⊥) }
{
    let Some(word) = word else {
        return Some(1);
    };
    let workers = number(word, 1, 64)?;
    Some(workers as u32)
}

/// The seed of the schedule, if a word gives it.
fn schedule_asked(word: Option<&str>) -> Option<Option<u64>>
    ensures taken { IfSome result (IsSchedule (option_to_list (option_copied word.entry))) }
    ensures other { IfNone result ((schedule : Option ℕ) → IsSchedule (option_to_list (option_copied word.entry)) schedule → ⊥) }
{
    let Some(word) = word else {
        return Some(None);
    };
    let seed = number(word, 0, u64::MAX)?;
    Some(Some(seed))
}

/// Whether a file that may be named has this name.
fn has_name(file: Option<&str>, name: &str) -> bool
    ensures { IsTrue result ↔ (option_copied file.entry ≡ Some name.now) }
{
    match file {
        Some(file) => file == name,
        None => false,
    }
}

/// What the arguments ask.
pub fn verification_asked(given: Given<'_>) -> Option<Verification<'_>>
    ensures taken { IfSome result (λ asked. AsksVerify (found_of given.entry) (verify_request asked)) }
    ensures other { IfNone result ((request : VerifyRequest) → AsksVerify (found_of given.entry) request → ⊥) }
{
    let Operands::Four(notion, order, model, netlist) = given.operands else {
        return None;
    };
    if has_name(given.certificate, netlist) {
        return None;
    }
    let question = question_asked(notion, order, model)?;
    let workers = workers_asked(given.workers)?;
    let schedule = schedule_asked(given.schedule)?;
    Some(Verification {
        question,
        netlist,
        workers,
        certificate: given.certificate,
        schedule,
    })
}

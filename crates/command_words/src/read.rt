//! The command that words mean.

ghost use Rattle.std.specs.Prelude.{◌≡◌, List, [], ◌∷◌, IfSome, IfNone};
ghost use Rattle.command_words.specs.declared.command.Gadget.{Gadget as AnyGadget};
ghost use Rattle.command_words.specs.Names.{texts};
ghost use Rattle.command_words.specs.Parts.{Part, ArePlain, GivesFew, found_in, written};
ghost use Rattle.command_words.specs.Reading.{HasRead, found_of};
ghost use Rattle.command_words.specs.Commands.{CheckRequest, IsCheck, IsGadget, IsVerify, Means, Request, VerifyRequest};
ghost use Rattle.command_words.specs.Commands.{check_request, request_of, verify_request};

use crate::command::{Checking, Command, Gadget, Verification};
use crate::given::Given;
use crate::operands::{checking_asked, gadget_asked};
use crate::options::verification_asked;
use crate::parts::first_part;

/// The arguments that words give.
fn read_arguments(words: &[String]) -> Option<Given<'_>>
    ensures read { IfSome result (λ given. HasRead (texts words.now) (found_of given) []) }
    ensures other { IfNone result ((parts : List Part) → texts words.now ≡ written parts → ArePlain parts
        → GivesFew (found_in parts) → ⊥) }
{
    let mut given = Given::new();
    let mut rest = words;
    while !rest.is_empty() {
        let (argument, behind) = first_part(rest)?;
        given = given.and(argument)?;
        rest = behind;
    }
    Some(given)
}

/// What the words behind `verify` ask.
fn read_verify(words: &[String]) -> Option<Verification<'_>>
    ensures taken { IfSome result (λ asked. IsVerify (texts words.now) (verify_request asked)) }
    ensures other { IfNone result ((request : VerifyRequest) → IsVerify (texts words.now) request → ⊥) }
{
    let given = read_arguments(words)?;
    verification_asked(given)
}

/// What the words behind `check` ask.
fn read_check(words: &[String]) -> Option<Checking<'_>>
    ensures taken { IfSome result (λ asked. IsCheck (texts words.now) (check_request asked)) }
    ensures other { IfNone result ((request : CheckRequest) → IsCheck (texts words.now) request → ⊥) }
{
    let [notion, order, model, netlist, certificate] = words else {
        return None;
    };
    checking_asked(
        notion.as_str(),
        order.as_str(),
        model.as_str(),
        netlist.as_str(),
        certificate.as_str(),
    )
}

/// What the words behind `generate` or `trial` ask.
fn read_gadget(words: &[String]) -> Option<Gadget>
    ensures taken { IfSome result (IsGadget (texts words.now)) }
    ensures other { IfNone result ((gadget : AnyGadget) → IsGadget (texts words.now) gadget → ⊥) }
{
    let [seed, shares] = words else {
        return None;
    };
    gadget_asked(seed.as_str(), shares.as_str())
}

/// The command of this name that the words behind the name ask for.
fn command_asked<'a>(name: &str, behind: &'a [String]) -> Option<Command<'a>>
    ensures taken { IfSome result (λ command. Means (name.now ∷ texts behind.entry.now) (request_of command)) }
    ensures other { IfNone result ((request : Request) → Means (name.now ∷ texts behind.entry.now) request → ⊥) }
{
    if name == "verify" {
        let asked = read_verify(behind)?;
        return Some(Command::Verify(asked));
    }
    if name == "check" {
        let asked = read_check(behind)?;
        return Some(Command::Check(asked));
    }
    if name == "generate" {
        let asked = read_gadget(behind)?;
        return Some(Command::Generate(asked));
    }
    if name == "trial" {
        let asked = read_gadget(behind)?;
        return Some(Command::Trial(asked));
    }
    None
}

/// The command that the words mean, among which the program's own name is not. `None` where they mean none: that is a
/// wrong use of the program.
pub fn read_words(words: &[String]) -> Option<Command<'_>>
    ensures taken { IfSome result (λ command. Means (texts words.now) (request_of command)) }
    ensures other { IfNone result ((request : Request) → Means (texts words.now) request → ⊥) }
{
    let (name, behind) = words.split_first()?;
    command_asked(name.as_str(), behind)
}

//! Operands, and what they ask.

ghost use Rattle.std.specs.Prelude.{◌≡◌, IfSome, IfNone, MatchOption};
ghost use Rattle.verify_question.specs.declared.question.Question.{Question as AnyQuestion};
ghost use Rattle.command_words.specs.declared.command.Gadget.{Gadget as AnyGadget};
ghost use Rattle.command_words.specs.Commands.{AsksCheck, AsksGadget, AsksQuestion, CheckRequest, check_request};
ghost use Rattle.command_words.specs.Parts.{IsPlain};

use crate::command::{Checking, Gadget};
use crate::names::{model_named, notion_named};
use crate::number::number;
use circuit_types::Timing;
use verify_question::Question;

/// A text that is not empty and does not begin with `-`.
pub fn plain(text: &str) -> Option<&str>
    ensures { MatchOption result (IsPlain text.now → ⊥) (λ same. (same.now ≡ text.now) × IsPlain text.now) }
{
    match text.as_bytes() {
        [] => None,
        [first, ..] => {
            if *first == b'-' {
                return None;
            }
            Some(text)
        }
    }
}

/// What NOTION ORDER MODEL ask.
pub fn question_asked(notion: &str, order: &str, model: &str) -> Option<Question>
    ensures taken { IfSome result (AsksQuestion notion.now order.now model.now) }
    ensures other { IfNone result ((question : AnyQuestion) → AsksQuestion notion.now order.now model.now question → ⊥) }
{
    let notion = notion_named(notion)?;
    let order = number(order, 1, 8)?;
    let model = model_named(model)?;
    Some(Question {
        notion,
        order: order as u32,
        model,
        timing: Timing::Settled,
    })
}

/// What NOTION ORDER MODEL NETLIST CERTIFICATE ask.
pub fn checking_asked<'a>(
    notion: &str,
    order: &str,
    model: &str,
    netlist: &'a str,
    certificate: &'a str,
) -> Option<Checking<'a>>
    ensures taken { IfSome result (λ checking.
        AsksCheck notion.now order.now model.now netlist.entry.now certificate.entry.now (check_request checking)) }
    ensures other { IfNone result ((request : CheckRequest)
        → AsksCheck notion.now order.now model.now netlist.entry.now certificate.entry.now request → ⊥) }
{
    if certificate == netlist {
        return None;
    }
    let question = question_asked(notion, order, model)?;
    let netlist = plain(netlist)?;
    let certificate = plain(certificate)?;
    Some(Checking {
        question,
        netlist,
        certificate,
    })
}

/// What SEED SHARES ask.
pub fn gadget_asked(seed: &str, shares: &str) -> Option<Gadget>
    ensures taken { IfSome result (AsksGadget seed.now shares.now) }
    ensures other { IfNone result ((gadget : AnyGadget) → AsksGadget seed.now shares.now gadget → ⊥) }
{
    let seed = number(seed, 0, u64::MAX)?;
    let shares = number(shares, 2, 16)?;
    Some(Gadget {
        seed,
        shares: shares as u32,
    })
}

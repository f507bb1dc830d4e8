//! The answers about gadgets that the program makes.

ghost use Rattle.std.specs.Prelude.{◌≡◌, ◌≤◌, IfOk, None};
ghost use Rattle.verify_question.specs.Asking.{IsAsked};
ghost use Rattle.maskverif_cli.specs.Answer.{AnswersNetlist, IsMade};
ghost use Rattle.maskverif_cli.specs.Gadgets.{gadget_text, trial_question};
ghost use Rattle.maskverif_cli.specs.Reply.{CannotFail, Ends};

use crate::reply::{Halt, Reply, refused};
use crate::status::Status;
use crate::verify::verify;
use circuit_types::{Model, Refusal, Timing, Which};
use command_words::Gadget;
use expr_table::Notion;
use gadget_maker::make;
use rtlil_lex::MOST_BYTES;
use rtlil_print::print_tree;
use sequences::NoMemory;
use std::alloc::Global;
use verify_question::Question;
use worker_pool::Way;

/// The text of a gadget's netlist.
#[tactic(auto, unfolding(crate::specs::Gadgets::gadget_text))]
fn gadget_text(alloc: Global, asked: Gadget) -> Result<Vec<u8>, NoMemory>
    requires least { 2 ≤ asked.shares }
    requires most { asked.shares ≤ 16 }
    ensures { IfOk result (λ text. text.items ≡ gadget_text asked) }
{
    let tree = make(alloc, asked.seed, asked.shares)?;
    print_tree(alloc, &tree)
}

/// The answer that is the text of a gadget.
pub fn generate(alloc: Global, asked: Gadget) -> Result<Reply, Halt>
    requires least { 2 ≤ asked.shares }
    requires most { asked.shares ≤ 16 }
    ensures { Ends (IsMade asked) None CannotFail result }
{
    let text = gadget_text(alloc, asked)?;
    Ok(Reply {
        status: Status::Made,
        text,
        certificate: None,
    })
}

/// What a trial asks of a gadget of so many shares.
fn trial_question(shares: u32) -> Question
    requires { 2 ≤ shares }
    ensures asked { result ≡ trial_question shares }
    ensures sound { IsAsked result }
{
    Question {
        notion: Notion::Probing,
        order: (shares - 1).min(2),
        model: Model::Glitch,
        timing: Timing::Settled,
    }
}

/// The answer to the text of a gadget, as to that of any netlist.
pub fn trial(alloc: Global, asked: Gadget) -> Result<Reply, Halt>
    requires least { 2 ≤ asked.shares }
    requires most { asked.shares ≤ 16 }
    ensures { Ends (AnswersNetlist (trial_question asked.shares) None (gadget_text asked)) None CannotFail result }
{
    let text = gadget_text(alloc, asked)?;
    if text.len() > MOST_BYTES {
        return Err(refused(alloc, Refusal::Limit(Which::FileBytes)));
    }
    let one_thread = Way {
        workers: 1,
        schedule: None,
    };
    verify(
        alloc,
        trial_question(asked.shares),
        one_thread,
        None,
        text.as_slice(),
    )
}

//! The answer to a netlist's bytes, with its report and its certificate.

ghost use Rattle.std.specs.Prelude.{◌≡◌, ◌≤◌, ℕ, List, Option, None, Some, IfOk, IfErr, length};
ghost use Rattle.std.specs.Option.{option_copied};
ghost use Rattle.rtlil_lex.specs.Tokens.{most_bytes};
ghost use Rattle.frontier_core.specs.Tree.{first_of, tree_of};
ghost use Rattle.verify_question.specs.Asking.{IsAsked};
ghost use Rattle.accepted_netlist.specs.Known.{IsKept, Keeps};
ghost use Rattle.cert_check.specs.Closing.{header_of};
ghost use Rattle.maskverif_cli.specs.Answer.{AnswersNetlist};
ghost use Rattle.maskverif_cli.specs.Kept.{EndsKept, IsCertificateOf, IsReplyTo, IsSecureReport, RefusesBytes, heading_of};
ghost use Rattle.maskverif_cli.specs.Reply.{CannotFail, Ends, Halts};

use crate::naming::probe_lines;
use crate::reply::{Halt, Reply, refused};
use crate::report;
use crate::report::Heading;
use crate::status::Status;
use accepted_netlist::{Accepted, accept};
use cert_check::{entries, preorder_closes};
use certificate::{Header, MOST_BYTES, write};
use circuit_types::{Refusal, Stop, Which};
use count_law::soundness;
use live_rows::LiveRows;
use once_random::proved_is_provable;
use probe_family::Closed;
use sequences::NoMemory;
use std::alloc::Global;
use tuple_rank::{Tuple, tuples_are_all};
use verify_question::Question;
use worker_pool::{Verdict, Way, verify_by};

/// The netlist whose text the bytes are, if it is accepted.
pub fn accepted(alloc: Global, question: Question, bytes: &[u8]) -> Result<Accepted, Halt>
    requires short { length bytes.now ≤ most_bytes }
    requires asked { IsAsked question }
    ensures accepted { IfOk result (Keeps question bytes.now) }
    ensures known { IfOk result (IsKept question.order) }
    ensures refused { IfErr result (λ halt. (wish : Option (List ℕ))
        → Halts (RefusesBytes question bytes.now) wish CannotFail halt) }
{
    match accept(alloc, bytes, question) {
        Ok(netlist) => Ok(netlist),
        Err(Stop::Refused(refusal)) => Err(refused(alloc, refusal)),
        Err(Stop::NoMemory) => Err(Halt::NoMemory),
    }
}

/// What each report on an accepted netlist says.
fn heading(question: Question, netlist: &Accepted) -> Heading
    requires { IsKept question.order netlist.now }
    ensures { result ≡ heading_of question netlist.now }
{
    Heading {
        question,
        probes: netlist.probes.list.as_slice().len() as u32,
        tuples: netlist.counts.total(),
    }
}

/// The report on a netlist each of whose tuples is proved, with so many families in the proof tree.
fn secure_report(
    alloc: Global,
    question: Question,
    netlist: &Accepted,
    families: usize,
) -> Result<Vec<u8>, NoMemory>
    requires kept { IsKept question.order netlist.now }
    requires none { first_of netlist.now.instance question.order ≡ None }
    requires families { families ≡ length (tree_of netlist.now.instance question.order) }
    ensures { IfOk result (λ text. IsSecureReport question netlist.now text.items) }
{
    proved_is_provable();
    soundness();
    report::secure(alloc, heading(question, netlist), families)
}

/// What the certificate of an accepted netlist says of it.
fn header(question: Question, netlist: &Accepted) -> Header
    requires { IsKept question.order netlist.now }
    ensures { (bytes : List ℕ) → Keeps question bytes netlist.now
        → result ≡ header_of netlist.now.instance question.model question.order }
{
    Header {
        notion: question.notion,
        order: question.order,
        model: question.model,
        probes: netlist.probes.list.as_slice().len() as u32,
        rows: netlist.instance.table.rows(),
        tuples: netlist.counts.total(),
    }
}

/// The certificate of a netlist with this proof tree.
fn certificate_text(
    alloc: Global,
    question: Question,
    netlist: &Accepted,
    closed: &[Closed],
) -> Result<Vec<u8>, NoMemory>
    requires kept { IsKept question.order netlist.now }
    requires most { question.order ≤ 8 }
    requires none { first_of netlist.now.instance question.order ≡ None }
    requires tree { closed.now ≡ tree_of netlist.now.instance question.order }
    ensures { IfOk result (λ text. IsCertificateOf question netlist.now text.items) }
{
    preorder_closes();
    let mut live = LiveRows::make(alloc, netlist.instance.table.rows())?;
    let list = entries(alloc, &netlist.instance, &mut live, closed)?;
    write(alloc, &header(question, netlist), list.as_slice())
}

/// The answer to a netlist of which this is the report and this the certificate.
fn certified(
    alloc: Global,
    question: Question,
    netlist: &Accepted,
    name: &str,
    report: Vec<u8>,
    certificate: Vec<u8>,
) -> Result<Reply, Halt>
    requires report { IsSecureReport question netlist.now report.items }
    requires certificate { IsCertificateOf question netlist.now certificate.items }
    ensures { EndsKept question (Some name.now) netlist.now result }
{
    if certificate.len() > MOST_BYTES {
        return Err(refused(alloc, Refusal::Limit(Which::CertificateBytes)));
    }
    Ok(Reply {
        status: Status::Secure,
        text: report,
        certificate: Some(certificate),
    })
}

/// The answer to a netlist with this proof tree.
fn proved(
    alloc: Global,
    question: Question,
    netlist: &Accepted,
    wish: Option<&str>,
    closed: &[Closed],
) -> Result<Reply, Halt>
    requires kept { IsKept question.order netlist.now }
    requires most { question.order ≤ 8 }
    requires none { first_of netlist.now.instance question.order ≡ None }
    requires tree { closed.now ≡ tree_of netlist.now.instance question.order }
    ensures { EndsKept question (option_copied wish.entry) netlist.now result }
{
    let text = secure_report(alloc, question, netlist, closed.len())?;
    let Some(name) = wish else {
        return Ok(Reply {
            status: Status::Secure,
            text,
            certificate: None,
        });
    };
    let certificate = certificate_text(alloc, question, netlist, closed)?;
    certified(alloc, question, netlist, name, text, certificate)
}

/// The answer to a netlist whose first unproved tuple this is.
fn unproved(
    alloc: Global,
    question: Question,
    netlist: &Accepted,
    tuple: Tuple,
) -> Result<Reply, NoMemory>
    requires kept { IsKept question.order netlist.now }
    requires first { first_of netlist.now.instance question.order ≡ Some tuple.items }
    ensures { IfOk result (λ reply. (wish : Option (List ℕ)) → IsReplyTo question wish netlist.now reply) }
{
    proved_is_provable();
    tuples_are_all();
    let rank = netlist.counts.rank(&tuple);
    let lines = probe_lines(alloc, netlist, &tuple)?;
    let text = report::unproved(alloc, heading(question, netlist), rank, lines.as_slice())?;
    Ok(Reply {
        status: Status::Unproved(tuple),
        text,
        certificate: None,
    })
}

/// What is answered to a netlist that is accepted.
fn verdict(
    alloc: Global,
    question: Question,
    way: Way,
    wish: Option<&str>,
    netlist: &Accepted,
) -> Result<Reply, Halt>
    requires kept { IsKept question.order netlist.now }
    requires asked { IsAsked question }
    requires crew { 1 ≤ way.workers }
    ensures { EndsKept question (option_copied wish.entry) netlist.now result }
{
    let order = question.order;
    match verify_by(alloc, &netlist.instance, &netlist.counts, order, way)? {
        Verdict::Secure(closed) => proved(alloc, question, netlist, wish, closed.as_slice()),
        Verdict::Unproved(tuple) => {
            let reply = unproved(alloc, question, netlist, tuple)?;
            Ok(reply)
        }
    }
}

/// What is answered to the bytes of a netlist, where `wish` is the name of the file for the certificate that is asked for.
pub fn verify(
    alloc: Global,
    question: Question,
    way: Way,
    wish: Option<&str>,
    bytes: &[u8],
) -> Result<Reply, Halt>
    requires short { length bytes.now ≤ most_bytes }
    requires asked { IsAsked question }
    requires crew { 1 ≤ way.workers }
    ensures { let name = option_copied wish.entry in
        Ends (AnswersNetlist question name bytes.now) name CannotFail result }
{
    let netlist = accepted(alloc, question, bytes)?;
    verdict(alloc, question, way, wish, &netlist)
}

//! The answer to a certificate's bytes, with its report.

ghost use Rattle.std.specs.Prelude.{◌≤◌, IfOk, length};
ghost use Rattle.accepted_netlist.specs.Known.{IsKept};
ghost use Rattle.cert_check.specs.Outcome.{IsAccepted, IsFirstFault};
ghost use Rattle.certificate.specs.Certificates.{most_bytes as most_certificate_bytes};
ghost use Rattle.verify_question.specs.Asking.{IsAsked};
ghost use Rattle.maskverif_cli.specs.Kept.{ChecksKept};

use crate::reply::Reply;
use crate::report;
use crate::status::Status;
use accepted_netlist::Accepted;
use cert_check::{Checked, accepted_is_certified, certified_is_proved};
use certificate::Why;
use count_law::soundness;
use sequences::NoMemory;
use std::alloc::Global;
use tuple_rank::tuples_are_all;
use verify_question::Question;

/// The answer to a certificate that certifies the netlist's instance, with so many families.
fn accepted(
    alloc: Global,
    question: Question,
    netlist: &Accepted,
    bytes: &[u8],
    families: u64,
) -> Result<Reply, NoMemory>
    requires kept { IsKept question.order netlist.now }
    requires most { question.order ≤ 8 }
    requires accepted { IsAccepted netlist.now.instance question.model question.order bytes.now families }
    ensures { IfOk result (ChecksKept question netlist.now bytes.now) }
{
    accepted_is_certified();
    certified_is_proved();
    soundness();
    tuples_are_all();
    let text = report::accepted(alloc, families)?;
    Ok(Reply {
        status: Status::Accepted,
        text,
        certificate: None,
    })
}

/// The answer to a certificate that does not, with its first fault.
fn rejected(
    alloc: Global,
    question: Question,
    netlist: &Accepted,
    bytes: &[u8],
    line: u32,
    why: Why,
) -> Result<Reply, NoMemory>
    requires kept { IsKept question.order netlist.now }
    requires fault { IsFirstFault netlist.now.instance question.model question.order bytes.now line why }
    ensures { IfOk result (ChecksKept question netlist.now bytes.now) }
{
    let text = report::rejected(alloc, line, why)?;
    Ok(Reply {
        status: Status::Rejected { line, why },
        text,
        certificate: None,
    })
}

/// What is answered to the bytes of a certificate for a netlist that is accepted.
pub fn check(
    alloc: Global,
    question: Question,
    netlist: &Accepted,
    bytes: &[u8],
) -> Result<Reply, NoMemory>
    requires kept { IsKept question.order netlist.now }
    requires asked { IsAsked question }
    requires short { length bytes.now ≤ most_certificate_bytes }
    ensures { IfOk result (ChecksKept question netlist.now bytes.now) }
{
    match cert_check::check(
        alloc,
        &netlist.instance,
        &netlist.counts,
        question.model,
        question.order,
        bytes,
    )? {
        Checked::Accepted { families } => accepted(alloc, question, netlist, bytes, families),
        Checked::Rejected { line, why } => rejected(alloc, question, netlist, bytes, line, why),
    }
}

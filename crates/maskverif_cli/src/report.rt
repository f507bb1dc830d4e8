//! The texts that the program writes.

ghost use Rattle.std.specs.Prelude.{◌≡◌, ℕ, List, IfOk};
ghost use Rattle.maskverif_cli.specs.Report.{counts_of, secure_report, probe_lines, unproved_report, refused_report, usage_text};
ghost use Rattle.maskverif_cli.specs.Report.{accepted_report, limit_words, line_of, refusal_words, rejected_report, why_word};

use certificate::Why;
use circuit_types::{Refusal, Which};
use sequences::NoMemory;
use std::alloc::Global;
use verify_question::{Question, model_word, notion_word};

const USAGE: &str =
    "usage: maskverif verify NOTION ORDER MODEL NETLIST [--workers N] [--certificate OUT] [--schedule SEED]
       maskverif check NOTION ORDER MODEL NETLIST CERTIFICATE
       maskverif generate SEED SHARES
       maskverif trial SEED SHARES
";

/// How the program is called.
pub fn usage() -> &'static [u8]
    ensures { result.now ≡ usage_text }
{
    USAGE.as_bytes()
}

/// The number of a limit's refusal, and what is too much.
fn limit_words(which: Which) -> &'static str
    ensures { result.now ≡ limit_words which }
{
    match which {
        Which::FileBytes => "14 Limit FileBytes",
        Which::NetBits => "14 Limit NetBits",
        Which::Cells => "14 Limit Cells",
        Which::SignalWidth => "14 Limit SignalWidth",
        Which::Probes => "14 Limit Probes",
        Which::Seen => "14 Limit Seen",
        Which::Tuples => "14 Limit Tuples",
        Which::Terms => "14 Limit Terms",
        Which::CertificateBytes => "14 Limit CertificateBytes",
        Which::Flat => "14 Limit Flat",
    }
}

/// The number and the name of a refusal.
fn refusal_words(refusal: Refusal) -> &'static str
    ensures { result.now ≡ refusal_words refusal }
{
    match refusal {
        Refusal::BadToken { .. } => "1 BadToken",
        Refusal::BadForm { .. } => "2 BadForm",
        Refusal::NoTop => "3 NoTop",
        Refusal::UnsupportedStatement { .. } => "4 UnsupportedStatement",
        Refusal::UnsupportedCell { .. } => "5 UnsupportedCell",
        Refusal::Hierarchy { .. } => "6 Hierarchy",
        Refusal::NoWire { .. } => "7 NoWire",
        Refusal::BadSlice { .. } => "8 BadSlice",
        Refusal::WidthMismatch { .. } => "9 WidthMismatch",
        Refusal::PortMissing { .. } => "10 PortMissing",
        Refusal::TwoDrivers { .. } => "11 TwoDrivers",
        Refusal::Undriven { .. } => "12 Undriven",
        Refusal::UnknownBit { .. } => "13 UnknownBit",
        Refusal::Limit(which) => limit_words(which),
        Refusal::NoteForm { .. } => "15 NoteForm",
        Refusal::NoteMissing { .. } => "16 NoteMissing",
        Refusal::ShareGap { .. } => "17 ShareGap",
        Refusal::ShareDouble { .. } => "18 ShareDouble",
        Refusal::ClockUse { .. } => "19 ClockUse",
        Refusal::GateLoop { .. } => "20 GateLoop",
        Refusal::RegisterLoop { .. } => "21 RegisterLoop",
        Refusal::ResetNotHeld { .. } => "22 ResetNotHeld",
        Refusal::EnableNotHeld { .. } => "23 EnableNotHeld",
        Refusal::ShareMixed { .. } => "24 ShareMixed",
        Refusal::CoarseForm { .. } => "25 CoarseForm",
        Refusal::NoModule { .. } => "26 NoModule",
        Refusal::Recursion { .. } => "27 Recursion",
        Refusal::InstancePort { .. } => "28 InstancePort",
        Refusal::NameTwice { .. } => "29 NameTwice",
    }
}

/// The line of a refusal, where it has one.
fn line_of(refusal: Refusal) -> Option<u32>
    ensures { result ≡ line_of refusal }
{
    match refusal {
        Refusal::NoTop | Refusal::Limit(_) => None,
        Refusal::BadToken { line }
        | Refusal::BadForm { line }
        | Refusal::UnsupportedStatement { line }
        | Refusal::UnsupportedCell { line }
        | Refusal::Hierarchy { line }
        | Refusal::NoWire { line }
        | Refusal::BadSlice { line }
        | Refusal::WidthMismatch { line }
        | Refusal::PortMissing { line }
        | Refusal::TwoDrivers { line }
        | Refusal::Undriven { line }
        | Refusal::UnknownBit { line }
        | Refusal::NoteForm { line }
        | Refusal::NoteMissing { line }
        | Refusal::ShareGap { line }
        | Refusal::ShareDouble { line }
        | Refusal::ClockUse { line }
        | Refusal::GateLoop { line }
        | Refusal::RegisterLoop { line }
        | Refusal::ResetNotHeld { line }
        | Refusal::EnableNotHeld { line }
        | Refusal::ShareMixed { line }
        | Refusal::CoarseForm { line }
        | Refusal::NoModule { line }
        | Refusal::Recursion { line }
        | Refusal::InstancePort { line }
        | Refusal::NameTwice { line } => Some(line),
    }
}

/// The report on a netlist that is refused.
pub fn refused(alloc: Global, refusal: Refusal) -> Result<Vec<u8>, NoMemory>
    ensures { IfOk result (λ text. text.items ≡ refused_report refusal) }
{
    let words = refusal_words(refusal);
    let text = match line_of(refusal) {
        Some(line) => format!(in alloc; "Refused {words} line {line}\n")?,
        None => format!(in alloc; "Refused {words}\n")?,
    };
    Ok(text.into_bytes())
}

/// What each report on an accepted netlist says: what was asked, and how much was looked at.
#[derive(Clone, Copy)]
pub struct Heading {
    pub question: Question,
    pub probes: u32,
    pub tuples: u64,
}

/// The lines of a report on a netlist that say what was asked and how much was looked at.
fn counts(alloc: Global, heading: Heading) -> Result<Vec<u8>, NoMemory>
    ensures { IfOk result (λ text. text.items ≡ counts_of heading.question heading.probes heading.tuples) }
{
    let notion = notion_word(heading.question.notion);
    let order = heading.question.order;
    let model = model_word(heading.question.model);
    let probes = heading.probes;
    let tuples = heading.tuples;
    let text = format!(in alloc;
        "notion {notion} order {order} model {model}\nprobes {probes}\ntuples {tuples}\n"
    )?;
    Ok(text.into_bytes())
}

/// The report where each tuple is provable, with the number of families of the proof tree.
pub fn secure(alloc: Global, heading: Heading, families: usize) -> Result<Vec<u8>, NoMemory>
    ensures { IfOk result (λ text. text.items ≡ secure_report heading.question heading.probes heading.tuples families) }
{
    let mut text = Vec::from_slice(alloc, b"Secure\n")?;
    text.extend_from_slice(counts(alloc, heading)?.as_slice())?;
    let line = format!(in alloc; "families {families}\n")?;
    text.extend_from_slice(line.as_bytes())?;
    Ok(text)
}

/// The report on the first unproved tuple, with its rank and the lines of its probes.
pub fn unproved(
    alloc: Global,
    heading: Heading,
    rank: u64,
    lines: &[u8],
) -> Result<Vec<u8>, NoMemory>
    ensures { IfOk result (λ text. (names : List (List ℕ)) → lines.now ≡ probe_lines names
        → text.items ≡ unproved_report heading.question heading.probes heading.tuples rank names) }
{
    let mut text = Vec::from_slice(alloc, b"Unproved\n")?;
    text.extend_from_slice(counts(alloc, heading)?.as_slice())?;
    let line = format!(in alloc; "rank {rank}\n")?;
    text.extend_from_slice(line.as_bytes())?;
    text.extend_from_slice(lines)?;
    Ok(text)
}

/// The report on a certificate that is accepted, with the number of its families.
pub fn accepted(alloc: Global, families: u64) -> Result<Vec<u8>, NoMemory>
    ensures { IfOk result (λ text. text.items ≡ accepted_report families) }
{
    let text = format!(in alloc; "Accepted\nfamilies {families}\n")?;
    Ok(text.into_bytes())
}

/// What is wrong with a line of a certificate.
fn why_word(why: Why) -> &'static str
    ensures { result.now ≡ why_word why }
{
    match why {
        Why::Form => "Form",
        Why::Header => "Header",
        Why::Extra => "Extra",
        Why::Open => "Open",
        Why::Count => "Count",
        Why::Hull => "Hull",
        Why::Cuts => "Cuts",
        Why::Bound => "Bound",
    }
}

/// The report on a certificate that is not accepted.
pub fn rejected(alloc: Global, line: u32, why: Why) -> Result<Vec<u8>, NoMemory>
    ensures { IfOk result (λ text. text.items ≡ rejected_report line why) }
{
    let why = why_word(why);
    let text = format!(in alloc; "Rejected line {line} {why}\n")?;
    Ok(text.into_bytes())
}

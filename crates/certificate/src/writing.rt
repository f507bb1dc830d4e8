//! Writing a certificate.

ghost use Rattle.std.specs.Prelude.{◌≡◌, ◌++◌, All, IfOk, OnOk, codes};
ghost use Rattle.std.specs.List.{AllByRecursion};
ghost use Rattle.certificate.specs.declared.entries.Entry.{Entry as AnyEntry};
ghost use Rattle.certificate.specs.declared.line.Line.TheVariants as line;
ghost use Rattle.certificate.specs.Lines.{IsHull, IsLine, IsSmall, line_text, numbers_text};
ghost use Rattle.certificate.specs.Certificates.{IsCertificate, entry_lines, header_lines, text_of};

use crate::entries::{Entry, Header};
use crate::numbers::push_numbers;
use crate::reader::VERSION;
use crate::words::{model_word, notion_word};
use sequences::NoMemory;
use std::alloc::Global;

/// Puts the line that says the version behind the text.
#[tactic(auto, unfolding(crate::specs::Lines::line_text))]
fn push_title(alloc: Global, text: &mut Vec<u8>) -> Result<(), NoMemory>
    ensures { OnOk result (text.new.items ≡ text.old.items ++ line_text (line.Title 1)) }
{
    let version = VERSION;
    let line = format!(in alloc; "maskverif certificate {version}\n")?;
    text.extend_from_slice(line.as_bytes())
}

/// Puts the line that says what was verified behind the text.
#[tactic(auto, unfolding(crate::specs::Lines::line_text))]
fn push_run(alloc: Global, text: &mut Vec<u8>, header: &Header) -> Result<(), NoMemory>
    ensures text { OnOk result (text.new.items
        ≡ text.old.items ++ line_text (line.Run header.now.notion header.now.order header.now.model)) }
    ensures form { OnOk result (IsLine (line.Run header.now.notion header.now.order header.now.model)) }
{
    let notion = notion_word(header.notion);
    let order = header.order;
    let model = model_word(header.model);
    let line = format!(in alloc; "notion {notion} order {order} model {model}\n")?;
    text.extend_from_slice(line.as_bytes())
}

/// Puts the line that says how much was verified behind the text.
#[tactic(auto, unfolding(crate::specs::Lines::line_text))]
fn push_counts(alloc: Global, text: &mut Vec<u8>, header: &Header) -> Result<(), NoMemory>
    ensures text { OnOk result (text.new.items
        ≡ text.old.items ++ line_text (line.Counts header.now.probes header.now.rows header.now.tuples)) }
    ensures form { OnOk result (IsLine (line.Counts header.now.probes header.now.rows header.now.tuples)) }
{
    let probes = header.probes;
    let rows = header.rows;
    let tuples = header.tuples;
    let line = format!(in alloc; "probes {probes} rows {rows} tuples {tuples}\n")?;
    text.extend_from_slice(line.as_bytes())
}

/// The text of the first three lines.
fn header_text(alloc: Global, header: &Header) -> Result<Vec<u8>, NoMemory>
    ensures text { IfOk result (λ text. text.items ≡ text_of (header_lines header.now)) }
    ensures forms { OnOk result (AllByRecursion IsLine (header_lines header.now)) }
{
    let mut text = Vec::new(alloc);
    push_title(alloc, &mut text)?;
    push_run(alloc, &mut text, header)?;
    push_counts(alloc, &mut text, header)?;
    Ok(text)
}

/// Puts a line of a word and numbers behind the text.
fn push_list(text: &mut Vec<u8>, word: &[u8], numbers: &[u32]) -> Result<(), NoMemory>
    ensures text { OnOk result (text.new.items ≡ text.old.items ++ (word.now ++ numbers_text numbers.now ++ codes "\n")) }
    ensures small { OnOk result (AllByRecursion IsSmall numbers.now) }
{
    text.extend_from_slice(word)?;
    push_numbers(text, numbers)?;
    text.extend_from_slice(b"\n")
}

/// Puts the two lines of an entry behind the text.
fn push_entry(text: &mut Vec<u8>, entry: &Entry) -> Result<(), NoMemory>
    requires { IsHull entry.now.hull }
    ensures text { OnOk result (text.new.items ≡ text.old.items ++ text_of (entry_lines entry.now)) }
    ensures forms { OnOk result (AllByRecursion IsLine (entry_lines entry.now)) }
{
    push_list(text, b"hull", entry.hull.as_slice())?;
    push_list(text, b"cuts", entry.cuts.as_slice())?;
    Ok(())
}

/// Puts the last line behind the text.
#[tactic(auto, unfolding(crate::specs::Lines::line_text))]
fn push_end(alloc: Global, text: &mut Vec<u8>, number: usize) -> Result<(), NoMemory>
    ensures text { OnOk result (text.new.items ≡ text.old.items ++ line_text (line.End number)) }
    ensures form { OnOk result (IsLine (line.End number)) }
{
    let line = format!(in alloc; "end {number}\n")?;
    text.extend_from_slice(line.as_bytes())
}

/// The certificate that says this. Each hull is ascending and has a member.
pub fn write(alloc: Global, header: &Header, list: &[Entry]) -> Result<Vec<u8>, NoMemory>
    requires { All (λ (entry : AnyEntry). IsHull entry.hull) list.now }
    ensures { IfOk result (λ text. IsCertificate text.items header.now list.now) }
{
    let mut text = header_text(alloc, header)?;
    for entry in list {
        push_entry(&mut text, entry)?;
    }
    push_end(alloc, &mut text, list.len())?;
    Ok(text)
}

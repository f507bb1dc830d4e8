//! The command over files and a sink in memory: each answer with its text, and each fault.
use maskverif_cli::run_plain;
use mv_files::{MemoryFiles, MemorySink};
use sequences::NoMemory;
use std::alloc::Global;
use std::process::Abort;

/// The number of a call that is never made.
pub const NEVER: u64 = 99_999;

/// Which calls fail: one of the files, and one of the sink, which takes so many bytes a call.
#[derive(Clone, Copy)]
pub struct Faults {
    pub files: u64,
    pub sink: u64,
    pub piece: usize,
}

pub const NO_FAULTS: Faults = Faults {
    files: NEVER,
    sink: NEVER,
    piece: 4096,
};

/// The words of a command, cut at single spaces. An empty text has no words.
pub fn words_of(alloc: Global, command: &str) -> Result<Vec<String>, NoMemory> {
    let mut words = Vec::new(alloc);
    if command.is_empty() {
        return Ok(words);
    }
    for word in command.split(' ') {
        words.push(String::from_str(alloc, word)?)?;
    }
    Ok(words)
}

/// The exit status and the bytes that were written, for a command over one file `f.il` of these bytes.
pub fn outcome(
    alloc: Global,
    command: &str,
    bytes: Vec<u8>,
    faults: Faults,
) -> Result<(u8, Vec<u8>), NoMemory> {
    let words = words_of(alloc, command)?;
    let name = String::from_str(alloc, "f.il")?;
    let listed = vec![in alloc; (name, bytes)]?;
    let failing = vec![in alloc; faults.files]?;
    let mut files = MemoryFiles::make(alloc, listed, 4096, failing, 0, 0)?;
    let failing = vec![in alloc; faults.sink]?;
    let mut out = MemorySink::make(alloc, faults.piece.max(1), failing, 4096)?;
    let status = run_plain(alloc, words.as_slice(), &mut files, &mut out);
    Ok((status.code(), Vec::from_slice(alloc, out.written())?))
}

/// What stands in the place of the line of this number, counted from 0.
fn in_place_of<'a>(edits: &[(usize, &'a str)], number: usize) -> Option<&'a str> {
    for (place, text) in edits {
        if place.saturating_sub(1) == number {
            return Some(*text);
        }
    }
    None
}

/// The text with other lines, or none, in the place of those of these numbers, which count from 1.
pub fn edited(alloc: Global, text: &str, edits: &[(usize, &str)]) -> Result<Vec<u8>, NoMemory> {
    let mut bytes = Vec::new(alloc);
    for (number, line) in text.lines().enumerate() {
        match in_place_of(edits, number) {
            Some(other) => bytes.extend_from_slice(other.as_bytes())?,
            None => {
                bytes.extend_from_slice(line.as_bytes())?;
                bytes.push(b'\n')?;
            }
        }
    }
    Ok(bytes)
}

/// Compares the answer to a command over the file `f.il` with what is due.
pub fn answers(
    rt: &impl Abort,
    alloc: Global,
    command: &str,
    bytes: Vec<u8>,
    status: u8,
    report: &str,
) -> Result<(), NoMemory> {
    let (code, written) = outcome(alloc, command, bytes, NO_FAULTS)?;
    assert_eq!(rt; code, status, "{command}: {report}");
    assert_eq!(rt;
        written.as_slice(),
        report.as_bytes(),
        "{command}: {report}"
    );
    Ok(())
}

/// The same where the netlist of the file is verified: what is asked of it is a notion, an order and a model.
pub fn expect(
    rt: &impl Abort,
    alloc: Global,
    asked: &str,
    bytes: Vec<u8>,
    status: u8,
    report: &str,
) -> Result<(), NoMemory> {
    let command = format!(in alloc; "verify {asked} f.il")?;
    answers(rt, alloc, command.as_str(), bytes, status, report)
}

/// The same for a netlist that is refused.
pub fn refuses(
    rt: &impl Abort,
    alloc: Global,
    bytes: Vec<u8>,
    report: &str,
) -> Result<(), NoMemory> {
    expect(rt, alloc, "probing 1 value", bytes, 3, report)
}

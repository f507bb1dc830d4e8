//! Reading, writing and sending over the objects in memory.

use mv_files::{
    Failed, Files, MemoryFiles, MemorySink, ReadStop, WriteFault, read_whole, send_whole,
    write_whole,
};
use sequences::NoMemory;
use std::alloc::Global;
use std::test::Fail;

const TEXT: &[u8] = b"0123456789";

/// A call that is never reached.
const NONE: u64 = 99;

/// A file `in` that holds the text, and room for one more file of six bytes.
fn one_file(alloc: Global, piece: usize, failing: u64) -> Result<MemoryFiles, NoMemory> {
    let name = String::from_str(alloc, "in")?;
    let bytes = Vec::from_slice(alloc, TEXT)?;
    let files = vec![in alloc; (name, bytes)]?;
    let failing = vec![in alloc; failing]?;
    MemoryFiles::make(alloc, files, piece.max(1), failing, 1, 6)
}

fn outcome(read: Result<Vec<u8>, ReadStop>) -> &'static str {
    match read {
        Ok(bytes) => {
            if bytes.as_slice() == TEXT {
                "whole"
            } else {
                "wrong"
            }
        }
        Err(ReadStop::Missing) => "missing",
        Err(ReadStop::ReadFault) => "fault",
        Err(ReadStop::TooLong) => "too long",
        Err(ReadStop::NoMemory) => "no memory",
    }
}

#[test]
fn reads(rt: HostRuntime) -> Result<(), Fail> {
    let alloc = rt.alloc();
    for (name, piece, limit, failing, want) in [
        ("in", 1, 10, NONE, "whole"),
        ("in", 3, 10, NONE, "whole"),
        ("in", 4096, 10, NONE, "whole"),
        ("in", 3, u64::MAX, NONE, "whole"),
        ("in", 3, 9, NONE, "too long"),
        ("in", 4096, 9, NONE, "too long"),
        ("in", 3, 0, NONE, "too long"),
        ("i", 3, 10, NONE, "missing"),
        ("in", 4, 10, 0, "fault"),
        ("in", 4, 10, 1, "fault"),
        ("in", 4, 10, 2, "fault"),
        ("in", 4, 10, 3, "fault"),
        ("in", 4, 10, 4, "fault"),
        ("in", 4, 10, 5, "whole"),
    ] {
        let mut files = one_file(alloc, piece, failing)?;
        let read = read_whole(alloc, &mut files, name, limit);
        assert_eq!(rt; outcome(read), want, "{piece} {limit} {failing}");
    }
    Ok(())
}

/// Creates a file and writes the text three times: how many bytes two calls took, and whether the third failed.
fn fill<F: Files>(files: &mut F, name: &str) -> Result<(usize, usize, bool), Failed> {
    files.create(name)?;
    let first = files.write(TEXT)?;
    let second = files.write(TEXT)?;
    Ok((first, second, files.write(TEXT).is_err()))
}

#[test]
fn creates_and_writes(rt: HostRuntime) -> Result<(), Fail> {
    let alloc = rt.alloc();
    let mut files = one_file(alloc, 4, NONE)?;
    assert_eq!(rt; fill(&mut files, "out")?, (4, 2, true));
    assert!(rt; fill(&mut files, "more").is_err(), "only one can be made");
    assert_eq!(rt; files.bytes_of("out").ok_or("out")?, b"012301".as_slice());
    assert_eq!(rt; files.bytes_of("in").ok_or("in")?, TEXT);
    assert!(rt; files.bytes_of("more").is_none());
    Ok(())
}

/// The text of ten bytes, to files that have room for one more.
#[test]
fn writes_whole(rt: HostRuntime) -> Result<(), Fail> {
    let alloc = rt.alloc();
    for (name, piece, room, failing, want) in [
        ("out", 8, 10, NONE, Some(TEXT)),
        ("out", 1, 10, NONE, Some(TEXT)),
        ("out", 8, 10, 3, Some(TEXT)),
        ("in", 8, 10, NONE, Some(TEXT)),
        ("out", 8, 10, 0, None),
        ("out", 8, 10, 1, Some(b"".as_slice())),
        ("out", 8, 10, 2, Some(b"01234567".as_slice())),
        ("out", 8, 9, NONE, Some(b"012345678".as_slice())),
    ] {
        let held = (
            String::from_str(alloc, "in")?,
            Vec::from_slice(alloc, b"held")?,
        );
        let held = vec![in alloc; held]?;
        let failing = vec![in alloc; failing]?;
        let mut files = MemoryFiles::make(alloc, held, piece, failing, 1, room)?;
        let written = write_whole(&mut files, name, TEXT);
        assert_eq!(rt; written.is_ok(), want == Some(TEXT), "{piece} {room}");
        assert_eq!(rt; files.bytes_of(name), want, "{piece} {room}");
        if name != "in" {
            assert_eq!(rt; files.bytes_of("in"), Some(b"held".as_slice()));
        }
    }
    Ok(())
}

#[test]
fn sends_in_pieces(rt: HostRuntime) -> Result<(), Fail> {
    let alloc = rt.alloc();
    for (failing, room, want) in [
        (NONE, 13, b"Secure\nnotion".as_slice()),
        (2, 13, b"Secure\nn".as_slice()),
        (NONE, 12, b"Secure\nnotio".as_slice()),
    ] {
        let mut sink = MemorySink::make(alloc, 4, vec![in alloc; failing]?, room)?;
        let sent = send_whole(&mut sink, b"Secure\nnotion");
        assert_eq!(rt; sent.is_ok(), want.len() == 13);
        assert_eq!(rt; sink.written(), want);
    }
    Ok(())
}

#[test]
fn says_what_failed(rt: HostRuntime) -> Result<(), Fail> {
    let alloc = rt.alloc();
    for (said, want) in [
        (
            format!(in alloc; "{}", Failed)?,
            "a call to the outside failed",
        ),
        (
            format!(in alloc; "{}", WriteFault)?,
            "the output cannot be written",
        ),
        (format!(in alloc; "{}", ReadStop::Missing)?, "no such file"),
        (
            format!(in alloc; "{}", ReadStop::ReadFault)?,
            "the file cannot be read",
        ),
        (
            format!(in alloc; "{}", ReadStop::TooLong)?,
            "the file is too long",
        ),
        (
            format!(in alloc; "{}", ReadStop::NoMemory)?,
            "memory was refused",
        ),
    ] {
        assert_eq!(rt; said.as_str(), want);
    }
    Ok(())
}

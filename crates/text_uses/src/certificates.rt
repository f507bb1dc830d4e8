//! Texts that are read and written, and texts with a fault.

use certificate::{Header, MOST_BYTES, ReadBad, Why, read, read_line, write};
use circuit_types::Model;
use expr_table::Notion;
use sequences::NoMemory;
use std::alloc::Global;
use std::process::Abort;
use std::test::Fail;

/// The certificate of a refresh of two shares.
const LINES: [&str; 8] = [
    "maskverif certificate 1\n",
    "notion probing order 1 model value\n",
    "probes 5 rows 8 tuples 5\n",
    "hull 0 2 3\n",
    "cuts\n",
    "hull 1 4\n",
    "cuts 5 7\n",
    "end 2\n",
];

/// The certificate with another text in the place of the line of this number.
fn with_line(alloc: Global, number: usize, line: &str) -> Result<Vec<u8>, NoMemory> {
    let mut text = Vec::new(alloc);
    for (before, own) in LINES.iter().enumerate() {
        let line = if before + 1 == number { line } else { *own };
        text.extend_from_slice(line.as_bytes())?;
    }
    Ok(text)
}

/// Why a text is not read.
fn fault(rt: &impl Abort, alloc: Global, text: &[u8]) -> Option<ReadBad> {
    assert!(rt; text.len() <= MOST_BYTES);
    read(alloc, text).err()
}

#[test]
fn finds_the_first_fault(rt: HostRuntime) -> Result<(), Fail> {
    let alloc = rt.alloc();
    // a line, what stands in its place, the line of the fault, and what it is
    for (number, line, at, why) in [
        (1, "maskverif certificate 2\n", 1, Why::Form),
        (1, "maskverif certificate 01\n", 1, Why::Form),
        (1, "maskverif certificate\n", 1, Why::Form),
        (1, " maskverif certificate 1\n", 1, Why::Form),
        (1, "", 1, Why::Form),
        (2, "notion si order 1 model value\n", 2, Why::Form),
        (2, "notion ni order 1 model values\n", 2, Why::Form),
        (2, "notion ni order +1 model value\n", 2, Why::Form),
        (2, "notion ni order 4294967296 model value\n", 2, Why::Form),
        (2, "notion ni order 1 model value \n", 2, Why::Form),
        (3, "probes 5 rows 8 tuples\n", 3, Why::Form),
        (3, "probes 5  rows 8 tuples 5\n", 3, Why::Form),
        (
            3,
            "probes 5 rows 8 tuples 18446744073709551616\n",
            3,
            Why::Form,
        ),
        (3, "probes 5 rows 8 tuples 5\r\n", 3, Why::Form),
        (4, "hull\n", 4, Why::Form),
        (4, "hull 0 2 2\n", 4, Why::Form),
        (4, "hull 3 2\n", 4, Why::Form),
        (4, "hull 0 2 4294967296\n", 4, Why::Form),
        (4, "hull 0-2\n", 4, Why::Form),
        (4, "cuts\n", 4, Why::Form),
        (5, "cuts 1 \n", 5, Why::Form),
        (5, "cuts 4294967296\n", 5, Why::Form),
        (5, "hull 0 2 3\n", 5, Why::Form),
        (5, "end 1\n", 5, Why::Form),
        (6, "probes 5 rows 8 tuples 5\n", 6, Why::Form),
        (6, "end 1\n", 7, Why::Extra),
        (6, "end 2\n", 6, Why::Count),
        (8, "end 18446744073709551616\n", 8, Why::Form),
        (8, "end 02\n", 8, Why::Form),
        (8, "end 2", 8, Why::Form),
        (8, "end 1\nend 2\n", 8, Why::Count),
        (8, "end 18446744073709551615\n", 8, Why::Count),
        (8, "end 2\nend 2\n", 9, Why::Extra),
        (8, "end 2\n\n", 9, Why::Extra),
        (8, "end 2\n#", 9, Why::Extra),
    ] {
        let text = with_line(alloc, number, line)?;
        let bad = ReadBad::Bad { line: at, why };
        assert_eq!(rt;
            fault(&rt, alloc, text.as_slice()),
            Some(bad),
            "{number} {line}"
        );
    }
    Ok(())
}

#[test]
fn takes_what_is_of_form(rt: HostRuntime) -> Result<(), Fail> {
    let alloc = rt.alloc();
    for (number, line) in [
        (0, ""),
        (2, "notion sni order 0 model glitch\n"),
        (2, "notion ni order 4294967295 model value\n"),
        (3, "probes 0 rows 0 tuples 18446744073709551615\n"),
        (4, "hull 0 2 4294967295\n"),
        (5, "cuts 7 7 4294967295 0\n"),
    ] {
        let text = with_line(alloc, number, line)?;
        assert_eq!(rt; fault(&rt, alloc, text.as_slice()), None, "{line}");
    }
    Ok(())
}

#[test]
fn no_part_of_it_is_a_certificate(rt: HostRuntime) -> Result<(), Fail> {
    let alloc = rt.alloc();
    let text = with_line(alloc, 0, "")?;
    let mut line = 1u32;
    for (size, byte) in text.iter().enumerate() {
        let bad = ReadBad::Bad {
            line,
            why: Why::Form,
        };
        assert_eq!(rt; fault(&rt, alloc, &text[..size]), Some(bad), "{size}");
        if *byte == b'\n' {
            line = line.saturating_add(1);
        }
    }
    assert_eq!(rt; line, 9);
    Ok(())
}

#[test]
fn reads_it_and_writes_it_back(rt: HostRuntime) -> Result<(), Fail> {
    let alloc = rt.alloc();
    let text = with_line(alloc, 0, "")?;
    assert!(rt; text.len() <= MOST_BYTES);
    let read = read(alloc, text.as_slice())?;
    let header = Header {
        notion: Notion::Probing,
        order: 1,
        model: Model::Value,
        probes: 5,
        rows: 8,
        tuples: 5,
    };
    assert_eq!(rt; read.header, header);
    let list = read.list.as_slice();
    assert_eq!(rt; list.len(), 2);
    assert_eq!(rt; list[0].hull.as_slice(), [0u32, 2, 3].as_slice());
    assert_eq!(rt; list[0].cuts.as_slice().len(), 0);
    assert_eq!(rt; list[1].hull.as_slice(), [1u32, 4].as_slice());
    assert_eq!(rt; list[1].cuts.as_slice(), [5u32, 7].as_slice());
    let written = write(alloc, &read.header, list)?;
    assert_eq!(rt; written.as_slice(), text.as_slice());
    Ok(())
}

#[test]
fn reads_each_line(rt: HostRuntime) -> Result<(), Fail> {
    let alloc = rt.alloc();
    for (text, want) in [
        ("maskverif certificate 2\n", "Title(2)"),
        (
            "notion sni order 9 model glitch\n",
            "Run { notion: Sni, order: 9, model: Glitch }",
        ),
        (
            "probes 5 rows 8 tuples 5\n",
            "Counts { probes: 5, rows: 8, tuples: 5 }",
        ),
        ("hull 1 4\n", "Hull(Sequence { elements: [1, 4] })"),
        ("cuts 7 5\n", "Cuts(Sequence { elements: [7, 5] })"),
        ("end 3\n", "End(3)"),
    ] {
        let text = format!(in alloc; "0\n{text}end 1\n")?;
        assert!(rt; text.len() >= 2);
        let (line, after) = read_line(alloc, text.as_bytes(), 2)?.ok_or("no line")?;
        assert_eq!(rt; format!(in alloc; "{line:?}")?.as_str(), want);
        assert_eq!(rt; after.saturating_add(6), text.len());
    }
    Ok(())
}

#[test]
fn finds_lines_only_where_they_begin(rt: HostRuntime) -> Result<(), Fail> {
    let alloc = rt.alloc();
    let text = with_line(alloc, 0, "")?;
    let mut found = 0u32;
    for at in 0..text.len() {
        if read_line(alloc, text.as_slice(), at)?.is_some() {
            found = found.saturating_add(1);
        }
    }
    assert_eq!(rt; found, 8);
    Ok(())
}

#[test]
fn reads_long_texts(rt: HostRuntime) -> Result<(), Fail> {
    let alloc = rt.alloc();
    let other = ReadBad::Bad {
        line: 4,
        why: Why::Form,
    };
    // what is repeated, what stands before and after, and why that is not read
    for (front, part, times, end, want) in [
        ("", "hull 7\ncuts 0 0\n", 100_000, "end 100000\n", None),
        ("hull 0\ncuts", " 1234567", 200_000, "\nend 1\n", None),
        ("hull", " 5", 500_000, "\ncuts\nend 1\n", Some(other)),
        ("hull ", "5", 1_000_000, "\ncuts\nend 1\n", Some(other)),
    ] {
        let mut text = Vec::new(alloc);
        for line in [LINES[0], LINES[1], LINES[2], front] {
            text.extend_from_slice(line.as_bytes())?;
        }
        for _ in 0..times {
            text.extend_from_slice(part.as_bytes())?;
        }
        text.extend_from_slice(end.as_bytes())?;
        assert_eq!(rt; fault(&rt, alloc, text.as_slice()), want);
    }
    Ok(())
}

//! Texts with their tokens or their fault, and what a fault says.

ghost use Rattle.std.specs.Prelude.{◌≤◌, length};

use rtlil_lex::{LexFault, MOST_BYTES, lex};
use std::alloc::{AllocError, Global};
use std::fmt::Write;
use std::test::Fail;

/// What is answered, in short: each token's kind, its start and end, and its line.
fn shown(alloc: Global, text: &[u8]) -> Result<String, AllocError>
    requires { length text.now ≤ MOST_BYTES }
{
    let mut out = String::new(alloc);
    match lex(alloc, text) {
        Ok(tokens) => {
            for token in &tokens {
                let kind = token.kind;
                let start = token.start;
                let end = token.end;
                let line = token.line;
                write!(out, "{kind:?} {start}-{end}:{line} ")?;
            }
        }
        Err(LexFault::BadByte(place)) => write!(out, "bad {place}")?,
        Err(LexFault::OpenString(place)) => write!(out, "open {place}")?,
        Err(LexFault::NoMemory) => write!(out, "no memory")?,
    }
    Ok(out)
}

const CASES: [(&str, &str); 34] = [
    ("", "Eol 0-0:1 "),
    (
        "wire 4'1x #c\n",
        "Word 0-4:1 Bits 5-9:1 Eol 12-13:1 Eol 13-13:2 ",
    ),
    ("wire ?", "bad 5"),
    ("\"", "open 0"),
    ("a\r\n\tb", "Word 0-1:1 Eol 2-3:1 Word 4-5:2 Eol 5-5:2 "),
    ("#a#b\n#", "Eol 4-5:1 Eol 6-6:2 "),
    ("\\ a", "bad 0"),
    ("$\n", "bad 0"),
    ("\\a#b$\\\" c", "Id 0-7:1 Word 8-9:1 Eol 9-9:1 "),
    ("\\é\u{7f}\0\u{b}", "Id 0-6:1 Eol 6-6:1 "),
    ("-", "bad 0"),
    ("-4'1", "bad 2"),
    ("-0 007", "Int 0-2:1 Int 3-6:1 Eol 6-6:1 "),
    ("4'", "Bits 0-2:1 Eol 2-2:1 "),
    ("4'sz-m", "Bits 0-6:1 Eol 6-6:1 "),
    ("4'ss", "Bits 0-3:1 Word 3-4:1 Eol 4-4:1 "),
    ("12'9", "Bits 0-3:1 Int 3-4:1 Eol 4-4:1 "),
    (
        "[7:0]",
        "Mark(91) 0-1:1 Int 1-2:1 Mark(58) 2-3:1 Int 3-4:1 Mark(93) 4-5:1 Eol 5-5:1 ",
    ),
    (
        "{,}",
        "Mark(123) 0-1:1 Mark(44) 1-2:1 Mark(125) 2-3:1 Eol 3-3:1 ",
    ),
    ("\"\"\"#\"", "Str 0-2:1 Str 2-5:1 Eol 5-5:1 "),
    ("\"\\n\\t\\\"\\\\\\101\\7x\\8\"", "Str 0-19:1 Eol 19-19:1 "),
    ("\"\\377\\1011\\409\"", "Str 0-15:1 Eol 15-15:1 "),
    ("\"a\\400\"", "bad 2"),
    ("\"\\777", "bad 1"),
    ("\"a\\\n\"", "open 0"),
    ("\"a\\", "open 0"),
    ("x \"a\n\\400", "open 2"),
    ("\"é\t\r\0\"", "Str 0-7:1 Eol 7-7:1 "),
    ("a é", "bad 2"),
    ("\0", "bad 0"),
    ("\u{b}", "bad 0"),
    ("A", "bad 0"),
    ("'", "bad 0"),
    ("a\n\nb ?", "bad 5"),
];

#[test]
fn texts(rt: HostRuntime) -> Result<(), Fail> {
    for (text, expected) in CASES.iter() {
        let bytes = text.as_bytes();
        assert!(rt; bytes.len() <= MOST_BYTES);
        let answer = shown(rt.alloc(), bytes)?;
        assert_eq!(rt; answer.as_str(), *expected, "{text:?}");
    }
    Ok(())
}

#[test]
fn says_what_is_wrong(rt: HostRuntime) -> Result<(), Fail> {
    let alloc = rt.alloc();
    for (fault, want) in [
        (LexFault::BadByte(7), "byte 7 begins no token"),
        (
            LexFault::OpenString(0),
            "the string at byte 0 is not closed on its line",
        ),
        (LexFault::NoMemory, "memory was refused"),
    ] {
        let said = format!(in alloc; "{fault}")?;
        assert_eq!(rt; said.as_str(), want);
    }
    Ok(())
}

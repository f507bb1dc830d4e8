//! Whole texts with their answers.

ghost use Rattle.std.specs.Prelude.{◌≤◌, length};

use circuit_types::Stop;
use rtlil_lex::MOST_BYTES;
use rtlil_tree::read_tree;
use std::alloc::{AllocError, Global};
use std::process::Abort;
use std::test::Fail;

/// Texts, and what is answered.
const WHOLE: [(&str, &str); 30] = [
    ("", "Refused(NoTop)"),
    ("# a comment", "Refused(NoTop)"),
    ("\n \n", "Refused(NoTop)"),
    ("autoidx 1", "Refused(NoTop)"),
    ("autoidx\n", "Refused(BadForm { line: 1 })"),
    ("autoidx 1 2", "Refused(BadForm { line: 1 })"),
    ("autoidx 2147483647", "Refused(NoTop)"),
    ("autoidx 2147483648", "Refused(BadForm { line: 1 })"),
    ("autoidx -2147483648", "Refused(NoTop)"),
    ("autoidx -2147483649", "Refused(BadForm { line: 1 })"),
    ("module \\m\nend", "Ok"),
    ("module \\m\nend # without line feed", "Ok"),
    ("module \\m\n", "Refused(BadForm { line: 2 })"),
    ("module \\m", "Refused(BadForm { line: 1 })"),
    ("module m\nend", "Refused(BadForm { line: 1 })"),
    ("module \\m 1\nend", "Refused(BadForm { line: 1 })"),
    ("module \\m\nend\nend\n", "Refused(BadForm { line: 3 })"),
    (
        "module \\m\nend\nwire \\a\n",
        "Refused(BadForm { line: 3 })",
    ),
    (
        "module \\m\nend\nmemory \\a\n",
        "Refused(BadForm { line: 3 })",
    ),
    ("module \\m\nend\nautoidx 1\n", "Ok"),
    (
        "module \\m\nend\nmodule \\m\nend\n",
        "Refused(BadForm { line: 3 })",
    ),
    ("module \\m\nend\nmodule \\n\nend\n", "Refused(NoTop)"),
    (
        "module \\m\nend\nattribute \\top 1\nmodule \\n\nend\n",
        "Ok",
    ),
    ("attribute \\a 1\n", "Refused(BadForm { line: 2 })"),
    (
        "attribute \\a 1\nautoidx 1\n",
        "Refused(BadForm { line: 2 })",
    ),
    (
        "attribute \\a 1\nattribute \\a 1'x\n# between\nmodule \\m\nend\n",
        "Ok",
    ),
    (
        "attribute \\a\nmodule \\m\nend\n",
        "Refused(BadForm { line: 1 })",
    ),
    (
        "attribute \\a \\b\nmodule \\m\nend\n",
        "Refused(BadForm { line: 1 })",
    ),
    ("end\n?", "Refused(BadToken { line: 2 })"),
    ("memory\n\n\"a\n", "Refused(BadToken { line: 3 })"),
];

/// What stands between `module \m` and its `end`, and what is answered.
const INSIDE: [(&str, &str); 70] = [
    ("wire \\a", "Ok"),
    ("wire", "Refused(BadForm { line: 2 })"),
    ("wire \\a \\b", "Refused(BadForm { line: 2 })"),
    ("wire \\a width 1", "Refused(BadForm { line: 2 })"),
    ("wire width \\a", "Refused(BadForm { line: 2 })"),
    ("wire width 3 width 0 \\a", "Ok"),
    ("wire width -1 width 3 \\a", "Refused(BadForm { line: 2 })"),
    ("wire width 2147483647 \\a", "Ok"),
    ("wire width 2147483648 \\a", "Refused(BadForm { line: 2 })"),
    ("wire offset -2147483648 upto signed upto \\a", "Ok"),
    ("wire input 0 \\a", "Ok"),
    ("wire input -1 \\a", "Refused(BadForm { line: 2 })"),
    ("wire output 1 output 2 \\a", "Ok"),
    ("wire input 1 output 2 \\a", "Refused(BadForm { line: 2 })"),
    (
        "wire inout 1 \\a",
        "Refused(UnsupportedStatement { line: 2 })",
    ),
    (
        "wire inout -1 input 1 inout 2 \\a",
        "Refused(UnsupportedStatement { line: 2 })",
    ),
    ("wire inout \\a", "Refused(BadForm { line: 2 })"),
    (
        "wire input 1 inout 2 output 3 \\a",
        "Refused(BadForm { line: 2 })",
    ),
    ("wire \\a\nwire inout 1 \\a", "Refused(BadForm { line: 3 })"),
    ("wire \\a\nwire \\b", "Ok"),
    ("wire \\a\nwire \\a", "Refused(BadForm { line: 3 })"),
    ("attribute \\a 4'01\nwire \\w", "Ok"),
    ("attribute \\a 0'\nwire \\w", "Ok"),
    ("attribute \\a 2's01\nwire \\w", "Ok"),
    (
        "attribute \\a 2'010\nwire \\w",
        "Refused(BadForm { line: 2 })",
    ),
    ("attribute \\a 1048576'x\nwire \\w", "Ok"),
    (
        "attribute \\a 1048577'x\nwire \\w",
        "Refused(BadForm { line: 2 })",
    ),
    ("attribute \\a \"\\\\\\n\\101\"\nwire \\w", "Ok"),
    (
        "attribute \\a \"\\400\"\nwire \\w",
        "Refused(BadToken { line: 2 })",
    ),
    (
        "attribute \\a 1\nparameter \\p",
        "Refused(BadForm { line: 3 })",
    ),
    (
        "attribute \\a 1\nconnect \\x \\y",
        "Refused(BadForm { line: 3 })",
    ),
    ("attribute \\a 1", "Refused(BadForm { line: 3 })"),
    (
        "attribute \\a 1\nmemory \\x",
        "Refused(UnsupportedStatement { line: 3 })",
    ),
    (
        "attribute \\a 1\nprocess $p",
        "Refused(UnsupportedStatement { line: 3 })",
    ),
    (
        "attribute \\a 1\nattribute \\a 1\ncell $_NOT_ $1\nend",
        "Ok",
    ),
    ("memory", "Refused(UnsupportedStatement { line: 2 })"),
    ("process", "Refused(UnsupportedStatement { line: 2 })"),
    ("wire\nmemory", "Refused(BadForm { line: 2 })"),
    ("module \\n", "Refused(BadForm { line: 2 })"),
    ("parameter \\p\nparameter \\p 1\nparameter \\p 2", "Ok"),
    ("parameter \\p 1 2", "Refused(BadForm { line: 2 })"),
    ("parameter signed \\p 1", "Refused(BadForm { line: 2 })"),
    ("connect \\a \\b", "Ok"),
    ("connect \\a", "Refused(BadForm { line: 2 })"),
    ("connect \\a \\b \\c", "Refused(BadForm { line: 2 })"),
    ("connect 1 , 2", "Refused(BadForm { line: 2 })"),
    ("connect \\a [0] { }", "Ok"),
    ("connect { \\a 1'1 [0] } \"t\" [3:1] [0]", "Ok"),
    ("connect { \\a \\b", "Refused(BadForm { line: 2 })"),
    ("connect \\a } \\b", "Refused(BadForm { line: 2 })"),
    ("connect [0] \\a", "Refused(BadForm { line: 2 })"),
    ("connect \\a [-1] \\b", "Refused(BadForm { line: 2 })"),
    ("connect \\a [1:0:0] \\b", "Refused(BadForm { line: 2 })"),
    ("connect \\a [] \\b", "Refused(BadForm { line: 2 })"),
    ("cell $_XOR_ $1\nend", "Ok"),
    ("cell $_XOR_\nend", "Refused(BadForm { line: 2 })"),
    ("cell \\k \\a\nend\nwire \\a", "Ok"),
    (
        "cell \\k \\a\nend\ncell \\k \\a\nend",
        "Refused(BadForm { line: 4 })",
    ),
    ("cell \\k \\a\nconnect \\A \\x\nconnect \\B \\x\nend", "Ok"),
    (
        "cell \\k \\a\nconnect \\A \\x\nconnect \\B \\x\nconnect \\C \\x\nconnect \\D \\x\nconnect \\E \\x\nconnect \\F \\x\nconnect \\G \\x\nconnect \\H \\x\nconnect \\I \\x\nconnect \\A \\x\nend",
        "Refused(BadForm { line: 12 })",
    ),
    (
        "cell \\k \\a\nconnect \\A \\x\nconnect \\B \\x\nconnect \\C \\x\nconnect \\D \\x\nconnect \\E \\x\nconnect \\F \\x\nconnect \\G \\x\nconnect \\H \\x\nconnect \\I \\x\nconnect \\I \\x\nend",
        "Refused(BadForm { line: 12 })",
    ),
    (
        "cell \\k \\a\nconnect \\A \\x\nconnect \\A \\y\nend",
        "Refused(BadForm { line: 4 })",
    ),
    (
        "cell \\k \\a\nconnect \\A\nend",
        "Refused(BadForm { line: 3 })",
    ),
    (
        "cell \\k \\a\nconnect \\A \\x \\y\nend",
        "Refused(BadForm { line: 3 })",
    ),
    ("cell \\k \\a\nmemory\nend", "Refused(BadForm { line: 3 })"),
    (
        "cell \\k \\a\nattribute \\x 1\nend",
        "Refused(BadForm { line: 3 })",
    ),
    ("cell \\k \\a\nend 1\nend", "Refused(BadForm { line: 3 })"),
    ("cell \\k \\a", "Refused(BadForm { line: 4 })"),
    (
        "cell \\k \\a\nparameter signed \\P 1\nparameter real \\P \"x\"\nparameter \\P 1'1\nend",
        "Ok",
    ),
    (
        "cell \\k \\a\nparameter \\P\nend",
        "Refused(BadForm { line: 3 })",
    ),
];

const REFRESH: &str = r#"# refresh of two shares
autoidx 1
attribute \top 1
attribute \src "refresh.v:1.1-9.10"
module \refresh
  attribute \mask "share x 0"
  wire input 1 \x0
  attribute \mask "share x 1"
  wire input 2 \x1
  attribute \mask "random"
  wire input 3 \r
  attribute \mask "share y 0"
  wire output 4 \y0
  attribute \mask "share y 1"
  wire output 5 \y1
  cell $_XOR_ $xor$1
    connect \A \x0
    connect \B \r
    connect \Y \y0
  end
  cell $_XOR_ $xor$2
    connect \A \x1
    connect \B \r
    connect \Y \y1
  end
end
"#;

const FLAT: &str = r#"# Generated by Yosys
autoidx 7
attribute \src "t.v:1.1-8.10"
attribute \top 1
attribute \hdlname "t"
module \t
  attribute \src "t.v:2.9-2.10"
  attribute \mask "shares x"
  wire width 2 input 1 \x
  attribute \mask "random"
  wire input 2 \r
  attribute \mask "shares y"
  wire width 2 output 3 \y
  wire width 2 $w
  cell $_XOR_ $g1
    connect \A \x [0]
    connect \B \r
    connect \Y $w [0]
  end
  cell $_XOR_ $g2
    connect \A \x [1]
    connect \B \r
    connect \Y $w [1]
  end
  connect \y { $w [1] $w [0] }
end
"#;

const GADGET: &str = r#"attribute \top 1
module \gadget
  attribute \mask "clock"
  wire input 1 \clk
  attribute \mask "shares a"
  wire width 2 input 2 \a
  attribute \mask "shares b"
  wire width 2 input 3 \b
  attribute \mask "random"
  wire input 4 \r
  attribute \mask "shares c"
  wire width 2 output 5 \c
  wire \p_0_0
  wire \p_0_1
  wire \p_1_0
  wire \p_1_1
  wire \q_0_1
  wire \q_1_0
  wire \z_0_1
  wire \z_1_0
  cell $_AND_ $g$0
    connect \A \a [0]
    connect \B \b [0]
    connect \Y \p_0_0
  end
  cell $_AND_ $g$1
    connect \A \a [0]
    connect \B \b [1]
    connect \Y \p_0_1
  end
  cell $_AND_ $g$2
    connect \A \a [1]
    connect \B \b [0]
    connect \Y \p_1_0
  end
  cell $_AND_ $g$3
    connect \A \a [1]
    connect \B \b [1]
    connect \Y \p_1_1
  end
  cell $_XOR_ $g$4
    connect \A \p_0_1
    connect \B \r
    connect \Y \q_0_1
  end
  cell $_XOR_ $g$5
    connect \A \p_1_0
    connect \B \r
    connect \Y \q_1_0
  end
  cell $_DFF_P_ $g$6
    connect \C \clk
    connect \D \q_0_1
    connect \Q \z_0_1
  end
  cell $_DFF_P_ $g$7
    connect \C \clk
    connect \D \q_1_0
    connect \Q \z_1_0
  end
  cell $_XOR_ $g$8
    connect \A \p_0_0
    connect \B \z_0_1
    connect \Y \c [0]
  end
  cell $_XOR_ $g$9
    connect \A \p_1_1
    connect \B \z_1_0
    connect \Y \c [1]
  end
end
"#;

/// Whole netlists.
const NETLISTS: [(&str, &str); 3] = [(REFRESH, "Ok"), (FLAT, "Ok"), (GADGET, "Ok")];

/// What is answered, in short.
fn said(alloc: Global, text: &[u8]) -> Result<String, AllocError>
    requires { length text.now ≤ MOST_BYTES }
{
    match read_tree(alloc, text) {
        Ok(_) => format!(in alloc; "Ok"),
        Err(Stop::Refused(refusal)) => format!(in alloc; "Refused({refusal:?})"),
        Err(Stop::NoMemory) => format!(in alloc; "NoMemory"),
    }
}

fn check(rt: &impl Abort, alloc: Global, text: &[u8], expected: &str) -> Result<(), Fail> {
    assert!(rt; text.len() <= MOST_BYTES);
    let answer = said(alloc, text)?;
    assert_eq!(rt; answer.as_str(), expected, "{text:?}");
    Ok(())
}

fn check_all(rt: &impl Abort, alloc: Global, cases: &[(&str, &str)]) -> Result<(), Fail> {
    for (text, expected) in cases {
        check(rt, alloc, text.as_bytes(), expected)?;
    }
    Ok(())
}

/// The text without its last line, which is an `end`.
fn check_open(rt: &impl Abort, alloc: Global, text: &str, expected: &str) -> Result<(), Fail> {
    let (open, _) = text.rsplit_once("end\n").ok_or("the last line is an end")?;
    check(rt, alloc, open.as_bytes(), expected)
}

#[test]
fn reads_whole_texts(rt: HostRuntime) -> Result<(), Fail> {
    check_all(&rt, rt.alloc(), &WHOLE)?;
    check_all(&rt, rt.alloc(), &NETLISTS)?;
    check_open(&rt, rt.alloc(), REFRESH, "Refused(BadForm { line: 26 })")
}

/// A module with this inside.
fn module_of(alloc: Global, inside: &[u8]) -> Result<Vec<u8>, AllocError> {
    let mut text = Vec::from_slice(alloc, b"module \\m\n".as_slice())?;
    text.extend_from_slice(inside)?;
    text.extend_from_slice(b"\nend\n".as_slice())?;
    Ok(text)
}

fn check_modules(rt: &impl Abort, alloc: Global, cases: &[(&str, &str)]) -> Result<(), Fail> {
    for (inside, expected) in cases {
        let text = module_of(alloc, inside.as_bytes())?;
        check(rt, alloc, &text, expected)?;
    }
    Ok(())
}

#[test]
fn reads_modules(rt: HostRuntime) -> Result<(), Fail> {
    check_modules(&rt, rt.alloc(), &INSIDE)
}

fn push_times(text: &mut Vec<u8>, piece: &[u8], times: usize) -> Result<(), AllocError> {
    for _ in 0..times {
        text.extend_from_slice(piece)?;
    }
    Ok(())
}

/// A connect of a wire in so many joins, or with so many slices.
fn nested(alloc: Global, joins: usize, slices: usize) -> Result<Vec<u8>, AllocError> {
    let mut text = Vec::from_slice(alloc, b"connect \\b ".as_slice())?;
    push_times(&mut text, b"{ ", joins)?;
    text.extend_from_slice(b"\\a".as_slice())?;
    push_times(&mut text, b" [0]", slices)?;
    push_times(&mut text, b" }", joins)?;
    module_of(alloc, &text)
}

/// So many joins, so many slices, and what is answered.
const NESTED: [(usize, usize, &str); 6] = [
    (64, 0, "Ok"),
    (65, 0, "Refused(BadForm { line: 2 })"),
    (0, 64, "Ok"),
    (0, 65, "Refused(BadForm { line: 2 })"),
    (32, 32, "Ok"),
    (32, 33, "Refused(BadForm { line: 2 })"),
];

fn check_nested(
    rt: &impl Abort,
    alloc: Global,
    cases: &[(usize, usize, &str)],
) -> Result<(), Fail> {
    for (joins, slices, expected) in cases {
        let text = nested(alloc, *joins, *slices)?;
        check(rt, alloc, &text, expected)?;
    }
    Ok(())
}

#[test]
fn nests_at_most_64_deep(rt: HostRuntime) -> Result<(), Fail> {
    check_nested(&rt, rt.alloc(), &NESTED)
}

/// A statement of 16 bytes, of which 1,024 are as many as a part has at least.
const INDEX: &str = "autoidx 1234567\n";

/// Texts of several parts: what stands first, a line, how often it stands, what stands behind, and what is answered.
const LONG: [(&str, &str, usize, &str, &str); 17] = [
    ("", INDEX, 2500, "module \\m\nend\n", "Ok"),
    ("", INDEX, 2500, "module \\m\nend", "Ok"),
    ("", INDEX, 2500, "", "Refused(NoTop)"),
    (
        "",
        INDEX,
        2500,
        "module \\m\n",
        "Refused(BadForm { line: 2502 })",
    ),
    (
        "",
        INDEX,
        2500,
        "wire \\a\n",
        "Refused(BadForm { line: 2501 })",
    ),
    (
        "",
        INDEX,
        2500,
        "\n ?\n",
        "Refused(BadToken { line: 2502 })",
    ),
    // A bad token is answered, though it stands parts behind a bad form.
    (
        "module m\n",
        INDEX,
        2500,
        "end\n\"a\n",
        "Refused(BadToken { line: 2503 })",
    ),
    // Statements of one module, and of one cell, in several parts.
    (
        "module \\m\n",
        "connect \\a \\b\n",
        2900,
        "memory\nend\n",
        "Refused(UnsupportedStatement { line: 2902 })",
    ),
    (
        "module \\m\n",
        "wire width 2 \\a\n",
        2,
        "end\n",
        "Refused(BadForm { line: 3 })",
    ),
    (
        "module \\m\ncell $x \\c\n",
        "parameter \\P 1\n",
        2700,
        "connect \\A 1\nend\nend\n",
        "Ok",
    ),
    (
        "module \\m\ncell $x \\c\nconnect \\A 1\n",
        "parameter \\P 1\n",
        2700,
        "connect \\A 1\nend\nend\n",
        "Refused(BadForm { line: 2704 })",
    ),
    // The text ends with a part, with a line feed or without.
    ("", INDEX, 1024, "module \\m\nend", "Ok"),
    (
        "",
        INDEX,
        1024,
        "module \\m",
        "Refused(BadForm { line: 1025 })",
    ),
    ("", INDEX, 1023, "module \\m\nend   ", "Ok"),
    ("", INDEX, 1023, "module \\m\nend    ", "Ok"),
    ("", INDEX, 1023, "module \\m\nend   \n", "Ok"),
    (
        "",
        INDEX,
        1023,
        "module \\m\nend   \n?",
        "Refused(BadToken { line: 1026 })",
    ),
];

/// A text with a line so many times between others.
fn long(
    alloc: Global,
    before: &str,
    line: &str,
    times: usize,
    after: &str,
) -> Result<Vec<u8>, AllocError> {
    let mut text = Vec::from_slice(alloc, before.as_bytes())?;
    push_times(&mut text, line.as_bytes(), times)?;
    text.extend_from_slice(after.as_bytes())?;
    Ok(text)
}

#[test]
fn reads_texts_of_several_parts(rt: HostRuntime) -> Result<(), Fail> {
    for (before, line, times, after, expected) in &LONG {
        let text = long(rt.alloc(), before, line, *times, after)?;
        check(&rt, rt.alloc(), &text, expected)?;
    }
    Ok(())
}

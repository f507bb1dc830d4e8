//! Netlists that just meet and that just break each rule, as they are built.
use cell_kinds::{CellKind, GateKind};
use circuit_types::{
    BitValue, Bits, Cell, Connect, Item, Module, Name, NetCell, Nets, Pin, Port, PortConnect,
    Refusal, Signal, Source, Stop, Tree, Value, Which, Wire, top,
};
use net_build::*;
use sequences::Sequence;
use sqlite_items::{Boxed, Items};
use std::alloc::{AllocError, Global};
use std::process::Abort;
use std::test::Fail;

/// The connects of a cell, each a port's letter and a signal.
type Connects = &'static [(u8, &'static [u8])];

/// Signals, the most significant first.
type Signals = &'static [&'static [u8]];

/// One more statement, in short.
#[derive(Clone, Copy)]
enum More {
    Wire(&'static [u8], u32, Port),
    Connect(&'static [u8], &'static [u8]),
    /// A connect of a join of signals and another.
    Joins(Signals, Signals),
    Cell(&'static [u8], Connects),
    /// The next statement stands on this line.
    Line(u32),
}

/// A signal of one bit.
fn bit(alloc: Global, written: u8) -> Result<Signal<'static>, AllocError> {
    let bit = match written {
        b'0' => BitValue::Zero,
        b'1' => BitValue::One,
        _ => BitValue::X,
    };
    Ok(Signal::Value(Value::Bits(Bits {
        width: 1,
        written: Sequence::from_vec(vec![in alloc; bit]?),
    })))
}

/// A signal of one place of a wire.
fn place(alloc: Global, name: &'static [u8], place: u32) -> Result<Signal<'static>, Fail> {
    Ok(Signal::Slice {
        of: Boxed::new(alloc, Signal::Wire(Name::in_text(name))).map_err(AllocError::from)?,
        high: place,
        low: place,
    })
}

/// A signal that is a wire's name, or, with a digit behind a comma, one of its places; or a bit behind `#`.
fn signal(alloc: Global, text: &'static [u8]) -> Result<Signal<'static>, Fail> {
    match text {
        [name @ .., b',', digit] => place(alloc, name, u32::from(digit.wrapping_sub(b'0'))),
        [b'#', written] => Ok(bit(alloc, *written)?),
        _ => Ok(Signal::Wire(Name::in_text(text))),
    }
}

fn join(alloc: Global, texts: Signals) -> Result<Signal<'static>, Fail> {
    let mut parts = Items::new(alloc);
    for text in texts {
        parts.push(signal(alloc, text)?).map_err(AllocError::from)?;
    }
    Ok(Signal::Join(parts))
}

fn wire(alloc: Global, line: u32, name: &'static [u8], width: u32, port: Port) -> Item<'static> {
    Item::Wire(Wire {
        line,
        name: Name::in_text(name),
        attributes: Sequence::from_vec(Vec::new(alloc)),
        width,
        offset: 0,
        port,
        upto: false,
        signed: false,
    })
}

fn connect(line: u32, left: Signal<'static>, right: Signal<'static>) -> Item<'static> {
    Item::Connect(Connect { line, left, right })
}

/// The connects of a cell at this line, on the lines behind it.
fn port_connects(
    alloc: Global,
    line: u32,
    texts: Connects,
) -> Result<Vec<PortConnect<'static>>, Fail> {
    let mut line = line;
    let mut connects = Vec::new(alloc);
    for (letter, text) in texts {
        line = line.wrapping_add(1);
        let connect = PortConnect {
            line,
            port: Name::made(Sequence::from_vec(vec![in alloc; b'\\', *letter]?)),
            signal: signal(alloc, text)?,
        };
        connects.push(connect).map_err(AllocError::from)?;
    }
    Ok(connects)
}

fn cell(
    alloc: Global,
    line: u32,
    kind: &'static [u8],
    texts: Connects,
) -> Result<Item<'static>, Fail> {
    let connects = port_connects(alloc, line, texts)?;
    Ok(Item::Cell(Cell {
        line,
        kind: Name::in_text(kind),
        name: Name::in_text(b"$c".as_slice()),
        attributes: Sequence::from_vec(Vec::new(alloc)),
        parameters: Sequence::from_vec(Vec::new(alloc)),
        connects: Sequence::from_vec(connects),
    }))
}

/// The statement at this line, if there is one.
fn item(alloc: Global, line: u32, statement: More) -> Result<Option<Item<'static>>, Fail> {
    let item = match statement {
        More::Wire(name, width, port) => wire(alloc, line, name, width, port),
        More::Connect(left, right) => connect(line, signal(alloc, left)?, signal(alloc, right)?),
        More::Joins(left, right) => connect(line, join(alloc, left)?, join(alloc, right)?),
        More::Cell(kind, texts) => cell(alloc, line, kind, texts)?,
        More::Line(_) => return Ok(None),
    };
    Ok(Some(item))
}

/// The line of the statement behind one at this line. A cell has its connects on the lines after it, and its end.
fn line_behind(line: u32, statement: More) -> u32 {
    match statement {
        More::Cell(_, texts) => {
            let connects = u32::try_from(texts.len()).unwrap_or(0);
            line.wrapping_add(connects).wrapping_add(2)
        }
        More::Line(line) => line,
        _ => line.wrapping_add(1),
    }
}

/// Statements from a line on, behind others; answers the line of the next one.
fn push(
    alloc: Global,
    line: u32,
    statements: &[More],
    items: &mut Vec<Item<'static>>,
) -> Result<u32, Fail> {
    let mut line = line;
    for statement in statements {
        if let Some(item) = item(alloc, line, *statement)? {
            items.push(item).map_err(AllocError::from)?;
        }
        line = line_behind(line, *statement);
    }
    Ok(line)
}

/// The tree of one module with these statements.
fn tree(alloc: Global, items: Vec<Item<'_>>) -> Result<Tree<'_>, AllocError> {
    let unit = Module {
        line: 5,
        name: Name::in_text(b"\\m".as_slice()),
        attributes: Sequence::from_vec(Vec::new(alloc)),
        items: Sequence::from_vec(items),
    };
    Ok(Tree {
        modules: Sequence::from_vec(vec![in alloc; unit]?),
    })
}

/// What is built of the module with these statements.
fn built(alloc: Global, items: Vec<Item<'_>>) -> Result<Result<Nets, Refusal>, Fail> {
    let tree = tree(alloc, items)?;
    if top(&tree).is_none() {
        return Err(Fail::from("no top module"));
    }
    match build(alloc, &tree) {
        Ok(nets) => Ok(Ok(nets)),
        Err(Stop::Refused(refusal)) => Ok(Err(refusal)),
        Err(Stop::NoMemory) => Err(Fail::from("no memory")),
    }
}

fn nets(built: Result<Nets, Refusal>) -> Result<Nets, Fail> {
    match built {
        Ok(nets) => Ok(nets),
        Err(_) => Err(Fail::from("refused")),
    }
}

const PORTS: [More; 10] = [
    More::Wire(b"\\x0", 1, Port::Input(1)),
    More::Line(9),
    More::Wire(b"\\x1", 1, Port::Input(2)),
    More::Line(11),
    More::Wire(b"\\r", 1, Port::Input(3)),
    More::Line(13),
    More::Wire(b"\\y0", 1, Port::Output(4)),
    More::Line(15),
    More::Wire(b"\\y1", 1, Port::Output(5)),
    More::Cell(b"$_XOR_", FIRST),
];

const FIRST: Connects = &[(b'A', b"\\x0"), (b'B', b"\\r"), (b'Y', b"\\y0")];

const SECOND: Connects = &[(b'A', b"\\x1"), (b'B', b"\\r"), (b'Y', b"\\y1")];

/// Two shares refreshed by one random, the second by a cell with these connects, and then these statements: wires from
/// line 7 on, cells at 16 and 21 with their connects behind them, and the further statements from 26 on.
fn refresh(alloc: Global, second: Connects, more: &[More]) -> Result<Result<Nets, Refusal>, Fail> {
    let mut items = Vec::new(alloc);
    let line = push(alloc, 7, &PORTS, &mut items)?;
    let line = push(alloc, line, &[More::Cell(b"$_XOR_", second)], &mut items)?;
    push(alloc, line, more, &mut items)?;
    built(alloc, items)
}

/// The connects of the second cell, what stands behind it, and the refusal that is due.
type Case = (Connects, &'static [More], Option<Refusal>);

const DRIVER_CASES: [Case; 10] = [
    (SECOND, &[], None),
    // A bit that is driven already, a constant and an input are not driven.
    (
        &[(b'A', b"\\x1"), (b'B', b"\\r"), (b'Y', b"\\y0")],
        &[],
        Some(Refusal::TwoDrivers { line: 24 }),
    ),
    (
        SECOND,
        &[More::Connect(b"#0", b"\\r")],
        Some(Refusal::TwoDrivers { line: 26 }),
    ),
    (
        SECOND,
        &[More::Connect(b"\\r", b"\\x0")],
        Some(Refusal::TwoDrivers { line: 26 }),
    ),
    (
        SECOND,
        &[
            More::Wire(b"\\w", 2, Port::Inner),
            More::Connect(b"\\w,0", b"\\x0"),
            More::Connect(b"\\w,1", b"\\x0"),
        ],
        None,
    ),
    (
        SECOND,
        &[
            More::Wire(b"\\w", 2, Port::Inner),
            More::Connect(b"\\w,0", b"\\x0"),
            More::Connect(b"\\w,1", b"\\x0"),
            More::Connect(b"\\w,0", b"\\x0"),
            More::Connect(b"\\w,1", b"\\x0"),
        ],
        Some(Refusal::TwoDrivers { line: 29 }),
    ),
    // The least line counts, and the lines need not ascend; which drive is the first goes by the statements' order.
    (
        SECOND,
        &[
            More::Connect(b"\\r", b"\\x0"),
            More::Line(9),
            More::Connect(b"\\x1", b"\\x0"),
        ],
        Some(Refusal::TwoDrivers { line: 9 }),
    ),
    (
        SECOND,
        &[
            More::Wire(b"\\w", 1, Port::Inner),
            More::Connect(b"\\r", b"\\x0"),
            More::Connect(b"\\w", b"\\x0"),
            More::Line(6),
            More::Connect(b"\\w", b"\\x1"),
        ],
        Some(Refusal::TwoDrivers { line: 6 }),
    ),
    // What has two drivers is due before what has none, wherever they stand.
    (
        SECOND,
        &[
            More::Wire(b"\\o", 1, Port::Output(6)),
            More::Connect(b"\\r", b"\\x0"),
        ],
        Some(Refusal::TwoDrivers { line: 27 }),
    ),
    (
        &[(b'A', b"\\x1"), (b'B', b"\\r"), (b'Y', b"\\y0")],
        &[More::Wire(b"\\o", 1, Port::Output(6))],
        Some(Refusal::TwoDrivers { line: 24 }),
    ),
];

const READ_CASES: [Case; 11] = [
    // Bits that go round have no driver, and nothing reads them.
    (
        SECOND,
        &[
            More::Wire(b"\\v", 1, Port::Inner),
            More::Wire(b"\\w", 1, Port::Inner),
            More::Connect(b"\\v", b"\\w"),
            More::Connect(b"\\w", b"\\v"),
        ],
        None,
    ),
    (
        &[(b'A', b"\\x1"), (b'B', b"\\v"), (b'Y', b"\\y1")],
        &[
            More::Wire(b"\\v", 1, Port::Inner),
            More::Wire(b"\\w", 1, Port::Inner),
            More::Connect(b"\\v", b"\\w"),
            More::Connect(b"\\w", b"\\v"),
        ],
        Some(Refusal::Undriven { line: 23 }),
    ),
    (
        SECOND,
        &[More::Wire(b"\\o", 1, Port::Output(6))],
        Some(Refusal::Undriven { line: 26 }),
    ),
    (
        SECOND,
        &[
            More::Wire(b"\\o", 1, Port::Output(6)),
            More::Connect(b"\\o", b"#1"),
        ],
        None,
    ),
    (
        &[(b'A', b"\\x1"), (b'B', b"#x"), (b'Y', b"\\y1")],
        &[],
        Some(Refusal::UnknownBit { line: 23 }),
    ),
    (
        &[(b'A', b"\\x1"), (b'B', b"#1"), (b'Y', b"\\y1")],
        &[],
        None,
    ),
    (
        SECOND,
        &[
            More::Wire(b"\\w", 1, Port::Inner),
            More::Connect(b"\\w", b"#x"),
        ],
        None,
    ),
    (
        SECOND,
        &[
            More::Wire(b"\\o", 1, Port::Output(6)),
            More::Connect(b"\\o", b"#x"),
        ],
        Some(Refusal::UnknownBit { line: 26 }),
    ),
    // What has no driver is due before what is unknown, wherever they stand.
    (
        &[(b'A', b"\\x1"), (b'B', b"#x"), (b'Y', b"\\y1")],
        &[More::Wire(b"\\o", 1, Port::Output(6))],
        Some(Refusal::Undriven { line: 26 }),
    ),
    (
        &[(b'A', b"\\v"), (b'B', b"#x"), (b'Y', b"\\y1")],
        &[More::Wire(b"\\v", 1, Port::Inner)],
        Some(Refusal::Undriven { line: 22 }),
    ),
    // The least line counts.
    (
        &[(b'A', b"#x"), (b'B', b"#x"), (b'Y', b"\\y1")],
        &[],
        Some(Refusal::UnknownBit { line: 22 }),
    ),
];

const FORM_CASES: [Case; 12] = [
    (
        SECOND,
        &[More::Cell(b"$_TBUF_", &[])],
        Some(Refusal::UnsupportedCell { line: 26 }),
    ),
    (
        SECOND,
        &[More::Cell(b"\\other", &[]), More::Cell(b"$_TBUF_", &[])],
        Some(Refusal::UnsupportedCell { line: 28 }),
    ),
    (
        SECOND,
        &[More::Cell(b"\\other", &[])],
        Some(Refusal::Hierarchy { line: 26 }),
    ),
    (
        SECOND,
        &[More::Cell(b"$scopeinfo", &[(b'A', b"\\none")])],
        None,
    ),
    (
        SECOND,
        &[More::Connect(b"\\none", b"\\r,1")],
        Some(Refusal::NoWire { line: 26 }),
    ),
    (
        SECOND,
        &[More::Connect(b"\\y0", b"\\r,1")],
        Some(Refusal::BadSlice { line: 26 }),
    ),
    (
        SECOND,
        &[
            More::Wire(b"\\w", 2, Port::Inner),
            More::Connect(b"\\w", b"\\r"),
        ],
        Some(Refusal::WidthMismatch { line: 27 }),
    ),
    (
        SECOND,
        &[More::Cell(b"$_NOT_", &[(b'A', b"\\r")])],
        Some(Refusal::PortMissing { line: 26 }),
    ),
    // The refusal that is due stands first in the order of refusals, not in the file.
    (
        SECOND,
        &[
            More::Cell(b"$_NOT_", &[(b'A', b"\\r")]),
            More::Connect(b"\\y0", b"\\none"),
        ],
        Some(Refusal::NoWire { line: 29 }),
    ),
    (
        SECOND,
        &[
            More::Connect(b"\\y0", b"\\none"),
            More::Cell(b"\\other", &[(b'A', b"\\none")]),
        ],
        Some(Refusal::Hierarchy { line: 27 }),
    ),
    (
        SECOND,
        &[
            More::Connect(b"\\r", b"\\x0"),
            More::Cell(b"$_NOT_", &[(b'A', b"\\r")]),
        ],
        Some(Refusal::PortMissing { line: 27 }),
    ),
    (
        SECOND,
        &[
            More::Connect(b"\\y0", b"\\r,1"),
            More::Line(7),
            More::Connect(b"\\y1", b"\\r,1"),
        ],
        Some(Refusal::BadSlice { line: 7 }),
    ),
];

fn refuses(rt: &impl Abort, alloc: Global, cases: &[Case]) -> Result<(), Fail> {
    for (second, more, expected) in cases {
        assert_eq!(rt; refresh(alloc, second, more)?.err(), *expected);
    }
    Ok(())
}

#[test]
fn refuses_what_is_due(rt: HostRuntime) -> Result<(), Fail> {
    refuses(&rt, rt.alloc(), &DRIVER_CASES)?;
    refuses(&rt, rt.alloc(), &READ_CASES)?;
    refuses(&rt, rt.alloc(), &FORM_CASES)
}

/// Statements from line 6 on, and the refusal that is due.
const LIMIT_CASES: [(&[More], Option<Refusal>); 4] = [
    (&[More::Wire(b"\\w", 1_048_576, Port::Inner)], None),
    (
        &[
            More::Wire(b"\\w", 1_048_576, Port::Inner),
            More::Wire(b"\\v", 1, Port::Inner),
        ],
        Some(Refusal::Limit(Which::NetBits)),
    ),
    // A signal as wide as one may be, and one bit more.
    (
        &[
            More::Wire(b"\\v", 524_288, Port::Inner),
            More::Wire(b"\\w", 524_288, Port::Inner),
            More::Joins(&[b"\\v", b"\\w"], &[b"\\w", b"\\v"]),
        ],
        None,
    ),
    (
        &[
            More::Wire(b"\\v", 524_288, Port::Inner),
            More::Wire(b"\\w", 524_288, Port::Inner),
            More::Joins(&[b"\\v", b"\\w", b"#0"], &[b"#0", b"\\w", b"\\v"]),
        ],
        Some(Refusal::Limit(Which::SignalWidth)),
    ),
];

fn limits(
    rt: &impl Abort,
    alloc: Global,
    cases: &[(&[More], Option<Refusal>)],
) -> Result<(), Fail> {
    for (statements, expected) in cases {
        let mut items = Vec::new(alloc);
        push(alloc, 6, statements, &mut items)?;
        assert_eq!(rt; built(alloc, items)?.err(), *expected);
    }
    Ok(())
}

#[test]
fn keeps_the_limits(rt: HostRuntime) -> Result<(), Fail> {
    limits(&rt, rt.alloc(), &LIMIT_CASES)
}

const FOLLOWED: [More; 6] = [
    More::Cell(b"$scopeinfo", &[]),
    More::Wire(b"\\v", 2, Port::Inner),
    More::Connect(b"\\v,0", b"\\y1"),
    More::Connect(b"\\v,1", b"#1"),
    More::Wire(b"\\m", 1, Port::Inner),
    More::Cell(
        b"$_MUX_",
        &[
            (b'S', b"\\r"),
            (b'Y', b"\\m"),
            (b'B', b"\\v,1"),
            (b'A', b"\\v,0"),
        ],
    ),
];

const SOURCES: [Source; 8] = [
    Source::Input(0),
    Source::Input(1),
    Source::Input(2),
    Source::Cell(0),
    Source::Cell(1),
    Source::Cell(1),
    Source::One,
    Source::Cell(2),
];

/// A cell's line, its gate, the bit on its output, and what its inputs read.
type NetGate = (u32, GateKind, u32, &'static [Pin]);

const GATES: [NetGate; 3] = [
    (
        16,
        GateKind::Xor,
        3,
        &[
            Pin {
                line: 17,
                source: Source::Input(0),
            },
            Pin {
                line: 18,
                source: Source::Input(2),
            },
        ],
    ),
    (
        21,
        GateKind::Xor,
        4,
        &[
            Pin {
                line: 22,
                source: Source::Input(1),
            },
            Pin {
                line: 23,
                source: Source::Input(2),
            },
        ],
    ),
    (
        32,
        GateKind::Mux,
        7,
        &[
            Pin {
                line: 36,
                source: Source::Cell(1),
            },
            Pin {
                line: 35,
                source: Source::One,
            },
            Pin {
                line: 33,
                source: Source::Input(2),
            },
        ],
    ),
];

fn is_gate(cell: &NetCell, expected: &NetGate) -> bool {
    let (line, gate, output, pins) = expected;
    cell.line == *line
        && cell.kind == CellKind::Gate(*gate)
        && cell.output == *output
        && cell.pins.as_slice() == *pins
}

fn are_gates(cells: &[NetCell], expected: &[NetGate]) -> bool {
    for (cell, gate) in cells.iter().zip(expected) {
        if !is_gate(cell, gate) {
            return false;
        }
    }
    cells.len() == expected.len()
}

#[test]
fn follows_bits_to_their_ends(rt: HostRuntime) -> Result<(), Fail> {
    let nets = nets(refresh(rt.alloc(), SECOND, &FOLLOWED)?)?;
    assert_eq!(rt; nets.sources.as_slice(), SOURCES.as_slice());
    assert!(rt; are_gates(nets.cells.as_slice(), &GATES));
    Ok(())
}

const NAMED: [More; 5] = [
    More::Wire(b"\\v", 2, Port::Inner),
    More::Wire(b"$v", 0, Port::Inner),
    More::Wire(b"\\w[0]", 12, Port::Inner),
    More::Wire(b"\\$auto", 1, Port::Inner),
    More::Wire(b"$1", 1, Port::Inner),
];

/// Bits with their printed names; a name is empty where the netlist has no such bit.
const NAMES: [(u32, &[u8]); 10] = [
    (0, b"x0"),
    (3, b"y0"),
    (5, b"v[0]"),
    (6, b"v[1]"),
    (7, b"w[0][0]"),
    (18, b"w[0][11]"),
    (19, b"$auto"),
    (20, b"$1"),
    (21, b""),
    (u32::MAX, b""),
];

/// The printed name of a bit; it is empty where the netlist has no such bit.
fn name(alloc: Global, nets: &Nets, bit: u32) -> Result<Vec<u8>, AllocError> {
    if bit as usize >= nets.sources.as_slice().len() {
        return Ok(Vec::new(alloc));
    }
    name_of(alloc, nets, bit)
}

fn check_names(
    rt: &impl Abort,
    alloc: Global,
    nets: &Nets,
    names: &[(u32, &[u8])],
) -> Result<(), Fail> {
    for (bit, expected) in names {
        assert_eq!(rt; name(alloc, nets, *bit)?.as_slice(), *expected);
    }
    Ok(())
}

#[test]
fn names_the_bits_of_wires(rt: HostRuntime) -> Result<(), Fail> {
    let nets = nets(refresh(rt.alloc(), SECOND, &NAMED)?)?;
    check_names(&rt, rt.alloc(), &nets, &NAMES)
}

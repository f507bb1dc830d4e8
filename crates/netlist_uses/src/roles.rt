//! Notes, roles and refusals of small modules; the texts and answers are worked by hand from the rules.
ghost use Rattle.std.specs.Prelude.{◌≡◌, ◌≤◌, ℕ, IsTrue, sum_by};
ghost use Rattle.circuit_types.specs.Items.{wires as wires_among};
ghost use Rattle.circuit_types.specs.Nets.{most_bits};
ghost use Rattle.circuit_types.specs.declared.tree.Wire.{Wire as AnyWire};

use cell_kinds::{CellKind, kind_of};
use circuit_types::{
    Attribute, InputRole, Item, Name, NetCell, NetWire, Nets, OutputShare, Pin, Port, Refusal,
    Role, Roles, Source, Stop, Value, Wire,
};
use sequences::Sequence;
use share_notes::roles_of;
use std::alloc::{AllocError, Global};
use std::test::Fail;

/// The value of an attribute `\mask`.
#[derive(Clone, Copy, Debug)]
enum Mask {
    Text(&'static str),
    Number(i32),
}

use Mask::{Number, Text};

/// A wire: its line, its port, its width, its notes.
type Row = (u32, Port, u32, &'static [Mask]);

/// A read: the cell's kind, the number of the input, the line, and what is read.
type Reading = (&'static str, usize, u32, Source);

fn bytes(alloc: Global, text: &str) -> Result<Sequence<u8>, AllocError> {
    Ok(Sequence::from_vec(Vec::from_slice(alloc, text.as_bytes())?))
}

fn attributes(alloc: Global, masks: &[Mask]) -> Result<Sequence<Attribute<'static>>, AllocError> {
    let mut list = Vec::new(alloc);
    list.push(Attribute {
        name: Name::in_text("\\src".as_bytes()),
        value: Value::Text(bytes(alloc, "random")?),
    })?;
    for mask in masks {
        list.push(Attribute {
            name: Name::in_text("\\mask".as_bytes()),
            value: match mask {
                Mask::Text(text) => Value::Text(bytes(alloc, text)?),
                Mask::Number(number) => Value::Number(*number),
            },
        })?;
    }
    Ok(Sequence::from_vec(list))
}

fn items(alloc: Global, rows: &[Row]) -> Result<Vec<Item<'static>>, AllocError> {
    let mut list = Vec::new(alloc);
    for (line, port, width, masks) in rows {
        list.push(Item::Wire(Wire {
            line: *line,
            name: Name::in_text("\\w".as_bytes()),
            attributes: attributes(alloc, masks)?,
            width: *width,
            offset: 0,
            port: *port,
            upto: false,
            signed: false,
        }))?;
    }
    Ok(list)
}

/// The nets of these wires, each bit of which ends at itself, with one cell for each read.
fn nets(alloc: Global, rows: &[Row], readings: &[Reading]) -> Result<Nets, AllocError> {
    let mut wires = Vec::new(alloc);
    let mut sources = Vec::new(alloc);
    let mut first: u32 = 0;
    for (line, port, width, _masks) in rows {
        wires.push(NetWire {
            line: *line,
            name: bytes(alloc, "\\w")?,
            first,
            width: *width,
            port: *port,
        })?;
        for place in 0..*width {
            sources.push(Source::Input(first.wrapping_add(place)))?;
        }
        first = first.wrapping_add(*width);
    }
    let mut cells = Vec::new(alloc);
    for (kind, input, line, source) in readings {
        if let Some(kind) = kind_of(kind.as_bytes()) {
            cells.push(cell(alloc, kind, *input, *line, *source)?)?;
        }
    }
    Ok(Nets {
        wires: Sequence::from_vec(wires),
        sources: Sequence::from_vec(sources),
        cells: Sequence::from_vec(cells),
    })
}

/// A cell at line 90 whose input of that number reads the source at the line, and whose others read bit 0.
fn cell(
    alloc: Global,
    kind: CellKind,
    input: usize,
    line: u32,
    source: Source,
) -> Result<NetCell, AllocError> {
    let mut pins = Vec::new(alloc);
    for place in 0..cell_kinds::inputs(kind).len() {
        pins.push(if place == input {
            Pin { line, source }
        } else {
            Pin {
                line: 91,
                source: Source::Input(0),
            }
        })?;
    }
    Ok(NetCell {
        line: 90,
        kind,
        pins: Sequence::from_vec(pins),
        output: 0,
    })
}

fn has_few_bits(items: &[Item<'_>]) -> bool
    ensures { IsTrue result → sum_by (λ (w : AnyWire). w.width) (wires_among items.now) ≤ most_bits }
{
    let mut bits: u32 = 0;
    for item in items {
        if let Item::Wire(wire) = item {
            if wire.width > 1_048_576 - bits {
                return false;
            }
            bits += wire.width;
        }
    }
    true
}

fn answer(alloc: Global, rows: &[Row], readings: &[Reading]) -> Result<Result<Roles, Stop>, Fail> {
    let items = items(alloc, rows)?;
    let nets = nets(alloc, rows, readings)?;
    if !has_few_bits(&items) {
        return Ok(Err(Stop::NoMemory));
    }
    Ok(roles_of(alloc, &items, &nets))
}

const IN: Port = Port::Input(1);

const OUT: Port = Port::Output(9);

/// Wires, reads, and the refusal that is due, if one is.
type Case = (&'static [Row], &'static [Reading], Due);

const X0: Row = (7, Port::Input(1), 1, &[Text("share x 0")]);

const X1: Row = (9, Port::Input(2), 1, &[Text("share x 1")]);

const R: Row = (11, Port::Input(3), 1, &[Text("random")]);

const Y0: Row = (13, Port::Output(4), 1, &[Text("share y 0")]);

const Y1: Row = (15, Port::Output(5), 1, &[Text("share y 1")]);

const CLOCK: Row = (4, Port::Input(1), 1, &[Text("clock")]);

const A: Row = (6, Port::Input(2), 2, &[Text("shares a")]);

/// The refusal that is due, with its line.
#[derive(Clone, Copy)]
enum Due {
    Nothing,
    Form(u32),
    Missing(u32),
    Gap(u32),
    Double(u32),
    Clock(u32),
}

use Due::{Clock, Double, Form, Gap, Missing, Nothing};

fn refusal(due: Due) -> Option<Refusal> {
    match due {
        Due::Nothing => None,
        Due::Form(line) => Some(Refusal::NoteForm { line }),
        Due::Missing(line) => Some(Refusal::NoteMissing { line }),
        Due::Gap(line) => Some(Refusal::ShareGap { line }),
        Due::Double(line) => Some(Refusal::ShareDouble { line }),
        Due::Clock(line) => Some(Refusal::ClockUse { line }),
    }
}

const FORMS: [Case; 22] = [
    (&[(7, IN, 1, &[Text("share x 16")])], &[], Form(7)),
    (&[(7, IN, 1, &[Text("share x 01")])], &[], Form(7)),
    (&[(7, IN, 1, &[Text("share x  0")])], &[], Form(7)),
    (&[(7, IN, 1, &[Text("share x 0 ")])], &[], Form(7)),
    (&[(7, IN, 1, &[Text("share  0")])], &[], Form(7)),
    (&[(7, IN, 1, &[Text("share x-y 0")])], &[], Form(7)),
    (&[(7, IN, 1, &[Text("shares x 0")])], &[], Form(7)),
    (&[(7, IN, 17, &[Text("shares x")])], &[], Form(7)),
    (&[(7, IN, 16, &[Text("shares x")])], &[], Nothing),
    (&[(7, IN, 1, &[Text("held 2")])], &[], Form(7)),
    (&[(7, IN, 3, &[Text("held 1")])], &[], Nothing),
    (&[(7, IN, 1, &[Text(" random")])], &[], Form(7)),
    (&[(7, IN, 1, &[Number(1)])], &[], Form(7)),
    (
        &[(7, IN, 1, &[Text("random"), Text("random")])],
        &[],
        Form(7),
    ),
    (&[(7, IN, 2, &[Text("clock")])], &[], Form(7)),
    (&[(7, OUT, 1, &[Text("clock")])], &[], Form(7)),
    (&[(7, OUT, 1, &[Text("random")])], &[], Form(7)),
    (&[(7, OUT, 1, &[Text("held 0")])], &[], Form(7)),
    (&[(7, OUT, 1, &[Text("public")])], &[], Nothing),
    (&[(7, Port::Inner, 1, &[Text("public")])], &[], Form(7)),
    (
        &[(8, IN, 1, &[Text("")]), (7, IN, 1, &[Text("x")])],
        &[],
        Form(7),
    ),
    (&[(8, IN, 1, &[]), (7, OUT, 1, &[])], &[], Missing(8)),
];

const ROWS: [Case; 17] = [
    (&[X0, X1, R, Y0, Y1], &[], Nothing),
    (
        &[X0, (9, Port::Input(2), 1, &[Text("share x 2")]), R, Y0, Y1],
        &[],
        Gap(7),
    ),
    (
        &[
            X0,
            X1,
            R,
            (13, Port::Input(6), 1, &[Text("share x 1")]),
            (15, Port::Output(4), 1, &[Text("shares y")]),
        ],
        &[],
        Gap(15),
    ),
    (
        &[
            X0,
            X1,
            R,
            (13, Port::Input(6), 1, &[Text("share x 1")]),
            (15, Port::Output(4), 2, &[Text("shares y")]),
        ],
        &[],
        Double(13),
    ),
    (
        &[X0, X1, (10, Port::Input(3), 1, &[]), Y0, Y1],
        &[],
        Missing(10),
    ),
    (
        &[X0, X1, (5, Port::Input(6), 1, &[Text("share x 1")])],
        &[],
        Double(5),
    ),
    (&[X0], &[], Gap(7)),
    (&[(7, IN, 1, &[Text("shares x")])], &[], Gap(7)),
    (&[X0, X1, (8, IN, 0, &[Text("share z 3")])], &[], Gap(7)),
    (&[X0, X1, (8, IN, 0, &[Text("shares z")])], &[], Nothing),
    (&[X0, Y1], &[], Gap(7)),
    (
        &[
            X0,
            X1,
            (13, OUT, 1, &[Text("share x 0")]),
            (12, OUT, 1, &[Text("share x 1")]),
        ],
        &[],
        Nothing,
    ),
    (
        &[
            (9, IN, 2, &[Text("share x 0")]),
            (8, IN, 1, &[Text("share x 1")]),
        ],
        &[],
        Gap(9),
    ),
    (
        &[
            (9, IN, 2, &[Text("share x 0")]),
            (8, IN, 2, &[Text("share x 1")]),
        ],
        &[],
        Nothing,
    ),
    (&[CLOCK, A, (5, IN, 1, &[Text("clock")])], &[], Clock(5)),
    (&[CLOCK, A], &[("$_AND_", 0, 22, Source::Zero)], Clock(91)),
    (
        &[CLOCK, A, (12, OUT, 2, &[Text("shares c")])],
        &[("$_AOI3_", 2, 22, Source::Zero)],
        Clock(91),
    ),
];

const CLOCKS: [Case; 6] = [
    (&[A], &[("$_DFF_P_", 1, 52, Source::Input(1))], Clock(52)),
    (
        &[A, CLOCK],
        &[("$_DFF_P_", 1, 52, Source::Input(2))],
        Nothing,
    ),
    (&[A, CLOCK], &[("$_DFF_P_", 1, 52, Source::One)], Clock(52)),
    (
        &[A, CLOCK],
        &[
            ("$_AND_", 0, 22, Source::Input(2)),
            ("$_DFF_P_", 1, 52, Source::Input(2)),
        ],
        Clock(22),
    ),
    (
        &[A, CLOCK],
        &[("$_AOI3_", 2, 22, Source::Input(2))],
        Clock(22),
    ),
    (
        &[A, CLOCK],
        &[
            ("$_DFF_P_", 0, 51, Source::Input(2)),
            ("$_DFF_P_", 1, 52, Source::Input(2)),
        ],
        Clock(51),
    ),
];

/// Which refusal comes, if one does.
fn found(alloc: Global, rows: &[Row], readings: &[Reading]) -> Result<Option<Refusal>, Fail> {
    match answer(alloc, rows, readings)? {
        Ok(_) => Ok(None),
        Err(Stop::Refused(refusal)) => Ok(Some(refusal)),
        Err(Stop::NoMemory) => Ok(Some(Refusal::NoTop)),
    }
}

#[test]
fn refuses_what_is_no_note(rt: HostRuntime) -> Result<(), Fail> {
    for (rows, readings, due) in FORMS {
        assert_eq!(rt;
            found(rt.alloc(), rows, readings)?,
            refusal(due),
            "{rows:?}"
        );
    }
    Ok(())
}

#[test]
fn refuses_gaps_and_doubles(rt: HostRuntime) -> Result<(), Fail> {
    for (rows, readings, due) in ROWS {
        assert_eq!(rt;
            found(rt.alloc(), rows, readings)?,
            refusal(due),
            "{rows:?}"
        );
    }
    Ok(())
}

#[test]
fn refuses_a_clock_that_is_read(rt: HostRuntime) -> Result<(), Fail> {
    for (rows, readings, due) in CLOCKS {
        assert_eq!(rt;
            found(rt.alloc(), rows, readings)?,
            refusal(due),
            "{rows:?}"
        );
    }
    Ok(())
}

/// The wires of file order 2, 1, 1: the second and third come first.
const ORDER: [Row; 5] = [
    (2, Port::Input(2), 2, &[Text("share z 0")]),
    (3, Port::Input(1), 2, &[Text("shares a")]),
    (4, Port::Input(1), 1, &[Text("held 1")]),
    (5, Port::Input(3), 2, &[Text("share z 1")]),
    (6, Port::Output(4), 2, &[Text("shares a")]),
];

#[test]
fn gives_roles_in_port_order(rt: HostRuntime) -> Result<(), Fail> {
    let Ok(roles) = answer(rt.alloc(), &ORDER, &[])? else {
        assert!(rt; false, "refused");
        return Ok(());
    };
    assert_eq!(rt; roles.shares, 2);
    let share = |bit, secret, share| InputRole {
        bit,
        role: Role::Share { secret, share },
    };
    assert_eq!(rt;
        roles.inputs.as_slice(),
        [
            share(2, 0, 0),
            share(3, 0, 1),
            InputRole {
                bit: 4,
                role: Role::Held(true)
            },
            share(0, 1, 0),
            share(1, 2, 0),
            share(5, 1, 1),
            share(6, 2, 1),
        ]
        .as_slice()
    );
    assert_eq!(rt;
        roles.outputs.as_slice(),
        [
            OutputShare {
                bit: 7,
                secret: 0,
                share: 0
            },
            OutputShare {
                bit: 8,
                secret: 0,
                share: 1
            },
        ]
        .as_slice()
    );
    let mut names = Vec::new(rt.alloc());
    for secret in roles.secrets.as_slice() {
        names.extend_from_slice(secret.name.as_slice())?;
        names.push(if secret.bit == 0 { b'0' } else { b'1' })?;
    }
    assert_eq!(rt; names.as_slice(), b"a0z0z1".as_slice());
    assert_eq!(rt; roles.output_secrets.as_slice().len(), 1);
    Ok(())
}

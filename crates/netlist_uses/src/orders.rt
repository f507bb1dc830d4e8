//! Small netlists by hand: the order of their cells, or the refusal that is due.
use crate::premises::{fits, is_timing, is_wired};
use cell_kinds::{CellKind, Flop, GateKind, Reset};
use circuit_types::{
    Circuit, InputRole, NetCell, Nets, Pin, Refusal, Role, Roles, Source, Stop, Timing,
};
use level_unroll::levels;
use sequences::Sequence;
use std::alloc::{AllocError, Global};
use std::test::Fail;

const AND: CellKind = CellKind::Gate(GateKind::And);

const XOR: CellKind = CellKind::Gate(GateKind::Xor);

const BUF: CellKind = CellKind::Gate(GateKind::Buf);

const NOT: CellKind = CellKind::Gate(GateKind::Not);

const LOW: Reset = Reset {
    high: false,
    value: false,
    synchronous: false,
};

const HIGH: Reset = Reset {
    high: true,
    value: false,
    synchronous: false,
};

const REGISTER: CellKind = CellKind::Flop(Flop {
    rising: true,
    reset: None,
    enable: None,
});
/// A register reads D, the clock, its enable and its reset, in that order.
const RESET_LOW: CellKind = CellKind::Flop(Flop {
    rising: true,
    reset: Some(LOW),
    enable: None,
});

const RESET_HIGH: CellKind = CellKind::Flop(Flop {
    rising: true,
    reset: Some(HIGH),
    enable: None,
});

const ENABLE_LOW: CellKind = CellKind::Flop(Flop {
    rising: true,
    reset: None,
    enable: Some(false),
});

const ENABLE_HIGH: CellKind = CellKind::Flop(Flop {
    rising: true,
    reset: None,
    enable: Some(true),
});

const BOTH: CellKind = CellKind::Flop(Flop {
    rising: true,
    reset: Some(LOW),
    enable: Some(true),
});

const ZERO: Source = Source::Zero;

const ONE: Source = Source::One;
/// The first input is the clock.
const CLOCK: Source = Source::Input(0);

const I1: Source = Source::Input(1);

const I2: Source = Source::Input(2);

const C0: Source = Source::Cell(0);

const C1: Source = Source::Cell(1);

const C2: Source = Source::Cell(2);

const HELD_0: &[Role] = &[Role::Clock, Role::Held(false)];

const HELD_1: &[Role] = &[Role::Clock, Role::Held(true)];

const PUBLIC: &[Role] = &[Role::Clock, Role::Public];

const SHARE: &[Role] = &[
    Role::Clock,
    Role::Share {
        secret: 0,
        share: 0,
    },
];

/// The line of a cell, its kind and what it reads.
type Line = (u32, CellKind, &'static [Source]);

/// A netlist, and the order of its cells or the refusal that is due.
type Case = (
    &'static [Role],
    &'static [Line],
    Result<&'static [u32], Refusal>,
);

/// A reset that is held inactive: by an input, by a constant, through buffers and inverters; and one that is not.
const RESETS: &[Case] = &[
    (HELD_1, &[(5, RESET_LOW, &[ZERO, CLOCK, I1])], Ok(&[0])),
    (
        HELD_0,
        &[(5, RESET_LOW, &[ZERO, CLOCK, I1])],
        Err(Refusal::ResetNotHeld { line: 5 }),
    ),
    (HELD_0, &[(5, RESET_HIGH, &[ZERO, CLOCK, I1])], Ok(&[0])),
    (
        HELD_1,
        &[(5, RESET_HIGH, &[ZERO, CLOCK, I1])],
        Err(Refusal::ResetNotHeld { line: 5 }),
    ),
    (PUBLIC, &[(5, RESET_LOW, &[ZERO, CLOCK, ONE])], Ok(&[0])),
    (
        PUBLIC,
        &[(5, RESET_LOW, &[ZERO, CLOCK, ZERO])],
        Err(Refusal::ResetNotHeld { line: 5 }),
    ),
    (PUBLIC, &[(5, RESET_HIGH, &[ZERO, CLOCK, ZERO])], Ok(&[0])),
    (
        PUBLIC,
        &[(5, RESET_HIGH, &[ZERO, CLOCK, ONE])],
        Err(Refusal::ResetNotHeld { line: 5 }),
    ),
    (
        HELD_1,
        &[(5, BUF, &[I1]), (6, RESET_LOW, &[ZERO, CLOCK, C0])],
        Ok(&[0, 1]),
    ),
    (
        HELD_0,
        &[(5, NOT, &[I1]), (6, RESET_LOW, &[ZERO, CLOCK, C0])],
        Ok(&[0, 1]),
    ),
    (
        HELD_1,
        &[(5, NOT, &[I1]), (6, RESET_LOW, &[ZERO, CLOCK, C0])],
        Err(Refusal::ResetNotHeld { line: 6 }),
    ),
    (
        HELD_1,
        &[
            (5, NOT, &[I1]),
            (6, NOT, &[C0]),
            (7, RESET_LOW, &[ZERO, CLOCK, C1]),
        ],
        Ok(&[0, 1, 2]),
    ),
    (
        PUBLIC,
        &[
            (5, NOT, &[ZERO]),
            (6, BUF, &[C0]),
            (7, RESET_LOW, &[ZERO, CLOCK, C1]),
        ],
        Ok(&[0, 1, 2]),
    ),
    (
        PUBLIC,
        &[(5, RESET_LOW, &[ZERO, CLOCK, I1])],
        Err(Refusal::ResetNotHeld { line: 5 }),
    ),
    (
        SHARE,
        &[(5, RESET_HIGH, &[ZERO, CLOCK, I1])],
        Err(Refusal::ResetNotHeld { line: 5 }),
    ),
    (
        HELD_1,
        &[(5, RESET_HIGH, &[ZERO, CLOCK, CLOCK])],
        Err(Refusal::ResetNotHeld { line: 5 }),
    ),
    (
        HELD_1,
        &[(5, AND, &[I1, I1]), (6, RESET_LOW, &[ZERO, CLOCK, C0])],
        Err(Refusal::ResetNotHeld { line: 6 }),
    ),
    (
        HELD_1,
        &[
            (5, REGISTER, &[I1, CLOCK]),
            (6, RESET_LOW, &[ZERO, CLOCK, C0]),
        ],
        Err(Refusal::ResetNotHeld { line: 6 }),
    ),
    (
        PUBLIC,
        &[
            (9, RESET_LOW, &[ZERO, CLOCK, I1]),
            (7, RESET_LOW, &[ZERO, CLOCK, ZERO]),
            (3, RESET_LOW, &[ZERO, CLOCK, ONE]),
        ],
        Err(Refusal::ResetNotHeld { line: 7 }),
    ),
];

/// An enable that is held active, and one that is not; a reset comes first.
const ENABLES: &[Case] = &[
    (HELD_1, &[(5, ENABLE_HIGH, &[ZERO, CLOCK, I1])], Ok(&[0])),
    (
        HELD_0,
        &[(5, ENABLE_HIGH, &[ZERO, CLOCK, I1])],
        Err(Refusal::EnableNotHeld { line: 5 }),
    ),
    (HELD_0, &[(5, ENABLE_LOW, &[ZERO, CLOCK, I1])], Ok(&[0])),
    (
        HELD_1,
        &[(5, ENABLE_LOW, &[ZERO, CLOCK, I1])],
        Err(Refusal::EnableNotHeld { line: 5 }),
    ),
    (PUBLIC, &[(5, ENABLE_HIGH, &[ZERO, CLOCK, ONE])], Ok(&[0])),
    (
        PUBLIC,
        &[(5, ENABLE_HIGH, &[ZERO, CLOCK, I1])],
        Err(Refusal::EnableNotHeld { line: 5 }),
    ),
    (
        HELD_0,
        &[
            (5, NOT, &[I1]),
            (6, BUF, &[C0]),
            (7, ENABLE_HIGH, &[ZERO, CLOCK, C1]),
        ],
        Ok(&[0, 1, 2]),
    ),
    (
        HELD_1,
        &[(5, NOT, &[I1]), (6, ENABLE_HIGH, &[ZERO, CLOCK, C0])],
        Err(Refusal::EnableNotHeld { line: 6 }),
    ),
    (HELD_1, &[(5, BOTH, &[ZERO, CLOCK, I1, I1])], Ok(&[0])),
    (
        HELD_1,
        &[(5, BOTH, &[ZERO, CLOCK, ZERO, ZERO])],
        Err(Refusal::ResetNotHeld { line: 5 }),
    ),
    (
        HELD_1,
        &[
            (5, BOTH, &[ZERO, CLOCK, ZERO, ONE]),
            (4, BOTH, &[ZERO, CLOCK, ZERO, ONE]),
        ],
        Err(Refusal::EnableNotHeld { line: 4 }),
    ),
    (
        HELD_1,
        &[
            (5, ENABLE_HIGH, &[ZERO, CLOCK, ZERO]),
            (9, RESET_LOW, &[ZERO, CLOCK, ZERO]),
        ],
        Err(Refusal::ResetNotHeld { line: 9 }),
    ),
];

/// Loops, where all is to settle.
const LOOPS: &[Case] = &[
    (
        PUBLIC,
        &[(5, BUF, &[C0])],
        Err(Refusal::GateLoop { line: 5 }),
    ),
    (
        PUBLIC,
        &[(9, BUF, &[C1]), (7, AND, &[C0, I1])],
        Err(Refusal::GateLoop { line: 7 }),
    ),
    (
        PUBLIC,
        &[(9, BUF, &[C0]), (3, XOR, &[C0, I1])],
        Err(Refusal::GateLoop { line: 3 }),
    ),
    (
        PUBLIC,
        &[(5, REGISTER, &[C0, CLOCK])],
        Err(Refusal::RegisterLoop { line: 5 }),
    ),
    (
        PUBLIC,
        &[(5, REGISTER, &[C1, CLOCK]), (4, NOT, &[C0])],
        Err(Refusal::RegisterLoop { line: 4 }),
    ),
    (
        PUBLIC,
        &[(2, REGISTER, &[C0, CLOCK]), (8, BUF, &[C1])],
        Err(Refusal::GateLoop { line: 8 }),
    ),
    (
        PUBLIC,
        &[(8, RESET_LOW, &[C0, CLOCK, I1])],
        Err(Refusal::RegisterLoop { line: 8 }),
    ),
];

/// The least number comes first of the cells that may be next.
const ORDERS: &[Case] = &[
    (PUBLIC, &[], Ok(&[])),
    (
        PUBLIC,
        &[(5, BUF, &[C1]), (6, BUF, &[C2]), (7, BUF, &[I1])],
        Ok(&[2, 1, 0]),
    ),
    (
        PUBLIC,
        &[(5, BUF, &[C2]), (6, BUF, &[I1]), (7, BUF, &[I1])],
        Ok(&[1, 2, 0]),
    ),
    (
        PUBLIC,
        &[(5, REGISTER, &[C1, CLOCK]), (6, XOR, &[I1, I1])],
        Ok(&[1, 0]),
    ),
    (
        PUBLIC,
        &[
            (5, XOR, &[C1, C2]),
            (6, REGISTER, &[C2, CLOCK]),
            (7, NOT, &[ONE]),
        ],
        Ok(&[2, 1, 0]),
    ),
];

/// Over cycles a register waits for nothing.
const CYCLES: &[Case] = &[
    (PUBLIC, &[(5, REGISTER, &[C0, CLOCK])], Ok(&[0])),
    (
        PUBLIC,
        &[(5, REGISTER, &[C1, CLOCK]), (6, NOT, &[C0])],
        Ok(&[0, 1]),
    ),
    (
        PUBLIC,
        &[(5, REGISTER, &[C1, CLOCK]), (6, XOR, &[I1, I1])],
        Ok(&[0, 1]),
    ),
    (
        PUBLIC,
        &[(5, REGISTER, &[C1, CLOCK]), (6, NOT, &[C1])],
        Err(Refusal::GateLoop { line: 6 }),
    ),
    (
        PUBLIC,
        &[(5, RESET_LOW, &[C0, CLOCK, I1])],
        Err(Refusal::ResetNotHeld { line: 5 }),
    ),
];

/// A refresh of two shares whose first cell reads what it drives.
const REFRESH: Case = (
    &[
        Role::Share {
            secret: 0,
            share: 0,
        },
        Role::Share {
            secret: 0,
            share: 1,
        },
        Role::Random,
    ],
    &[(16, XOR, &[Source::Input(0), C0]), (21, XOR, &[I1, I2])],
    Err(Refusal::GateLoop { line: 16 }),
);

/// The first register of the masked AND: one that reads the sum which it is part of, and one with a reset.
const LOOPED: Line = (51, REGISTER, &[Source::Cell(8), CLOCK]);

const WITH_RESET: Line = (53, RESET_LOW, &[Source::Cell(4), CLOCK, Source::Input(6)]);

/// A masked AND of two shares, whose first register has the line, the kind and reads what is given.
fn product(alloc: Global, register: Line, held: bool) -> Result<Result<Circuit, Stop>, Fail> {
    let share = Role::Share {
        secret: 0,
        share: 0,
    };
    let roles = [
        Role::Clock,
        share,
        share,
        share,
        share,
        Role::Random,
        Role::Held(held),
    ];
    let cells: [Line; 10] = [
        (21, AND, &[I1, Source::Input(3)]),
        (26, AND, &[I1, Source::Input(4)]),
        (31, AND, &[I2, Source::Input(3)]),
        (36, AND, &[I2, Source::Input(4)]),
        (41, XOR, &[C1, Source::Input(5)]),
        (46, XOR, &[C2, Source::Input(5)]),
        register,
        (57, REGISTER, &[Source::Cell(5), CLOCK]),
        (62, XOR, &[C0, Source::Cell(6)]),
        (67, XOR, &[Source::Cell(3), Source::Cell(7)]),
    ];
    circuit(alloc, &roles, &cells, Timing::Settled)
}

/// The circuit of a netlist whose input bits have these roles.
fn circuit(
    alloc: Global,
    roles: &[Role],
    cells: &[Line],
    timing: Timing,
) -> Result<Result<Circuit, Stop>, Fail> {
    let nets = nets(alloc, roles.len(), cells)?;
    let roles = Roles {
        shares: 2,
        secrets: Sequence::from_vec(Vec::new(alloc)),
        inputs: inputs(alloc, roles)?,
        output_secrets: Sequence::from_vec(Vec::new(alloc)),
        outputs: Sequence::from_vec(Vec::new(alloc)),
    };
    if !is_wired(&nets) {
        return Err(Fail::from("a pin reads what is not there"));
    }
    if !fits(&roles, &nets) {
        return Err(Fail::from("a role is of a bit that is not there"));
    }
    if !is_timing(timing) {
        return Err(Fail::from("so many cycles do not run"));
    }
    Ok(levels(alloc, nets, &roles, timing))
}

fn inputs(alloc: Global, roles: &[Role]) -> Result<Sequence<InputRole>, Fail> {
    let mut inputs = Vec::new(alloc);
    let mut bit = 0u32;
    for role in roles {
        let input = InputRole { bit, role: *role };
        inputs.push(input).map_err(AllocError::from)?;
        bit = bit.wrapping_add(1);
    }
    Ok(Sequence::from_vec(inputs))
}

/// So many input bits; and the cells, each with a bit of its own.
fn nets(alloc: Global, inputs: usize, cells: &[Line]) -> Result<Nets, Fail> {
    let mut sources = Vec::new(alloc);
    for bit in 0..inputs {
        let source = Source::Input(u32::try_from(bit)?);
        sources.push(source).map_err(AllocError::from)?;
    }
    let mut list = Vec::new(alloc);
    for (line, kind, reads) in cells {
        let output = u32::try_from(sources.len())?;
        let source = Source::Cell(u32::try_from(list.len())?);
        sources.push(source).map_err(AllocError::from)?;
        let cell = NetCell {
            line: *line,
            kind: *kind,
            pins: pins(alloc, reads)?,
            output,
        };
        list.push(cell).map_err(AllocError::from)?;
    }
    Ok(Nets {
        wires: Sequence::from_vec(Vec::new(alloc)),
        sources: Sequence::from_vec(sources),
        cells: Sequence::from_vec(list),
    })
}

fn pins(alloc: Global, reads: &[Source]) -> Result<Sequence<Pin>, Fail> {
    let mut pins = Vec::new(alloc);
    for source in reads {
        let pin = Pin {
            line: 0,
            source: *source,
        };
        pins.push(pin).map_err(AllocError::from)?;
    }
    Ok(Sequence::from_vec(pins))
}

fn is_answer(answer: &Result<Circuit, Stop>, expected: Result<&[u32], Refusal>) -> bool {
    match answer {
        Ok(circuit) => match expected {
            Ok(order) => circuit.order.as_slice() == order,
            Err(_) => false,
        },
        Err(Stop::Refused(refusal)) => match expected {
            Ok(_) => false,
            Err(other) => *refusal == other,
        },
        Err(Stop::NoMemory) => false,
    }
}

/// The number of the first case that is not answered as it says.
fn first_wrong(alloc: Global, cases: &[Case], timing: Timing) -> Result<Option<usize>, Fail> {
    for (number, case) in cases.iter().enumerate() {
        let answer = circuit(alloc, case.0, case.1, timing)?;
        if !is_answer(&answer, case.2) {
            return Ok(Some(number));
        }
    }
    Ok(None)
}

#[test]
fn answers_the_order_or_what_is_due(rt: HostRuntime) -> Result<(), Fail> {
    let alloc = rt.alloc();
    assert_eq!(rt; first_wrong(alloc, RESETS, Timing::Settled)?, None);
    assert_eq!(rt; first_wrong(alloc, ENABLES, Timing::Settled)?, None);
    assert_eq!(rt; first_wrong(alloc, LOOPS, Timing::Settled)?, None);
    assert_eq!(rt; first_wrong(alloc, ORDERS, Timing::Settled)?, None);
    assert_eq!(rt; first_wrong(alloc, CYCLES, Timing::Cycles(1))?, None);
    assert_eq!(rt; first_wrong(alloc, CYCLES, Timing::Cycles(16))?, None);
    assert_eq!(rt; first_wrong(alloc, &[REFRESH], Timing::Settled)?, None);
    Ok(())
}

/// The register reads the sum that it is part of; or has a reset that is held, and one that is not.
#[test]
fn answers_on_a_masked_product(rt: HostRuntime) -> Result<(), Fail> {
    let looped = product(rt.alloc(), LOOPED, true)?;
    assert!(rt; is_answer(&looped, Err(Refusal::RegisterLoop { line: 51 })));
    let held = product(rt.alloc(), WITH_RESET, true)?;
    assert!(rt; is_answer(&held, Ok(&[0, 1, 2, 3, 4, 5, 6, 7, 8, 9])));
    let open = product(rt.alloc(), WITH_RESET, false)?;
    assert!(rt; is_answer(&open, Err(Refusal::ResetNotHeld { line: 53 })));
    Ok(())
}

//! Probes of small circuits made by hand, and the limits.
use crate::maker::Maker;
use crate::premises::{fits, is_timing, is_wired};
use cell_kinds::{CellKind, Flop, GateKind};
use circuit_types::{Model, Probes, Refusal, Role, Source, Stop, Timing, Which};
use glitch_cone::probes;
use level_unroll::levels;
use std::alloc::Global;
use std::test::Fail;

const AND: CellKind = CellKind::Gate(GateKind::And);

const XOR: CellKind = CellKind::Gate(GateKind::Xor);

const BUF: CellKind = CellKind::Gate(GateKind::Buf);

const REGISTER: CellKind = CellKind::Flop(Flop {
    rising: true,
    reset: None,
    enable: None,
});

fn probes_of(
    alloc: Global,
    maker: Maker,
    timing: Timing,
    model: Model,
) -> Result<Result<Probes, Stop>, Fail> {
    let (nets, roles) = maker.done(alloc);
    if !is_wired(&nets) {
        return Err(Fail::from("a pin reads what is not there"));
    }
    if !fits(&roles, &nets) {
        return Err(Fail::from("a role is of a bit that is not there"));
    }
    if !is_timing(timing) {
        return Err(Fail::from("so many cycles do not run"));
    }
    let circuit = levels(alloc, nets, &roles, timing)?;
    Ok(probes(alloc, &circuit, &roles, model))
}

/// The domain-oriented AND of two shares: its inputs besides the clock are numbered 0 to 4, its cells 5 to 14.
fn gadget(alloc: Global) -> Result<Maker, Fail> {
    let mut maker = Maker::new(alloc);
    let clock = maker.input(Role::Clock)?;
    let a0 = maker.input(Role::Share {
        secret: 0,
        share: 0,
    })?;
    let a1 = maker.input(Role::Share {
        secret: 0,
        share: 1,
    })?;
    let b0 = maker.input(Role::Share {
        secret: 1,
        share: 0,
    })?;
    let b1 = maker.input(Role::Share {
        secret: 1,
        share: 1,
    })?;
    let random = maker.input(Role::Random)?;
    let p00 = maker.cell(AND, &[a0, b0])?;
    let p01 = maker.cell(AND, &[a0, b1])?;
    let p10 = maker.cell(AND, &[a1, b0])?;
    let p11 = maker.cell(AND, &[a1, b1])?;
    let q01 = maker.cell(XOR, &[p01, random])?;
    let q10 = maker.cell(XOR, &[p10, random])?;
    let z01 = maker.cell(REGISTER, &[q01, clock])?;
    let z10 = maker.cell(REGISTER, &[q10, clock])?;
    let c0 = maker.cell(XOR, &[p00, z01])?;
    let c1 = maker.cell(XOR, &[p11, z10])?;
    maker.share(c0)?;
    maker.share(c1)?;
    Ok(maker)
}

/// What a glitch may carry to each wire of the gadget: a register stops it.
const SEEN: [&[u32]; 15] = [
    &[0],
    &[1],
    &[2],
    &[3],
    &[4],
    &[0, 2],
    &[0, 3],
    &[1, 2],
    &[1, 3],
    &[0, 3, 4],
    &[1, 2, 4],
    &[11],
    &[12],
    &[0, 2, 11],
    &[1, 3, 12],
];

/// A source of the gadget by its number.
fn numbered(number: u32) -> Source {
    if number < 5 {
        Source::Input(number + 1)
    } else {
        Source::Cell(number - 5)
    }
}

fn are_numbered(sources: &[Source], numbers: &[u32]) -> bool {
    if sources.len() != numbers.len() {
        return false;
    }
    for (source, number) in sources.iter().zip(numbers) {
        if *source != numbered(*number) {
            return false;
        }
    }
    true
}

#[test]
fn sees_what_a_glitch_may_carry(rt: HostRuntime) -> Result<(), Fail> {
    let probes = probes_of(
        rt.alloc(),
        gadget(rt.alloc())?,
        Timing::Settled,
        Model::Glitch,
    )??;
    assert_eq!(rt; probes.list.as_slice().len(), 15);
    let mut number = 0u32;
    for (probe, seen) in probes.list.as_slice().iter().zip(&SEEN) {
        assert!(rt; are_numbered(probe.seen.as_slice(), seen), "{number}");
        assert_eq!(rt; probe.source, numbered(number.min(14)));
        assert_eq!(rt; probe.cycle, 0);
        assert_eq!(rt; probe.output, number >= 13);
        number = number.saturating_add(1);
    }
    Ok(())
}

#[test]
fn names_probes_and_lists_them_by_cycles(rt: HostRuntime) -> Result<(), Fail> {
    let probes = probes_of(
        rt.alloc(),
        gadget(rt.alloc())?,
        Timing::Cycles(2),
        Model::Value,
    )??;
    assert_eq!(rt; probes.list.as_slice().len(), 30);
    for (k, probe) in probes.list.as_slice().iter().enumerate() {
        let number = (k % 15) as u32;
        assert!(rt; are_numbered(probe.seen.as_slice(), &[number]), "{k}");
        assert_eq!(rt; probe.source, numbered(number));
        assert_eq!(rt; probe.name_bit, number + 1, "{k}");
        assert_eq!(rt; probe.cycle, (k / 15) as u32 % 2, "{k}");
        assert_eq!(rt; probe.output, k >= 28, "{k}");
    }
    Ok(())
}

/// Shares of outputs that end at an input, at a constant and at a held input; the cell is no output.
#[test]
fn marks_outputs_by_their_ends(rt: HostRuntime) -> Result<(), Fail> {
    let mut maker = Maker::new(rt.alloc());
    let known = maker.input(Role::Public)?;
    let held = maker.input(Role::Held(true))?;
    let random = maker.input(Role::Random)?;
    maker.cell(XOR, &[known, held])?;
    maker.share(random)?;
    maker.share(Source::One)?;
    maker.share(held)?;
    let probes = probes_of(rt.alloc(), maker, Timing::Settled, Model::Glitch)??;
    let list = probes.list.as_slice();
    assert_eq!(rt; list.len(), 3);
    assert!(rt; !list[0].output);
    assert!(rt; list[1].output);
    assert!(rt; !list[2].output);
    assert_eq!(rt; list[2].seen.as_slice(), [known].as_slice());
    Ok(())
}

/// One input and so many cells in a row.
fn row(alloc: Global, cells: u32) -> Result<Maker, Fail> {
    let mut maker = Maker::new(alloc);
    let mut last = maker.input(Role::Random)?;
    for _cell in 0..cells {
        last = maker.cell(BUF, &[last])?;
    }
    Ok(maker)
}

/// How many probes there are, or the refusal.
fn count(
    alloc: Global,
    maker: Maker,
    timing: Timing,
    model: Model,
) -> Result<Result<usize, Refusal>, Fail> {
    match probes_of(alloc, maker, timing, model)? {
        Ok(probes) => Ok(Ok(probes.list.as_slice().len())),
        Err(Stop::Refused(refusal)) => Ok(Err(refusal)),
        Err(Stop::NoMemory) => Err(Fail::from("memory was refused")),
    }
}

#[test]
fn has_at_most_65535_probes_in_all_cycles(rt: HostRuntime) -> Result<(), Fail> {
    let refused = Err(Refusal::Limit(Which::Probes));
    for (cells, timing, expected) in [
        (65_534, Timing::Settled, Ok(65_535)),
        (65_535, Timing::Settled, refused),
        (4_094, Timing::Cycles(16), Ok(65_520)),
        (4_095, Timing::Cycles(16), refused),
    ] {
        let maker = row(rt.alloc(), cells)?;
        assert_eq!(rt; count(rt.alloc(), maker, timing, Model::Glitch)?, expected);
    }
    Ok(())
}

/// Of 4,096 inputs one after another is added to a sum, and each sum sees one more; then so many wires see the last
/// sum, and one sees the sum of 2,049 inputs. With 2,046 such wires the probes see as many sources as they may.
fn sums(alloc: Global, wires: u32) -> Result<Maker, Fail> {
    let mut maker = Maker::new(alloc);
    let mut inputs = Vec::new(alloc);
    for _input in 0..4096 {
        inputs.push(maker.input(Role::Random)?)?;
    }
    let mut sum = Source::Zero;
    let mut half = Source::Zero;
    for (k, input) in inputs.iter().enumerate() {
        sum = if k == 0 {
            *input
        } else {
            maker.cell(XOR, &[sum, *input])?
        };
        if k == 2048 {
            half = sum;
        }
    }
    maker.cell(BUF, &[half])?;
    for _wire in 0..wires {
        maker.cell(BUF, &[sum])?;
    }
    Ok(maker)
}

#[test]
fn sees_at_most_16777216_sources(rt: HostRuntime) -> Result<(), Fail> {
    let refused = Err(Refusal::Limit(Which::Seen));
    for (wires, expected) in [(2_046, Ok(10_238)), (2_047, refused), (57_000, refused)] {
        let maker = sums(rt.alloc(), wires)?;
        assert_eq!(rt;
            count(rt.alloc(), maker, Timing::Settled, Model::Glitch)?,
            expected
        );
    }
    Ok(())
}

//! The rows of the standard, each gate over all values of its inputs.
use cell_kinds::*;
use std::process::Abort;
use std::test::Fail;

/// A gate of the standard: its name, its inputs, and its values where the inputs count in binary from 0,
/// the first input as the lowest digit.
#[derive(Clone, Copy)]
struct Row {
    name: &'static [u8],
    inputs: &'static [u8],
    values: &'static [u8],
}

fn check_gate(rt: &impl Abort, row: Row) -> Result<(), Fail> {
    let kind = kind_of(row.name).ok_or("no such cell")?;
    assert_eq!(rt; output_port(kind), b'Y');
    assert_eq!(rt; inputs(kind), row.inputs);
    match kind {
        CellKind::Gate(gate) => check_values(rt, gate, row),
        CellKind::Flop(_) => Err(Fail::from("a flip-flop")),
    }
}

#[tactic(auto, unfolding(cell_kinds::specs::Cells::input_letters))]
fn check_values(rt: &impl Abort, gate: GateKind, row: Row) -> Result<(), Fail> {
    for number in 0u8..16 {
        let bits = [
            number & 1 != 0,
            number & 2 != 0,
            number & 4 != 0,
            number & 8 != 0,
        ];
        let count = inputs(CellKind::Gate(gate)).len();
        if let Some(value) = row.values.get(number as usize)
            && count <= 4
        {
            assert_eq!(rt; output(gate, &bits[..count]), *value == b'1');
        }
    }
    Ok(())
}

fn gate_row(name: &'static [u8], inputs: &'static [u8], values: &'static [u8]) -> Row {
    Row {
        name,
        inputs,
        values,
    }
}

#[test]
fn gates_by_their_truth_tables(rt: HostRuntime) -> Result<(), Fail> {
    check_gate(&rt, gate_row(b"$_BUF_", b"A", b"01"))?;
    check_gate(&rt, gate_row(b"$_NOT_", b"A", b"10"))?;
    check_gate(&rt, gate_row(b"$_AND_", b"AB", b"0001"))?;
    check_gate(&rt, gate_row(b"$_NAND_", b"AB", b"1110"))?;
    check_gate(&rt, gate_row(b"$_OR_", b"AB", b"0111"))?;
    check_gate(&rt, gate_row(b"$_NOR_", b"AB", b"1000"))?;
    check_gate(&rt, gate_row(b"$_XOR_", b"AB", b"0110"))?;
    check_gate(&rt, gate_row(b"$_XNOR_", b"AB", b"1001"))?;
    check_gate(&rt, gate_row(b"$_ANDNOT_", b"AB", b"0100"))?;
    check_gate(&rt, gate_row(b"$_ORNOT_", b"AB", b"1101"))?;
    check_gate(&rt, gate_row(b"$_MUX_", b"ABS", b"01010011"))?;
    check_gate(&rt, gate_row(b"$_NMUX_", b"ABS", b"10101100"))?;
    check_gate(&rt, gate_row(b"$_AOI3_", b"ABC", b"11100000"))?;
    check_gate(&rt, gate_row(b"$_OAI3_", b"ABC", b"11111000"))?;
    check_gate(&rt, gate_row(b"$_AOI4_", b"ABCD", b"1110111011100000"))?;
    check_gate(&rt, gate_row(b"$_OAI4_", b"ABCD", b"1111100010001000"))
}

fn flop(rising: bool, reset: Option<Reset>, enable: Option<bool>) -> Option<CellKind> {
    Some(CellKind::Flop(Flop {
        rising,
        reset,
        enable,
    }))
}

fn reset(high: bool, value: bool, synchronous: bool) -> Option<Reset> {
    Some(Reset {
        high,
        value,
        synchronous,
    })
}

fn check_flop(
    rt: &impl Abort,
    name: &[u8],
    expected: Option<CellKind>,
    ports: &[u8],
) -> Result<(), Fail> {
    assert_eq!(rt; kind_of(name), expected);
    let kind = kind_of(name).ok_or("no such cell")?;
    assert_eq!(rt; inputs(kind), ports);
    assert_eq!(rt; output_port(kind), b'Q');
    Ok(())
}

#[test]
fn flip_flops_by_their_letters(rt: HostRuntime) -> Result<(), Fail> {
    check_flop(&rt, b"$_DFF_P_", flop(true, None, None), b"DC")?;
    check_flop(&rt, b"$_DFF_N_", flop(false, None, None), b"DC")?;
    let falling = reset(false, true, false);
    check_flop(&rt, b"$_DFF_PN1_", flop(true, falling, None), b"DCR")?;
    check_flop(&rt, b"$_DFFE_NP_", flop(false, None, Some(true)), b"DCE")?;
    let high = reset(true, false, false);
    check_flop(&rt, b"$_DFFE_PP0N_", flop(true, high, Some(false)), b"DCER")?;
    let at_edge = reset(true, true, true);
    check_flop(&rt, b"$_SDFF_NP1_", flop(false, at_edge, None), b"DCR")?;
    check_flop(
        &rt,
        b"$_SDFFE_PP1P_",
        flop(true, at_edge, Some(true)),
        b"DCER",
    )
}

fn is_unknown(name: &[u8]) -> bool {
    kind_of(name).is_none()
}

#[test]
fn other_names_are_no_cells(rt: HostRuntime) -> Result<(), Fail> {
    assert!(rt; is_unknown(b""));
    assert!(rt; is_unknown(b"$_AND"));
    assert!(rt; is_unknown(b"$_and_"));
    assert!(rt; is_unknown(b"\\$_AND_"));
    assert!(rt; is_unknown(b"$_DFF_P"));
    assert!(rt; is_unknown(b"$_DFF_X_"));
    assert!(rt; is_unknown(b"$_DFF_PP2_"));
    assert!(rt; is_unknown(b"$_DFF_PP0P_"));
    assert!(rt; is_unknown(b"$_DFFE_PP0_"));
    assert!(rt; is_unknown(b"$_SDFF_P_"));
    assert!(rt; is_unknown(b"$_SDFFE_PP_"));
    assert!(rt; is_unknown(b"$_SDFFCE_PP0P_"));
    assert!(rt; is_unknown(b"$_DFFSR_PPP_"));
    assert!(rt; is_unknown(b"$_ALDFF_PP_"));
    assert!(rt; is_unknown(b"$_DLATCH_P_"));
    assert!(rt; is_unknown(b"$_TBUF_"));
    Ok(())
}

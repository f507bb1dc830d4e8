//! Tables at their edges: equal terms, the limit, the order.

use expr_table::{ExprTable, Node, Row, TermStop};
use std::alloc::Global;
use std::cmp::Ordering;
use std::test::Fail;

/// A kind of gate.
#[derive(Clone, Copy)]
enum Gate {
    And,
    Xor,
}

/// A table of leaves.
fn table_of(alloc: Global, inputs: u32, randoms: u32) -> Result<ExprTable, TermStop> {
    ExprTable::make(alloc, inputs, randoms)
}

/// The row of a gate; `NoMemory` for a row that is not there too.
fn row_of(table: &mut ExprTable, gate: Gate, a: u32, b: u32) -> Result<u32, TermStop> {
    if a >= table.rows() {
        return Err(TermStop::NoMemory);
    }
    if b >= table.rows() {
        return Err(TermStop::NoMemory);
    }
    let row = match gate {
        Gate::And => table.and(Row(a), Row(b))?,
        Gate::Xor => table.xor(Row(a), Row(b))?,
    };
    Ok(row.0)
}

/// The row of an exclusive or.
fn xor(table: &mut ExprTable, a: u32, b: u32) -> Result<u32, TermStop> {
    row_of(table, Gate::Xor, a, b)
}

/// The order of two rows' terms, where they are there.
fn order(table: &ExprTable, a: u32, b: u32) -> Option<Ordering> {
    if a >= table.rows() {
        return None;
    }
    if b >= table.rows() {
        return None;
    }
    Some(table.compare(Row(a), Row(b)))
}

/// The node of a row, where it is there.
fn node(table: &ExprTable, row: u32) -> Option<Node> {
    if row >= table.rows() {
        return None;
    }
    Some(table.node(Row(row)))
}

fn is_full(outcome: Result<u32, TermStop>) -> bool {
    match outcome {
        Err(TermStop::TooManyTerms) => true,
        _ => false,
    }
}

fn has_no_room(alloc: Global, inputs: u32, randoms: u32) -> bool {
    match table_of(alloc, inputs, randoms) {
        Err(TermStop::TooManyTerms) => true,
        _ => false,
    }
}

/// The last of a chain of exclusive ors, each of the next row of a range and the one before.
fn chain(table: &mut ExprTable, from: u32, first: u32, end: u32) -> Result<u32, TermStop> {
    let mut row = from;
    for leaf in first..end {
        row = xor(table, leaf, row)?;
    }
    Ok(row)
}

#[test]
fn constants_then_inputs_then_randoms(rt: HostRuntime) -> Result<(), Fail> {
    let table = table_of(rt.alloc(), 2, 1)?;
    let want = [
        (0, Node::Zero),
        (1, Node::One),
        (2, Node::Input(0)),
        (3, Node::Input(1)),
        (4, Node::Random(0)),
    ];
    for (row, wanted) in want {
        assert_eq!(rt; node(&table, row), Some(wanted), "row {row}");
    }
    assert_eq!(rt; table.rows(), 5);
    Ok(())
}

#[test]
fn equal_terms_have_one_row(rt: HostRuntime) -> Result<(), Fail> {
    let mut table = table_of(rt.alloc(), 1, 1)?;
    let want = [
        (Gate::Xor, 2, 3, 4),
        (Gate::Xor, 2, 3, 4),
        (Gate::Xor, 3, 2, 4),
        (Gate::And, 2, 2, 2),
        (Gate::Xor, 1, 2, 5),
        (Gate::Xor, 1, 5, 2),
        (Gate::Xor, 5, 1, 2),
        (Gate::Xor, 2, 2, 0),
        (Gate::Xor, 0, 3, 3),
        (Gate::Xor, 3, 0, 3),
        (Gate::And, 3, 2, 6),
        (Gate::And, 2, 3, 6),
        (Gate::And, 0, 3, 0),
        (Gate::And, 3, 0, 0),
        (Gate::And, 1, 3, 3),
        (Gate::And, 3, 1, 3),
    ];
    for (gate, a, b, row) in want {
        assert_eq!(rt; row_of(&mut table, gate, a, b)?, row, "of {a} and {b}");
    }
    assert_eq!(rt; node(&table, 4), Some(Node::Xor(Row(2), Row(3))));
    assert_eq!(rt; node(&table, 6), Some(Node::And(Row(2), Row(3))));
    assert_eq!(rt; table.rows(), 7);
    Ok(())
}

#[test]
fn a_full_table_stays(rt: HostRuntime) -> Result<(), Fail> {
    let mut table = table_of(rt.alloc(), 262_143, 262_143)?;
    assert!(rt; is_full(xor(&mut table, 2, 3)));
    assert!(rt; is_full(row_of(&mut table, Gate::And, 2, 3)));
    assert_eq!(rt; table.rows(), 524_288);
    assert_eq!(rt; xor(&mut table, 5, 5)?, 0);
    Ok(())
}

#[test]
fn too_many_leaves_make_no_table(rt: HostRuntime) {
    let leaves = [
        (524_287, 0),
        (0, 524_287),
        (262_144, 262_143),
        (u32::MAX, u32::MAX),
    ];
    for (inputs, randoms) in leaves {
        assert!(rt;
            has_no_room(rt.alloc(), inputs, randoms),
            "{inputs} and {randoms}"
        );
    }
    assert!(rt; !has_no_room(rt.alloc(), 524_286, 0));
}

#[test]
fn kinds_then_numbers_then_sides(rt: HostRuntime) -> Result<(), Fail> {
    let mut table = table_of(rt.alloc(), 2, 2)?;
    for (a, b, row) in [(3, 5, 6), (3, 4, 7), (2, 5, 8)] {
        assert_eq!(rt; xor(&mut table, a, b)?, row);
    }
    let ascending = [0, 1, 2, 3, 4, 5, 8, 7, 6];
    for (i, a) in ascending.iter().enumerate() {
        for (j, b) in ascending.iter().enumerate() {
            assert_eq!(rt; order(&table, *a, *b), Some(i.cmp(&j)), "rows {a} and {b}");
        }
    }
    Ok(())
}

#[test]
fn long_chains_compare_without_stack(rt: HostRuntime) -> Result<(), Fail> {
    let mut table = table_of(rt.alloc(), 2, 170_000)?;
    let a = chain(&mut table, 2, 4, 170_004)?;
    let b = chain(&mut table, 3, 4, 170_004)?;
    assert_eq!(rt; order(&table, a, b), Some(Ordering::Less));
    assert_eq!(rt; table.rows(), 510_004);
    Ok(())
}

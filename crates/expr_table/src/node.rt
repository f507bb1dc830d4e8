//! Rows and what stands in them.

/// The number of a row of the table.
#[derive(Clone, Copy, Debug, PartialEq, Eq, Hash)]
pub struct Row(pub u32);

/// What stands in a row: a constant, a leaf with its number, or a gate over two earlier rows.
#[derive(Clone, Copy, Debug, PartialEq, Eq, Hash)]
pub enum Node {
    Zero,
    One,
    Input(u32),
    Random(u32),
    And(Row, Row),
    Xor(Row, Row),
}

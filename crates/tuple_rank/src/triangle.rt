//! Pascal's triangle, a row at a time.
ghost use Rattle.std.specs.Prelude.{◌≡◌, ◌<◌, ◌≤◌, ◌^◌, ◌↔◌, ℕ, ◌+◌, IfOk, IsTrue, length};
ghost use Rattle.std.specs.Option.{SomeIff};
ghost use Rattle.tuple_rank.specs.Choices.{choose_to};
ghost use Rattle.tuple_rank.specs.Triangle.{IsTriangleRow, IsSmall, IsTriangle};
ghost use Rattle.tuple_rank.specs.Tuples.{tuples};

use std::alloc::{AllocError, Global};

/// A row of Pascal's triangle: at each place k in how many ways k + 1 things are chosen.
pub type Row = [u64; 8];

/// The most tuples that are counted.
const MOST: u64 = 1 << 62;

/// The first t numbers of the next row.
fn next_row(row: &Row, t: usize) -> Row
    requires few { t ≤ 8 }
    requires small { IsSmall t row.now }
    ensures { (m : ℕ) → IsTriangleRow m t row.now → IsTriangleRow (m + 1) t result }
{
    let mut next = [0; 8];
    let mut before = 1;
    for k in 0..t {
        next[k] = before + row[k];
        before = row[k];
    }
    next
}

/// Whether none of the first t numbers is greater than 2^62.
fn is_small(row: &Row, t: usize) -> bool
    requires { t ≤ 8 }
    ensures { IsTrue result ↔ IsSmall t row.now }
{
    for k in 0..t {
        if row[k] > MOST {
            return false;
        }
    }
    true
}

/// The sum of the first t numbers of the row of n things, if it is at most 2^62.
fn total_of(row: &Row, n: u32, t: usize) -> Option<u64>
    requires few { t ≤ 8 }
    requires row { IsTriangleRow n t row.now }
    requires small { IsSmall t row.now }
    ensures { SomeIff result (choose_to n t ≤ 2 ^ 62) (choose_to n t) }
{
    let mut total = 0;
    for k in 0..t {
        total += row[k];
        if total > MOST {
            return None;
        }
    }
    Some(total)
}

/// The number of the tuples of (n, t), if it is at most 2^62. It takes no memory.
pub fn count(n: u32, t: u32) -> Option<u64>
    requires some { 1 ≤ t }
    requires few { t ≤ 8 }
    ensures { SomeIff result (length (tuples n t) ≤ 2 ^ 62) (length (tuples n t)) }
{
    let places = t as usize;
    let mut row = [0; 8];
    for _ in 0..n {
        row = next_row(&row, places);
        if !is_small(&row, places) {
            return None;
        }
    }
    total_of(&row, n, places)
}

/// The rows of 0 to n things.
pub fn rows(alloc: Global, n: u32, t: u32) -> Result<Vec<Row>, AllocError>
    requires few { t ≤ 8 }
    requires small { length (tuples n t) ≤ 2 ^ 62 }
    ensures { IfOk result (λ rows. IsTriangle n t rows.items) }
{
    let places = t as usize;
    let mut rows = Vec::with_capacity(alloc, n as usize + 1)?;
    let mut row = [0; 8];
    rows.push(row)?;
    for _ in 0..n {
        row = next_row(&row, places);
        rows.push(row)?;
    }
    Ok(rows)
}

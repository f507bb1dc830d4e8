//! Sets of numbers below a length, as rows of bits.
//!
//! A [`BitRow`] is made for a length and holds any of the numbers below it. Contracts see it as one flag
//! for each number; it is kept as words of 64 bits, whose bits to spare are zero, so that equal sets have
//! equal words. Sets of equal length are joined, cut and compared a word at a time, and a set's members
//! are read in ascending order.
#![tactic(auto)]

mod bit_row;
mod words;

pub use bit_row::BitRow;
pub use sequences::NoMemory;

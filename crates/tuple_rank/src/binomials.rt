//! The table that counts tuples.
ghost use Rattle.std.specs.Prelude.{◌≡◌, ◌<◌, ◌≤◌, ◌^◌, ◌↔◌, IfOk, length};
ghost use Rattle.tuple_rank.specs.Choices.{choose};
ghost use Rattle.tuple_rank.specs.Tuples.{tuples};

mod rank;
mod unrank;

use crate::count_stop::CountStop;
use crate::triangle;
use crate::triangle::Row;
use std::alloc::Global;
use std::marker::Model;

/// A table that counts the tuples of (n, t), ranks them and gives the tuple of a rank.
#[derive(Drop)]
pub struct Binomials {
    n: u32,
    t: u32,
    total: u64,
    rows: Vec<Row>,
}

impl Model for Binomials {
    ghost use Rattle.tuple_rank.specs.Tuples.{TupleSpace};
    ghost use Rattle.tuple_rank.specs.Triangle.{IsCounted};

    ghost Value = { TupleSpace };

    ghost view = { λ b. record { n = b.n; t = b.t } };

    ghost invariant = { λ b. IsCounted b.n b.t b.total b.rows.items };
}

impl Binomials {
    /// The table for tuples of at most `t` of the numbers below `n`. It is not made exactly where there are
    /// more than 2^62 of them, or memory is refused.
    pub fn make(alloc: Global, n: u32, t: u32) -> Result<Binomials, CountStop>
        requires n_in { n ≤ 65535 }
        requires some { 1 ≤ t }
        requires few { t ≤ 8 }
        ensures made { IfOk result (λ counts. counts ≡ record { n = n; t = t }) }
        ensures too_many { (result ≡ Err CountStop.TooManyTuples) ↔ (2 ^ 62 < length (tuples n t)) }
    {
        let total = triangle::count(n, t).ok_or(CountStop::TooManyTuples)?;
        let rows = triangle::rows(alloc, n, t)?;
        Ok(Binomials { n, t, total, rows })
    }

    /// The number of tuples.
    pub fn total(&self) -> u64
        ensures counted { result ≡ length (tuples self.now.n self.now.t) }
        ensures small { result ≤ 2 ^ 62 }
    {
        self.total
    }

    /// In how many ways `k` of `n` things are chosen.
    pub fn choose(&self, n: u32, k: u32) -> u64
        requires n_in { n ≤ self.now.n }
        requires k_in { k ≤ self.now.t }
        ensures number { result ≡ choose n k }
        ensures small { result ≤ 2 ^ 62 }
    {
        if k == 0 {
            return 1;
        }
        self.rows[n as usize][k as usize - 1]
    }

    /// The number of numbers that the tuples are made of.
    fn n(&self) -> u32
        ensures n { result ≡ self.now.n }
        ensures few { self.now.t ≤ 8 }
        ensures small { length (tuples self.now.n self.now.t) ≤ 2 ^ 62 }
    {
        self.n
    }
}

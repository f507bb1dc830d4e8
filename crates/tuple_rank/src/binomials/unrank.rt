//! From a rank to its tuple.
ghost use Rattle.std.specs.Prelude.{◌≡◌, ◌+◌, ◌-◌, ◌<◌, ◌≤◌, Some, length, slice_get};
ghost use Rattle.std.specs.List.{range_with_len};
ghost use Rattle.tuple_rank.specs.Choices.{choices, choose, choose_to};
ghost use Rattle.tuple_rank.specs.Tuples.{IsTuple, tuples};

use crate::Tuple;
use crate::binomials::Binomials;

impl Binomials {
    /// The tuple of a rank.
    pub fn unrank(&self, rank: u64) -> Tuple
        requires { rank < length (tuples self.now.n self.now.t) }
        ensures place { slice_get (tuples self.now.n self.now.t) rank ≡ Some result.items }
        ensures tuple { IsTuple self.now.n self.now.t result.items }
    {
        let (size, place) = self.sized(rank);
        self.tuple_at(size, place)
    }

    /// The size of the tuple of a rank, and its place among those of its size.
    fn sized(&self, rank: u64) -> (u32, u64)
        requires { rank < length (tuples self.now.n self.now.t) }
        ensures some { 1 ≤ result.0 }
        ensures few { result.0 ≤ self.now.t }
        ensures place { result.1 < choose self.now.n result.0 }
        ensures rank { rank ≡ choose_to self.now.n (result.0 - 1) + result.1 }
    {
        let n = self.n();
        let mut size = 1;
        let mut place = rank;
        loop {
            let count = self.choose(n, size);
            if place < count {
                return (size, place);
            }
            place -= count;
            size += 1;
        }
    }

    /// The tuple at a place among those of a size.
    fn tuple_at(&self, size: u32, place: u64) -> Tuple
        requires few { size ≤ self.now.t }
        requires place { place < choose self.now.n size }
        ensures { slice_get (choices size (range_with_len 0 self.now.n)) place ≡ Some result.items }
    {
        let n = self.n();
        let mut tuple = Tuple::new();
        let mut low = 0;
        let mut left = size;
        let mut rest = place;
        while left > 0 {
            let all = self.choose(n - low, left);
            let x = self.number_at(low, left, all - rest);
            rest -= all - self.choose(n - x, left);
            tuple.push(x);
            low = x + 1;
            left -= 1;
        }
        tuple
    }

    /// The greatest number from `low` on such that `left` numbers from it on can be chosen in at least `ways` ways.
    fn number_at(&self, low: u32, left: u32, ways: u64) -> u32
        requires some { 1 ≤ left }
        requires few { left ≤ self.now.t }
        requires low { low ≤ self.now.n }
        requires ways { 1 ≤ ways }
        requires enough { ways ≤ choose (self.now.n - low) left }
        ensures from { low ≤ result }
        ensures within { result < self.now.n }
        ensures at_least { ways ≤ choose (self.now.n - result) left }
        ensures greatest { choose (self.now.n - (result + 1)) left < ways }
    {
        let mut x = low;
        let n = self.n();
        let mut end = n;
        while x + 1 < end {
            let middle = x + (end - x) / 2;
            if self.choose(n - middle, left) < ways {
                end = middle;
            } else {
                x = middle;
            }
        }
        x
    }
}

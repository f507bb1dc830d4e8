//! From a tuple to its rank.
ghost use Rattle.std.specs.Prelude.{◌≡◌, ◌-◌, ◌<◌, ◌≤◌, ◌^◌, Some, length, slice_get};
ghost use Rattle.std.specs.List.{range_with_len};
ghost use Rattle.tuple_rank.specs.Choices.{choices, choose, choose_to};
ghost use Rattle.tuple_rank.specs.Tuples.{IsTuple, tuples, rank_of};

use crate::Tuple;
use crate::binomials::Binomials;

impl Binomials {
    /// The rank of a tuple of (n, t): its place among the tuples, counted from 0.
    pub fn rank(&self, tuple: &Tuple) -> u64
        requires { IsTuple self.now.n self.now.t tuple.now.items }
        ensures place { slice_get (tuples self.now.n self.now.t) result ≡ Some tuple.now.items }
        ensures rank { result ≡ rank_of self.now.n self.now.t tuple.now.items }
        ensures small { result < 2 ^ 62 }
    {
        self.smaller(tuple.len() as u32 - 1) + self.place(tuple)
    }

    /// How many tuples have at most `size` numbers.
    fn smaller(&self, size: u32) -> u64
        requires { size ≤ self.now.t }
        ensures count { result ≡ choose_to self.now.n size }
        ensures small { length (tuples self.now.n self.now.t) ≤ 2 ^ 62 }
    {
        let n = self.n();
        let mut count = 0;
        for k in 0..size {
            count += self.choose(n, k + 1);
        }
        count
    }

    /// The place of a tuple among those of its size. Before a tuple that goes on with x stand those that go
    /// on with a lesser number: all from `low` on, without those from x on.
    fn place(&self, tuple: &Tuple) -> u64
        requires { IsTuple self.now.n self.now.t tuple.now.items }
        ensures { slice_get (choices (length tuple.now.items) (range_with_len 0 self.now.n)) result ≡ Some tuple.now.items }
    {
        let n = self.n();
        let mut place = 0;
        let mut low = 0;
        let mut left = tuple.len() as u32;
        for x in tuple.as_slice() {
            place += self.choose(n - low, left) - self.choose(n - *x, left);
            low = *x + 1;
            left -= 1;
        }
        place
    }
}

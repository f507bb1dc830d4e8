//! How a set grows: the numbers of some parts join, in ascending order, where the set then meets a criterion.
ghost use Rattle.std.specs.Prelude.{◌≡◌, ◌<◌, ◌≤◌, IfNone, IfSome, OnSome, false, length};
ghost use Rattle.extend_set.specs.Growth.{IsGrown, with_parts};

use crate::criterion::Criterion;
use crate::runs::{add_run, reset_run};
use bit_rows::BitRow;
use probe_family::Part;

/// What may join a set, and when. The set begins as a tuple, which stays in it.
#[derive(Drop)]
pub struct Growth<'a, C> {
    pub criterion: &'a C,
    pub parts: &'a [Part],
    pub tuple: &'a [u32],
}

impl<C: Criterion> Growth<'_, C> {
    /// Adds the numbers of the parts from `start` on and below `end` where the set then meets the criterion. Where it
    /// does not, leaves the set as it was, and answers the end of a run from `start` on that may not join either and
    /// has the same numbers.
    fn join(&self, work: &mut C::Work, set: &mut BitRow, start: u32, end: u32) -> Option<u32>
        requires order { start ≤ end }
        requires within { end ≤ length set.old }
        requires serves { C.serves self.now.criterion.now work.old (length set.old) }
        requires grown { IsGrown C.meets self.now (length set.old) start set.old }
        ensures stays { work.new ≡ work.old }
        ensures joined { IfNone result (set.new ≡ with_parts set.old self.now.parts.now start end) }
        ensures grown { IfNone result (IsGrown C.meets self.now (length set.old) end set.new) }
        ensures same { OnSome result (set.new ≡ set.old) }
        ensures misfit { IfSome result (λ misfit. (start < misfit) × (misfit ≤ end)
            × (C.meets self.now.criterion.now (with_parts set.old self.now.parts.now start misfit) ≡ false)) }
    {
        let reach = add_run(set, self.parts, start, end);
        if reach == start {
            // nothing is new, so nothing is asked
            return None;
        }
        if self.criterion.is_met(work, set) {
            return None;
        }
        reset_run(set, self.tuple, start, reach);
        Some(reach)
    }

    /// Of a run that may not join as a whole, adds the numbers before the first that may not join. Answers the number
    /// after that one.
    fn bisect(&self, work: &mut C::Work, set: &mut BitRow, mut start: u32, mut end: u32) -> u32
        requires order { start < end }
        requires within { end ≤ length set.old }
        requires serves { C.serves self.now.criterion.now work.old (length set.old) }
        requires grown { IsGrown C.meets self.now (length set.old) start set.old }
        requires misfit { C.meets self.now.criterion.now (with_parts set.old self.now.parts.now start end) ≡ false }
        ensures stays { work.new ≡ work.old }
        ensures later { (start < result) × (result ≤ end) }
        ensures grown { IsGrown C.meets self.now (length set.old) result set.new }
    {
        while end - start > 1 {
            let middle = start + (end - start) / 2;
            match self.join(work, set, start, middle) {
                None => start = middle,
                Some(misfit) => end = misfit,
            }
        }
        end
    }

    /// Adds runs from `first` on, each a number longer than those before it together, until one may not join, and of
    /// that one the numbers before the first that may not join. Answers the number after that one.
    fn grow_from(&self, work: &mut C::Work, set: &mut BitRow, first: u32) -> u32
        requires within { first < length set.old }
        requires serves { C.serves self.now.criterion.now work.old (length set.old) }
        requires grown { IsGrown C.meets self.now (length set.old) first set.old }
        ensures stays { work.new ≡ work.old }
        ensures later { (first < result) × (result ≤ length set.old) }
        ensures grown { IsGrown C.meets self.now (length set.old) result set.new }
    {
        let n = set.len();
        let mut start = first;
        while start < n {
            let most = start - first + 1;
            let end = start + most.min(n - start);
            if let Some(misfit) = self.join(work, set, start, end) {
                return self.bisect(work, set, start, misfit);
            }
            start = end;
        }
        start
    }

    /// Each number of the parts, in ascending order, joins where the set then meets the criterion.
    pub fn grow(&self, work: &mut C::Work, set: &mut BitRow)
        requires serves { C.serves self.now.criterion.now work.old (length set.old) }
        requires grown { IsGrown C.meets self.now (length set.old) 0 set.old }
        ensures stays { work.new ≡ work.old }
        ensures grown { IsGrown C.meets self.now (length set.old) (length set.old) set.new }
    {
        let n = set.len();
        let mut start = 0;
        while start < n {
            start = self.grow_from(work, set, start);
        }
    }
}

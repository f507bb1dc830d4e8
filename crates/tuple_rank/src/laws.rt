//! Laws of the definitions. Each is the contract of a function that does nothing.
ghost use Rattle.tuple_rank.specs.Choices.{ChoicesAreCounted};
ghost use Rattle.tuple_rank.specs.Tuples.{TuplesAreAll, TuplesAscend, RankIsPlace, RankKeepsOrder};

/// A binomial number is the number of ways to choose.
pub fn choices_are_counted()
    ensures { ChoicesAreCounted }
{}

/// The tuples of (n, t) are the ascending lists of 1 to min(t, n) numbers below n.
pub fn tuples_are_all()
    ensures { TuplesAreAll }
{}

/// Each tuple is before those that come later, so none comes twice.
pub fn tuples_ascend()
    ensures { TuplesAscend }
{}

/// The rank of a tuple is its place among the tuples.
pub fn rank_is_place()
    ensures { RankIsPlace }
{}

/// A tuple is before another exactly where its rank is less.
pub fn rank_keeps_order()
    ensures { RankKeepsOrder }
{}

//! Sets of lengths round the size of a word and of the longest length.
ghost use Rattle.std.specs.Prelude.{◌≡◌, ◌<◌, length, IfOk};

use bit_rows::{BitRow, NoMemory};
use std::alloc::Global;
use std::test::Fail;

/// The multiples of `k` below `n`.
fn multiples(alloc: Global, n: u32, k: u32) -> Result<BitRow, NoMemory>
    requires { 0 < k }
    ensures { IfOk result (λ row. length row ≡ n) }
{
    let mut row = BitRow::make(alloc, n)?;
    for i in 0..n {
        if i % k == 0 {
            row.set(i);
        }
    }
    Ok(row)
}

#[test]
fn reads_its_members_in_order(rt: HostRuntime) -> Result<(), Fail> {
    let mut row = BitRow::make(rt.alloc(), 130)?;
    row.set(0);
    row.set(64);
    row.set(129);
    row.clear(64);
    assert_eq!(rt;
        [row.get(0), row.get(64), row.get(128), row.get(129)],
        [true, false, false, true]
    );
    let copy = row.copy()?;
    assert!(rt; copy.same(&row));
    assert_eq!(rt;
        [copy.first(), copy.next(0), copy.next(129)],
        [Some(0), Some(129), None]
    );
    assert_eq!(rt; copy.count(), 2);
    row.clear(129);
    assert!(rt; !copy.same(&row));
    Ok(())
}

#[test]
#[tactic(auto, using(bit_rows::proofs::Facts::lengths))]
fn joins_and_cuts_sets_of_any_length(rt: HostRuntime) -> Result<(), Fail> {
    // the length; how many numbers below it are multiples of 2, of 3, of both, of either, of 3 alone
    let cases = [
        (0, 0, 0, 0, 0, 0),
        (1, 1, 1, 1, 1, 0),
        (63, 32, 21, 11, 42, 10),
        (64, 32, 22, 11, 43, 11),
        (65, 33, 22, 11, 44, 11),
        (130, 65, 44, 22, 87, 22),
        (65_535, 32_768, 21_845, 10_923, 43_690, 10_922),
    ];
    for (n, twos, threes, sixes, eithers, odd_threes) in cases {
        let two = multiples(rt.alloc(), n, 2)?;
        let three = multiples(rt.alloc(), n, 3)?;
        let six = multiples(rt.alloc(), n, 6)?;
        assert_eq!(rt;
            [two.len(), two.count(), three.count(), six.count()],
            [n, twos, threes, sixes]
        );
        let mut both = two.copy()?;
        both.meet_from(&three);
        assert!(rt; both.same(&six));
        assert!(rt; both.is_subset(&two));
        let mut either = two.copy()?;
        either.union_from(&three);
        assert_eq!(rt; either.count(), eithers);
        assert_eq!(rt; either.is_subset(&two), odd_threes == 0);
        either.minus_from(&two);
        assert_eq!(rt; either.count(), odd_threes);
        assert_eq!(rt; either.first(), if n > 3 { Some(3) } else { None });
        assert_eq!(rt; either.next(3), if n > 9 { Some(9) } else { None });
        assert_eq!(rt; two.next(n), None);
    }
    Ok(())
}

fn crosses_threads<T: Send + Sync>(_: &T) {}

#[test]
fn may_be_moved_and_shared_between_threads(rt: HostRuntime) -> Result<(), Fail> {
    crosses_threads(&BitRow::make(rt.alloc(), 1)?);
    Ok(())
}

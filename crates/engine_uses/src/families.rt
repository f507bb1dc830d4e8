//! Families over sets made by hand.
use bit_rows::BitRow;
use probe_family::{Closed, Ended, Ending, Family, Part, Parts};
use std::alloc::Global;
use std::process::Abort;
use std::test::Fail;
use std::thread;
use tuple_rank::Tuple;

/// A set of numbers below 10.
fn set_of(rt: &impl Abort, alloc: Global, members: &[u32]) -> Result<BitRow, Fail> {
    let mut set = BitRow::make(alloc, 10)?;
    for member in members {
        assert!(rt; *member < set.len());
        set.set(*member);
    }
    Ok(set)
}

/// A family of parts that take so many of these numbers.
fn family_of(
    rt: &impl Abort,
    alloc: Global,
    bound: u32,
    parts: &[(u32, &[u32])],
) -> Result<Family, Fail> {
    let mut size = 0u32;
    let mut all = Vec::new(alloc);
    for (take, members) in parts {
        size = size.wrapping_add(*take);
        let set = set_of(rt, alloc, members)?;
        all.push(Part { take: *take, set })?;
    }
    Ok(Family {
        size,
        bound,
        parts: Parts::from_vec(all),
    })
}

#[test]
fn holds_exactly_its_tuples(rt: HostRuntime) -> Result<(), Fail> {
    let family = family_of(&rt, rt.alloc(), 0, &[(2, &[1, 3, 5]), (1, &[0, 4])])?;
    let cases: [(&[u32], bool); 11] = [
        (&[0, 1, 3], true),
        (&[3, 4, 5], true),
        (&[1, 3], false),
        (&[1, 3, 5], false),
        (&[0, 1, 4], false),
        (&[0, 1, 3, 5], false),
        (&[0, 1, 2, 3], false),
        (&[0, 1, 3, 70_000], false),
        (&[1, 0, 3], false),
        (&[0, 3, 3], false),
        (&[], false),
    ];
    for (numbers, want) in cases {
        let mut tuple = Tuple::new();
        for number in numbers {
            assert!(rt; !tuple.is_full());
            tuple.push(*number);
        }
        assert_eq!(rt; family.holds(&tuple), want, "{numbers:?}");
    }
    Ok(())
}

#[test]
fn is_the_same_as_its_copy_alone(rt: HostRuntime) -> Result<(), Fail> {
    let alloc = rt.alloc();
    let family = family_of(&rt, alloc, 1, &[(2, &[1, 3, 5]), (1, &[0, 4])])?;
    assert!(rt; family.same(&family.copy()?));
    let others: [(u32, &[(u32, &[u32])]); 5] = [
        (0, &[(2, &[1, 3, 5]), (1, &[0, 4])]),
        (1, &[(2, &[1, 3, 5])]),
        (1, &[(2, &[1, 3, 5]), (1, &[0, 5])]),
        (1, &[(1, &[1, 3, 5]), (2, &[0, 4])]),
        (1, &[(1, &[0, 4]), (2, &[1, 3, 5])]),
    ];
    for (bound, parts) in others {
        let other = family_of(&rt, alloc, bound, parts)?;
        assert!(rt; !family.same(&other));
        assert!(rt; !other.same(&family));
    }
    Ok(())
}

/// Takes types whose values may be moved to other threads and shared with them.
fn crosses_threads<T: Send + Sync>() {}

#[test]
fn families_cross_threads(_rt: HostRuntime) {
    crosses_threads::<Family>();
    crosses_threads::<Closed>();
    crosses_threads::<Ending>();
    crosses_threads::<Ended>();
}

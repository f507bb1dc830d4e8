//! The totals at the limit of 2^62, and all ranks of a small case.
use std::alloc::Global;
use std::test::Fail;
use tuple_rank::{Binomials, CountStop, Tuple};

#[test]
fn counts_up_to_two_to_the_62(rt: HostRuntime) -> Result<(), Fail> {
    let cases = [
        (65_535, 4, Some(768_543_971_776_348_160u64)),
        (65_535, 5, None),
        (14_081, 5, Some(4_611_392_202_266_779_777)),
        (14_082, 5, None),
        (812, 8, Some(4_573_385_118_057_225_936)),
        (813, 8, None),
        (5, 2, Some(15)),
        (3, 8, Some(7)),
        (0, 8, Some(0)),
    ];
    for (n, t, total) in cases {
        assert!(rt; n <= 65_535u32);
        assert!(rt; 1 <= t);
        assert!(rt; t <= 8u32);
        match Binomials::make(rt.alloc(), n, t) {
            Ok(counts) => assert_eq!(rt; Some(counts.total()), total),
            Err(CountStop::TooManyTuples) => assert_eq!(rt; None, total),
            Err(CountStop::NoMemory) => assert!(rt; false),
        }
    }
    Ok(())
}

#[test]
fn ranks_by_size_and_then_lexicographically(rt: HostRuntime) -> Result<(), Fail> {
    let counts = Binomials::make(rt.alloc(), 5, 2)?;
    let tuples: [&[u32]; 15] = [
        &[0],
        &[1],
        &[2],
        &[3],
        &[4],
        &[0, 1],
        &[0, 2],
        &[0, 3],
        &[0, 4],
        &[1, 2],
        &[1, 3],
        &[1, 4],
        &[2, 3],
        &[2, 4],
        &[3, 4],
    ];
    assert_eq!(rt; counts.total(), 15);
    for rank in 0..counts.total() {
        let tuple = counts.unrank(rank);
        assert_eq!(rt; Some(&tuple.as_slice()), tuples.get(rank as usize));
        assert_eq!(rt; counts.rank(&tuple), rank);
    }
    assert_eq!(rt;
        [
            counts.choose(5, 0),
            counts.choose(5, 2),
            counts.choose(1, 2)
        ],
        [1, 10, 0]
    );
    Ok(())
}

fn crosses_threads<T: Send + Sync>(_: &T) {}

#[test]
fn may_be_shared_between_threads(rt: HostRuntime) -> Result<(), Fail> {
    crosses_threads(&Binomials::make(rt.alloc(), 1, 1)?);
    Ok(())
}

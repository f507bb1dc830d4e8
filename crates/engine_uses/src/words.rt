//! The words between seats, in one thread and in several.

ghost use Rattle.std.specs.Prelude.{◌≡◌};
ghost use Rattle.open_count.specs.Seats.{IsCountSeatOf};

use open_count::{CountSeat, CountTable};
use std::test::Fail;
use std::thread;

#[test]
fn seats_see_each_other(rt: HostRuntime) -> Result<(), Fail> {
    let (table, mut seats) = CountTable::make(rt.alloc(), 2, 1)?;
    let mut one = seats.pop().ok_or("no seat")?;
    let mut other = seats.pop().ok_or("no seat")?;
    assert_eq!(rt; seats.len(), 0);

    table.split(&mut one, 1);
    assert_eq!(rt; table.open_now(&mut other), 1);
    table.split(&mut other, 3);
    assert_eq!(rt; table.open_now(&mut one), 3);
    table.close(&mut one);
    table.close(&mut other);
    assert_eq!(rt; table.open_now(&mut other), 1);
    table.close(&mut one);
    assert_eq!(rt; table.open_now(&mut other), 0);

    assert_eq!(rt; table.best(&mut other), None);
    table.fail(&mut one, 9);
    table.fail(&mut one, 5);
    table.fail(&mut other, 7);
    assert_eq!(rt; table.best(&mut one), Some(5));
    assert_eq!(rt; table.best(&mut other), Some(5));
    table.fail(&mut other, 0);
    assert_eq!(rt; table.best(&mut one), Some(0));

    assert!(rt; !table.stopped(&mut other));
    table.stop(&mut one);
    assert!(rt; table.stopped(&mut other));
    assert!(rt; table.stopped(&mut one));
    Ok(())
}

// Splits a family into three and closes two, three thousand times, and fails the ranks from 3039 down to 40.
fn work(table: &CountTable, mut seat: CountSeat) -> CountSeat
    requires { IsCountSeatOf table.now seat }
    ensures { IsCountSeatOf table.now result }
{
    for round in 0..3000 {
        table.split(&mut seat, 3);
        table.close(&mut seat);
        table.fail(&mut seat, 3039 - round);
        table.close(&mut seat);
    }
    seat
}

#[test]
fn four_threads_agree(rt: HostRuntime) -> Result<(), Fail> {
    let (table, seats) = CountTable::make(rt.alloc(), 4, 7)?;
    let table = &table;
    let seats = thread::map_vec(&rt, seats, &|seat| work(table, seat))?;
    assert_eq!(rt; seats.len(), 4);
    for mut seat in seats {
        assert_eq!(rt; table.open_now(&mut seat), 7);
        assert_eq!(rt; table.best(&mut seat), Some(40));
        assert!(rt; !table.stopped(&mut seat));
    }
    Ok(())
}

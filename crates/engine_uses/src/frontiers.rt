//! Seats of one frontier, in one thread and in several.

ghost use Rattle.std.specs.Prelude.{◌≡◌, ℕ, ◌<◌, ◌≤◌, None, All, IfOk, IsSome, length, vec_len, slice_index_or};
ghost use Rattle.std.specs.Bool.{OnTrue};
ghost use Rattle.deque_reach.specs.Fits.{Fits};
ghost use Rattle.steal_frontier.specs.Seats.{view_of, probes_of, order_of, IsSeatOf, AreSeatsOf, KeepsFrontier};

use bit_rows::BitRow;
use probe_family::{Ended, Ending, Family, Part, Parts};
use std::alloc::Global;
use std::sync::atomic::{AtomicU64, Ordering};
use std::test::Fail;
use std::thread;
use std::thread::Threads;
use steal_frontier::{Frontier, Gathered, NoMemory, Seat, Take, gather};

// One of three probes. The bound tells one family from another.
fn family(alloc: Global, bound: u32) -> Result<Family, NoMemory>
    ensures { IfOk result (Fits 3 2) }
{
    let mut set = BitRow::make(alloc, 3)?;
    set.set(1);
    let mut parts = Vec::new(alloc);
    parts.push(Part { take: 1, set })?;
    Ok(Family {
        size: 1,
        bound,
        parts: Parts::from_vec(parts),
    })
}

// Families of these bounds.
fn families(alloc: Global, bounds: &[u32]) -> Result<Vec<Family>, NoMemory>
    ensures fit { IfOk result (λ families. All (Fits 3 2) families.items) }
    ensures count { IfOk result (λ families. vec_len families ≡ length bounds.now) }
{
    let mut families = Vec::new(alloc);
    for bound in bounds {
        families.push(family(alloc, *bound)?)?;
    }
    Ok(families)
}

// A frontier with roots of these bounds.
fn begin(alloc: Global, workers: u32, roots: &[u32]) -> Result<(Frontier, Vec<Seat>), NoMemory>
    requires some { 1 ≤ workers }
    requires few { workers ≤ 64 }
    ensures fits { IfOk result (λ made. (probes_of made.0 ≡ 3) × (order_of made.0 ≡ 2)) }
    ensures seats { IfOk result (λ made. AreSeatsOf made.0 made.1.items) }
{
    let roots = families(alloc, roots)?;
    Frontier::make(alloc, workers, 3, 2, roots)
}

// The bound of the family that the seat holds.
fn held(seat: &Seat) -> Option<u32> {
    Some(seat.held()?.bound)
}

// Whether the seat holds no family.
fn is_free(seat: &Seat) -> bool
    ensures { OnTrue result ((view_of seat.now).held ≡ None) }
{
    seat.held().is_none()
}

// Whether the seat holds a family.
fn is_busy(seat: &Seat) -> bool
    ensures { OnTrue result (IsSome (view_of seat.now).held) }
{
    seat.held().is_some()
}

// Takes a family with a seat that holds none: the bound of the one that is held then.
fn take_with(frontier: &Frontier, seat: &mut Seat) -> Option<u32>
    requires { IsSeatOf frontier.now seat.old }
    ensures { KeepsFrontier seat.old seat.new }
{
    if !is_free(seat) {
        return None;
    }
    match seat.take(frontier) {
        Take::Held => held(seat),
        Take::Nothing => None,
    }
}

// The same with the seat of a number.
fn take(frontier: &Frontier, seats: &mut Vec<Seat>, number: usize) -> Option<u32>
    requires { AreSeatsOf frontier.now seats.old.items }
    ensures { AreSeatsOf frontier.now seats.new.items }
{
    if number < seats.len() {
        return take_with(frontier, &mut seats[number]);
    }
    None
}

// Ends the family that a seat holds, and gives children of these bounds.
fn give_with(
    alloc: Global,
    frontier: &Frontier,
    seat: &mut Seat,
    bounds: &[u32],
) -> Result<(), NoMemory>
    requires fits { (probes_of frontier.now ≡ 3) × (order_of frontier.now ≡ 2) }
    requires seat { IsSeatOf frontier.now seat.old }
    requires few { length bounds.now ≤ 9 }
    ensures { KeepsFrontier seat.old seat.new }
{
    let children = families(alloc, bounds)?;
    seat.reserve(bounds.len() as u32)?;
    if is_busy(seat) {
        seat.give(frontier, Ending::Beyond { best: 7 }, children);
    }
    Ok(())
}

// The same with the seat of a number.
fn give(
    alloc: Global,
    frontier: &Frontier,
    seats: &mut Vec<Seat>,
    number: usize,
    bounds: &[u32],
) -> Result<(), NoMemory>
    requires fits { (probes_of frontier.now ≡ 3) × (order_of frontier.now ≡ 2) }
    requires seats { AreSeatsOf frontier.now seats.old.items }
    requires few { length bounds.now ≤ 9 }
    ensures { AreSeatsOf frontier.now seats.new.items }
{
    if number < seats.len() {
        give_with(alloc, frontier, &mut seats[number], bounds)?;
    }
    Ok(())
}

// The bounds of families that were ended, in ascending order.
fn bounds_of(alloc: Global, ended: &[Ended]) -> Result<Vec<u32>, NoMemory> {
    let mut bounds = Vec::new(alloc);
    for record in ended {
        bounds.push(record.family.bound)?;
    }
    bounds.sort_unstable();
    Ok(bounds)
}

// The bounds of families that are left, in ascending order.
fn left_of(alloc: Global, left: &[Family]) -> Result<Vec<u32>, NoMemory> {
    let mut bounds = Vec::new(alloc);
    for family in left {
        bounds.push(family.bound)?;
    }
    bounds.sort_unstable();
    Ok(bounds)
}

// Takes families with the seat of a number and ends them without children. Whether these are their bounds.
fn ends_each(
    alloc: Global,
    frontier: &Frontier,
    seats: &mut Vec<Seat>,
    number: usize,
    bounds: &[u32],
) -> Result<bool, NoMemory>
    requires fits { (probes_of frontier.now ≡ 3) × (order_of frontier.now ≡ 2) }
    requires seats { AreSeatsOf frontier.now seats.old.items }
    ensures { AreSeatsOf frontier.now seats.new.items }
{
    for bound in bounds {
        if take(frontier, seats, number) != Some(*bound) {
            return Ok(false);
        }
        give(alloc, frontier, seats, number, &[])?;
    }
    Ok(true)
}

// Makes room on the stack of the seat of a number.
fn reserve(
    frontier: &Frontier,
    seats: &mut Vec<Seat>,
    number: usize,
    children: u32,
) -> Result<(), NoMemory>
    requires { AreSeatsOf frontier.now seats.old.items }
    ensures { AreSeatsOf frontier.now seats.new.items }
{
    if number < seats.len() {
        seats[number].reserve(children)?;
    }
    Ok(())
}

// What a worker takes who has no family of its own, and takes only once.
fn take_once(frontier: &Frontier, seat: Seat) -> Option<u32>
    requires { IsSeatOf frontier.now seat }
{
    let mut seat = seat;
    if seat.number() == 0 {
        return None;
    }
    take_with(frontier, &mut seat)
}

// Runs the workers to their end, each in a thread of its own.
fn run<R: Threads + Sync>(
    rt: &R,
    alloc: Global,
    frontier: &Frontier,
    seats: Vec<Seat>,
) -> Result<Vec<Seat>, NoMemory>
    requires fits { (probes_of frontier.now ≡ 3) × (order_of frontier.now ≡ 2) }
    requires seats { All (IsSeatOf frontier.now) seats.items }
    ensures count { IfOk result (λ v. vec_len v ≡ vec_len seats) }
    ensures kept { IfOk result
        (λ v. (i : ℕ) (d : _) → i < vec_len seats → KeepsFrontier (slice_index_or seats.items i d) (slice_index_or v.items i d)) }
{
    let ended = AtomicU64::new(0);
    let ended = &ended;
    thread::map_vec(rt, seats, &|seat| work(alloc, frontier, ended, seat))
}

#[test]
fn steals_the_only_root(rt: HostRuntime) -> Result<(), Fail> {
    let alloc = rt.alloc();
    let (frontier, mut seats) = begin(alloc, 2, &[1])?;
    assert_eq!(rt; take(&frontier, &mut seats, 1), Some(1));
    let gathered = gather(alloc, frontier, seats)?;
    assert_eq!(rt; gathered.ended.as_slice().len(), 0);
    assert_eq!(rt;
        left_of(alloc, gathered.left.as_slice())?.as_slice(),
        [1].as_slice()
    );
    Ok(())
}

#[test]
fn makes_room(rt: HostRuntime) -> Result<(), Fail> {
    let alloc = rt.alloc();
    let (frontier, mut seats) = begin(alloc, 2, &[])?;
    assert_eq!(rt; take(&frontier, &mut seats, 0), None);
    assert_eq!(rt; seats.len(), 2);
    assert_eq!(rt; seats[0].room(), None);
    reserve(&frontier, &mut seats, 0, 3)?;
    assert_eq!(rt; seats.len(), 2);
    assert!(rt; seats[0].room().unwrap_or(0) >= 3);
    let gathered = gather(alloc, frontier, seats)?;
    assert_eq!(rt; gathered.ended.as_slice().len(), 0);
    assert_eq!(rt; gathered.left.as_slice().len(), 0);
    Ok(())
}

#[test]
fn gives_one_child(rt: HostRuntime) -> Result<(), Fail> {
    let alloc = rt.alloc();
    let (frontier, mut seats) = begin(alloc, 2, &[1])?;
    assert_eq!(rt; take(&frontier, &mut seats, 0), Some(1));
    assert_eq!(rt; take(&frontier, &mut seats, 1), None);
    give(alloc, &frontier, &mut seats, 0, &[2])?;
    assert_eq!(rt; take(&frontier, &mut seats, 0), Some(2));
    let gathered = gather(alloc, frontier, seats)?;
    assert_eq!(rt;
        bounds_of(alloc, gathered.ended.as_slice())?.as_slice(),
        [1].as_slice()
    );
    assert_eq!(rt;
        left_of(alloc, gathered.left.as_slice())?.as_slice(),
        [2].as_slice()
    );
    Ok(())
}

#[test]
fn takes_in_order(rt: HostRuntime) -> Result<(), Fail> {
    let alloc = rt.alloc();
    let (frontier, mut seats) = begin(alloc, 3, &[10, 11, 12, 13, 14])?;
    // Roots 0 and 3 stand on the deque 0, roots 1 and 4 on the deque 1, and root 2 on the deque 2.
    assert_eq!(rt; take(&frontier, &mut seats, 1), Some(11));
    // The first child goes on the deque, the second is the top of the stack.
    give(alloc, &frontier, &mut seats, 1, &[1, 2, 3])?;
    assert_eq!(rt; take(&frontier, &mut seats, 1), Some(2));
    give(alloc, &frontier, &mut seats, 1, &[])?;
    assert_eq!(rt; take(&frontier, &mut seats, 1), Some(3));
    give(alloc, &frontier, &mut seats, 1, &[])?;
    // The stack is empty: the own deque, then those from the next number upwards and round.
    let want = [14, 1, 12, 10, 13];
    assert!(rt; ends_each(alloc, &frontier, &mut seats, 1, &want)?);
    assert_eq!(rt; take(&frontier, &mut seats, 1), None);
    let gathered = gather(alloc, frontier, seats)?;
    let want = [1, 2, 3, 10, 11, 12, 13, 14].as_slice();
    assert_eq!(rt;
        bounds_of(alloc, gathered.ended.as_slice())?.as_slice(),
        want
    );
    assert_eq!(rt; gathered.left.as_slice().len(), 0);
    Ok(())
}

#[test]
fn one_seat_gets_it(rt: HostRuntime) -> Result<(), Fail> {
    for _ in 0..30 {
        let (frontier, seats) = begin(rt.alloc(), 4, &[1])?;
        let frontier = &frontier;
        let taken = thread::map_vec(&rt, seats, &|seat| take_once(frontier, seat))?;
        assert_eq!(rt; taken.len(), 4);
        assert_eq!(rt; taken.iter().filter(|&&taken| taken == Some(1)).count(), 1);
    }
    Ok(())
}

/// How many families the tree has: the number n has the children 2n and 2n + 1, up to this.
const NODES: u32 = 1023;

// Takes and gives until all families of the tree are ended.
fn work(alloc: Global, frontier: &Frontier, ended: &AtomicU64, seat: Seat) -> Seat
    requires fits { (probes_of frontier.now ≡ 3) × (order_of frontier.now ≡ 2) }
    requires seat { IsSeatOf frontier.now seat }
    ensures { KeepsFrontier seat result }
{
    let mut seat = seat;
    for _ in 0..10_000_000 {
        if ended.load(Ordering::SeqCst) >= u64::from(NODES) {
            break;
        }
        if let Some(node) = take_with(frontier, &mut seat) {
            let children = [node.wrapping_mul(2), node.wrapping_mul(2).wrapping_add(1)];
            let given = if node <= NODES / 2 {
                children.as_slice()
            } else {
                [].as_slice()
            };
            if give_with(alloc, frontier, &mut seat, given).is_err() {
                break;
            }
            ended.fetch_add(1, Ordering::SeqCst);
        }
    }
    seat
}

// The bounds of the families that so many workers end, in ascending order, and how many families they leave.
fn ended_by<R: Threads + Sync>(
    rt: &R,
    alloc: Global,
    workers: u32,
) -> Result<(Vec<u32>, usize), NoMemory>
    requires some { 1 ≤ workers }
    requires few { workers ≤ 64 }
{
    let (frontier, seats) = begin(alloc, workers, &[1])?;
    let seats = run(rt, alloc, &frontier, seats)?;
    let gathered = gather(alloc, frontier, seats)?;
    let bounds = bounds_of(alloc, gathered.ended.as_slice())?;
    Ok((bounds, gathered.left.as_slice().len()))
}

#[test]
fn four_workers_end_what_one_ends(rt: HostRuntime) -> Result<(), Fail> {
    let mut nodes = Vec::new(rt.alloc());
    for node in 1..NODES + 1 {
        nodes.push(node)?;
    }
    for workers in [1, 4, 4, 4] {
        let (ended, left) = ended_by(&rt, rt.alloc(), workers)?;
        assert_eq!(rt; ended.as_slice(), nodes.as_slice(), "{workers} workers");
        assert_eq!(rt; left, 0);
    }
    Ok(())
}

/// Takes types whose values may be moved to other threads and shared with them.
fn crosses_threads<T: Send + Sync>() {}

/// Takes types whose values may be moved to other threads.
fn moves<T: Send>() {}

#[test]
fn seats_move_and_the_frontier_is_shared(_rt: HostRuntime) {
    crosses_threads::<Frontier>();
    moves::<Seat>();
    moves::<Gathered>();
}

//! Deques between workers, in one thread and in several.

ghost use Rattle.std.specs.Prelude.{◌≡◌, All, IfOk, length};
ghost use Rattle.deque_reach.specs.Fits.{Fits};
ghost use Rattle.deque_reach.specs.Reaches.{view_of, deques_of, probes_of, order_of, IsReachOf, KeepsDeques};

use bit_rows::BitRow;
use deque_reach::{Deques, Reach, drain_deques, make_deques};
use probe_family::{Family, NoMemory, Part, Parts};
use std::alloc::Global;
use std::test::Fail;
use std::thread;

// One of three probes. The bound tells one family from another.
fn family(alloc: Global, bound: u32) -> Result<Family, NoMemory>
    ensures { IfOk result (Fits 3 2) }
{
    let mut set = BitRow::make(alloc, 3)?;
    set.set(1);
    let mut parts = Vec::new(alloc);
    parts.push(Part { take: 1, set })?;
    Ok(Family {
        size: 1,
        bound,
        parts: Parts::from_vec(parts),
    })
}

// Two workers' deques.
fn two_reaches(alloc: Global) -> Result<(Deques, Reach, Reach), NoMemory>
    ensures fits { IfOk result (λ two. (probes_of two.0 ≡ 3) × (order_of two.0 ≡ 2)) }
    ensures count { IfOk result (λ two. length (deques_of two.0) ≡ 2) }
    ensures one { IfOk result (λ two. IsReachOf two.0 two.1 × ((view_of two.1).number ≡ 0)) }
    ensures other { IfOk result (λ two. IsReachOf two.0 two.2 × ((view_of two.2).number ≡ 1)) }
{
    let (deques, mut reaches) = make_deques(alloc, 2, 3, 2)?;
    let (Some(other), Some(one)) = (reaches.pop(), reaches.pop()) else {
        unreachable!()
    };
    Ok((deques, one, other))
}

// Pushes a family of this bound, and says whether it did.
fn push(alloc: Global, deques: &Deques, reach: &mut Reach, bound: u32) -> Result<bool, NoMemory>
    requires fits { (probes_of deques.now ≡ 3) × (order_of deques.now ≡ 2) }
    requires reach { IsReachOf deques.now reach.old }
    ensures { KeepsDeques reach.old reach.new }
{
    let family = family(alloc, bound)?;
    Ok(reach.push(family).is_ok())
}

// What is left in the deques of two workers.
fn drain_both(
    alloc: Global,
    deques: Deques,
    one: Reach,
    other: Reach,
) -> Result<Vec<Family>, NoMemory>
    requires count { length (deques_of deques) ≡ 2 }
    requires one { IsReachOf deques one × ((view_of one).number ≡ 0) }
    requires other { IsReachOf deques other × ((view_of other).number ≡ 1) }
{
    let mut reaches = Vec::new(alloc);
    reaches.push(one)?;
    reaches.push(other)?;
    drain_deques(alloc, deques, reaches)
}

fn bound(family: Option<Family>) -> Option<u32> {
    Some(family?.bound)
}

#[test]
fn first_in_first_out(rt: HostRuntime) -> Result<(), Fail> {
    let (deques, mut one, mut other) = two_reaches(rt.alloc())?;
    assert_eq!(rt; deques.workers(), 2);
    assert_eq!(rt; one.number(), 0);
    assert_eq!(rt; other.number(), 1);

    assert_eq!(rt; bound(one.pop()), None);
    assert!(rt; push(rt.alloc(), &deques, &mut one, 7)?);
    assert!(rt; push(rt.alloc(), &deques, &mut one, 8)?);
    assert!(rt; push(rt.alloc(), &deques, &mut one, 9)?);
    assert_eq!(rt; bound(other.steal(&deques, 0)), Some(7));
    assert_eq!(rt; bound(one.pop()), Some(8));
    assert_eq!(rt; bound(other.pop()), None);
    assert!(rt; push(rt.alloc(), &deques, &mut other, 4)?);

    let left = drain_both(rt.alloc(), deques, one, other)?;
    let mut bounds = Vec::new(rt.alloc());
    for family in left {
        bounds.push(family.bound)?;
    }
    assert_eq!(rt; bounds.as_slice(), [9, 4].as_slice());
    Ok(())
}

// What the owner of the deque 0 pops, or another worker steals there: none or one.
fn take_one(deques: &Deques, mut reach: Reach) -> u32
    requires { IsReachOf deques.now reach }
{
    let number = reach.number();
    let family = if number == 0 || deques.workers() == 0 {
        reach.pop()
    } else {
        reach.steal(deques, 0)
    };
    if family.is_some() { 1 } else { 0 }
}

// Pushes a family with the first reach, and says whether it did.
fn push_first(alloc: Global, deques: &Deques, reaches: &mut Vec<Reach>) -> Result<bool, NoMemory>
    requires fits { (probes_of deques.now ≡ 3) × (order_of deques.now ≡ 2) }
    requires reaches { All (IsReachOf deques.now) reaches.old.items }
    ensures { All (IsReachOf deques.now) reaches.new.items }
{
    if reaches.is_empty() {
        return Ok(false);
    }
    push(alloc, deques, &mut reaches[0], 6)
}

#[test]
fn one_worker_gets_it(rt: HostRuntime) -> Result<(), Fail> {
    for _ in 0..50 {
        let (deques, mut reaches) = make_deques(rt.alloc(), 4, 3, 2)?;
        let pushed = push_first(rt.alloc(), &deques, &mut reaches)?;
        assert!(rt; pushed);
        let deques = &deques;
        let taken = thread::map_vec(&rt, reaches, &|reach| take_one(deques, reach))?;
        assert_eq!(rt; taken.iter().filter(|&&taken| taken == 1).count(), 1);
    }
    Ok(())
}

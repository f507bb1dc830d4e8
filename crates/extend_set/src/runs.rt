//! Runs: the numbers of some sets that are at least one number and below another.
ghost use Rattle.std.specs.Prelude.{◌≡◌, ◌<◌, ◌≤◌, All, length};
ghost use Rattle.bit_rows.specs.Sets.{is_in};
ghost use Rattle.probe_family.specs.Families.{is_in_part};
ghost use Rattle.extend_set.specs.Growth.{AreSameFrom, member_from, with_numbers, with_run, without_run};

use bit_rows::BitRow;
use probe_family::Part;

/// The least member that is at least `start`.
fn member_from(set: &BitRow, start: u32) -> Option<u32>
    ensures { result ≡ member_from set.now start }
{
    if start == 0 {
        return set.first();
    }
    set.next(start - 1)
}

/// Adds the run of the other set's members. Answers where it ends: from there on it adds none. That is one more than
/// the greatest that was not there before.
fn add_members(set: &mut BitRow, other: &BitRow, start: u32, end: u32) -> u32
    requires order { start ≤ end }
    requires within { end ≤ length set.old }
    ensures added { set.new ≡ with_run set.old (is_in other.now) start end }
    ensures no_more { AreSameFrom result set.old set.new }
    ensures between { (start ≤ result) × (result ≤ end) }
{
    let mut from = start;
    let mut reach = start;
    while let Some(p) = member_from(other, from) {
        if p >= end {
            return reach;
        }
        from = p + 1;
        if !set.get(p) {
            set.set(p);
            reach = from;
        }
    }
    reach
}

/// Adds the run of the members of the parts' sets. Answers where it ends: from there on it adds none. That is one more
/// than the greatest that was not there before.
pub fn add_run(set: &mut BitRow, parts: &[Part], start: u32, end: u32) -> u32
    requires order { start ≤ end }
    requires within { end ≤ length set.old }
    ensures added { set.new ≡ with_run set.old (is_in_part parts.now) start end }
    ensures no_more { AreSameFrom result set.old set.new }
    ensures between { (start ≤ result) × (result ≤ end) }
{
    let mut reach = start;
    for part in parts {
        let part_reach = add_members(set, &part.set, start, end);
        reach = reach.max(part_reach);
    }
    reach
}

/// Takes out the run of all numbers.
fn clear_run(set: &mut BitRow, start: u32, end: u32)
    requires order { start ≤ end }
    requires within { end ≤ length set.old }
    ensures { set.new ≡ without_run set.old start end }
{
    for p in start..end {
        set.clear(p);
    }
}

/// Adds these numbers.
fn add_numbers(set: &mut BitRow, numbers: &[u32])
    requires { All (λ p. p < length set.old) numbers.now }
    ensures { set.new ≡ with_numbers set.old numbers.now }
{
    for p in numbers {
        set.set(*p);
    }
}

/// Takes out the run of all numbers but these, which are in then.
pub fn reset_run(set: &mut BitRow, kept: &[u32], start: u32, end: u32)
    requires order { start ≤ end }
    requires within { end ≤ length set.old }
    requires kept { All (λ p. p < length set.old) kept.now }
    ensures { set.new ≡ with_numbers (without_run set.old start end) kept.now }
{
    clear_run(set, start, end);
    add_numbers(set, kept);
}

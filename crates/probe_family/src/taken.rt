//! Whether numbers are a tuple that takes from each part as it should.
ghost use Rattle.std.specs.Prelude.{◌≡◌};
ghost use Rattle.std.specs.List.{list_all};
ghost use Rattle.probe_family.specs.Families.{are_taken, is_ascending, is_in_part, is_taken_from};

use crate::part::Part;

/// Whether each number is below the next.
pub fn is_ascending(numbers: &[u32]) -> bool
    ensures { result ≡ is_ascending numbers.now }
{
    for i in 1..numbers.len() {
        if numbers[i - 1] >= numbers[i] {
            return false;
        }
    }
    true
}

/// Whether from each part come as many of the numbers as it takes, and none comes from elsewhere.
pub fn are_taken(parts: &[Part], numbers: &[u32]) -> bool
    ensures { result ≡ are_taken parts.now numbers.now }
{
    all_take(parts, numbers) && all_are_in(parts, numbers)
}

/// Whether as many of the numbers are in each part's set as it takes.
fn all_take(parts: &[Part], numbers: &[u32]) -> bool
    ensures { result ≡ list_all (λ part. is_taken_from part numbers.now) parts.now }
{
    parts.iter().all(|part| part.is_taken_from(numbers))
}

/// Whether each number is in the set of some part.
fn all_are_in(parts: &[Part], numbers: &[u32]) -> bool
    ensures { result ≡ list_all (is_in_part parts.now) numbers.now }
{
    numbers.iter().all(|p| is_in_part(parts, *p))
}

fn is_in_part(parts: &[Part], p: u32) -> bool
    ensures { result ≡ is_in_part parts.now p }
{
    parts.iter().any(|part| part.has(p))
}

//! The lists that say how many members of each part lie inside, in descending order.
ghost use Rattle.std.specs.Prelude.{◌≡◌, [], ◌∷◌, IfOk, MatchBool};
ghost use Rattle.family_split.specs.Later.{AreInside, later, takes_of};

use probe_family::{NoMemory, Part};
use std::alloc::Global;

/// The list of all takes, which comes first.
pub fn takes_of(alloc: Global, parts: &[Part]) -> Result<Vec<u32>, NoMemory>
    ensures { IfOk result (λ numbers. numbers.items ≡ takes_of parts.now) }
{
    parts.iter().map(|part| part.take).collect(alloc)
}

/// Goes to the next list, which is the greatest lesser one; false where there is none.
pub fn step_down(parts: &[Part], numbers: &mut [u32]) -> bool
    requires { AreInside parts.now numbers.old }
    ensures inside { AreInside parts.now numbers.new }
    ensures next { MatchBool result
        (later parts.now numbers.old ≡ numbers.new ∷ later parts.now numbers.new) (later parts.now numbers.old ≡ []) }
{
    for i in (0..parts.len()).rev() {
        if numbers[i] > 0 {
            numbers[i] -= 1;
            return true;
        }
        numbers[i] = parts[i].take;
    }
    false
}
